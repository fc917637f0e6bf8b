//! Why sources are refused.

use rf_base_grammar::LexKind;
use rf_base_tree::TreeKind;

/// Why a source is refused. `NotUtf8` has the number 1, and the other kinds have those of their parts.
#[derive(Clone, Copy, Debug, PartialEq, Eq)]
pub enum SourceKind {
    /// Its bytes aren't UTF-8.
    NotUtf8,
    /// The lexer refuses it.
    Lex(LexKind),
    /// Its items make no tree.
    Tree(TreeKind),
}
