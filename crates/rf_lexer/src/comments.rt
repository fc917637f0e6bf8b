//! Line comments.

ghost use Rattle.std.specs.Prelude.{◌≡◌, ◌++◌, codes};
ghost use Rattle.std.specs.Str.{chars};
ghost use Rattle.rf_base_grammar.specs.Reader as Reader;
ghost use Rattle.rf_lexer.specs.Fronts.{Tells, IsBangMark};

use crate::classes::{Class, past};
use crate::cursor::{before, first};
use crate::front::Front;
use crate::words::{behind_char, ends_in};
use rf_base_grammar::{Kind, LexKind};

/// Whether a line may end where the text begins: at the end, before an LF, or before a CR LF.
#[inline(always)]
pub fn ends_line(text: &str) -> bool
    ensures { result ≡ Reader.line_ends_well (chars text.now) }
{
    match first(text) {
        None => true,
        Some((c, behind)) => c == '\n' || c == '\r' && behind_char(behind, '\n').is_some(),
    }
}

/// A line comment, from what is behind its semicolon.
#[inline(always)]
pub fn semicolon_item<'s>(text: &'s str, behind: &'s str) -> Front<'s>
    requires { chars text.now ≡ codes ";" ++ chars behind.now }
    ensures { Tells (Reader.semicolon_item (chars behind.now)) result }
{
    let rest = past(behind, Class::OnLine);
    if ends_line(rest) {
        Front::Read {
            kind: Kind::Line,
            behind: rest,
        }
    } else {
        Front::stray(text, rest)
    }
}

/// A line comment, from what is behind `#!`.
pub fn bang_item<'s>(text: &'s str, behind: &'s str) -> Front<'s>
    requires { chars text.now ≡ codes "#!" ++ chars behind.now }
    ensures { Tells (Reader.bang_item (chars behind.now)) result }
{
    match first(behind) {
        Some((c, body)) if c == '/' || c == ' ' => bang_body(text, behind, body),
        _ => Front::Unread {
            kind: LexKind::BadHash,
            offset: 0,
        },
    }
}

// A line comment, from what is behind `#!/` or `#! `.
fn bang_body<'s>(text: &'s str, behind: &'s str, body: &'s str) -> Front<'s>
    requires whole { chars text.now ≡ codes "#!" ++ chars behind.now }
    requires mark { IsBangMark (chars behind.now) (chars body.now) }
    ensures { Tells (Reader.bang_item (chars behind.now)) result }
{
    let rest = past(body, Class::OnLine);
    if !ends_line(rest) {
        return Front::stray(text, rest);
    }
    if ends_in(before(body, rest), '\\') {
        return Front::Unread {
            kind: LexKind::BadHash,
            offset: 0,
        };
    }
    Front::Read {
        kind: Kind::Line,
        behind: rest,
    }
}
