// Trees that are read part by part.
ghost use Rattle.std.specs.Str.{chars};
ghost use Rattle.rf_tree.specs.Texts.{AreItemsOf};

use crate::shown::tree_shown;
use rf_base_grammar::Item;
use rf_tree::{Nodes, Tree, parse_next};
use std::alloc::{AllocError, Global};

/// Sources, and the trees of each part that has at least one item, or the refusal behind them. A part ends behind a
/// datum, but not before a comment on its line.
pub const ROWS: &str = r##"⇒
a⇒| 0
a b⇒| 0| 1
(a b)c⇒| (0 1 2 3)| 4
'a (b)⇒| '0{1}| (2 3 4)
a ; c⏎b⇒| 0 ;1 2
a⏎; c⏎b⇒| 0| ;1 2
a #|c|# b⇒| 0| ;1 2
; c⏎; d⇒| ;0 ;1
a (b) ; c⏎d #;e f⇒| 0| (1 2 3) ;4 5| #6{7} 8
#;a⇒| #0{1}
a )⇒| 0 CloseWithout at 2
a . b⇒| 0 BadDot at 2
a (b⇒| 0 OpenList at 2
a 'b⏎'⇒| 0| '1{2} NothingAfter at 5"##;

/// The trees of each part that has at least one item, behind a stroke, or the refusal behind them.
pub fn parts_shown(alloc: Global, source: &str, items: Vec<Item>) -> Result<String, AllocError>
    requires { AreItemsOf (chars source.now) items.items }
{
    let mut tree = Tree {
        src: source,
        items,
        nodes: Nodes::new(alloc),
        tops: Vec::new(alloc),
    };
    let mut shown = String::new(alloc);
    let mut next = 0;
    while next < tree.items.len() {
        next = match parse_next(alloc, &mut tree, next, 1) {
            Ok(end) => end,
            Err(fault) => return format!(in alloc; "{shown} {fault}"),
        };
        let part = tree_shown(alloc, &tree)?;
        shown.push_str("| ")?;
        shown.push_str(part.as_str())?;
    }
    Ok(shown)
}
