//! Where frontiers are asked for.

ghost use Rattle.std.specs.Prelude.{◌≡◌, ◌<◌, ◌≤◌, ◌+◌, Some, IfSome};
ghost use Rattle.rf_resolve.specs.Keys.{IsAsked, SameFrontier, key_at, nested_key, placed_part, seen, key_behind};

use crate::settings::Setting;
use rf_cost::Factory;
use rf_flat::CoreNode;

// How many nestings, alignments and resets one key is seen through. Each of more gets a frontier of its own in the
// memo, so that a long row of them isn't gone through again and again.
const SEEN_THROUGH: u32 = 16;

// A node at a place. An indentation past the computation width is kept as the width and 1: all such give the same
// frontier.
#[derive(Clone, Copy)]
pub struct Key {
    pub node: usize,
    pub column: u32,
    pub indentation: u32,
}

/// The key of the part that has the same frontier, as far as it is seen.
#[inline(always)]
pub fn through<F: Factory>(setting: &Setting<F>, key: Key) -> Key
    requires { IsAsked setting.now.core.now.nodes setting.now.limit key }
    ensures asked { IsAsked setting.now.core.now.nodes setting.now.limit result }
    ensures earlier { result.node ≤ key.node }
    ensures same { SameFrontier (F.costs setting.now.factory.now) setting.now.limit setting.now.core.now.nodes key
        result }
    ensures seen { result ≡ seen setting.now.core.now.nodes setting.now.limit key }
{
    let mut at = key;
    for _ in 0..SEEN_THROUGH {
        match part(setting, at) {
            Some(next) => at = next,
            None => return at,
        }
    }
    at
}

/// The key of a node's part that has the node's frontier, if it is the only one.
pub fn part<F: Factory>(setting: &Setting<F>, key: Key) -> Option<Key>
    requires { IsAsked setting.now.core.now.nodes setting.now.limit key }
    ensures asked { IfSome result (λ next. IsAsked setting.now.core.now.nodes setting.now.limit next) }
    ensures earlier { IfSome result (λ next. next.node < key.node) }
    ensures same { IfSome result (λ next. SameFrontier
        (F.costs setting.now.factory.now) setting.now.limit setting.now.core.now.nodes key next) }
    ensures placed { result ≡ placed_part setting.now.core.now.nodes setting.now.limit key }
{
    match *setting.core.node(key.node) {
        CoreNode::Nest(n, a) => Some(nested(setting, key, n, a)),
        CoreNode::Align(a) => Some(at(key, a, key.column)),
        CoreNode::Reset(a) => Some(at(key, a, 0)),
        _ => None,
    }
}

/// The key of a node's part with `n` columns more of indentation.
pub fn nested<F: Factory>(setting: &Setting<F>, key: Key, n: u32, a: usize) -> Key
    requires asked { IsAsked setting.now.core.now.nodes setting.now.limit key }
    requires columns { n ≤ 1000 }
    ensures { result ≡ nested_key setting.now.limit key n a }
{
    at(key, a, (key.indentation + n).min(setting.limit + 1))
}

/// The key of a node's part at this indentation.
pub fn at(key: Key, a: usize, indentation: u32) -> Key
    ensures { result ≡ key_at key a indentation }
{
    Key {
        node: a,
        column: key.column,
        indentation,
    }
}

/// The key at another column.
pub fn behind(key: Key, column: u32) -> Key
    ensures { result ≡ key_behind key column }
{
    Key { column, ..key }
}
