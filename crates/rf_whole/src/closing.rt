//! Whether a source seems to have a tree: a guess in one pass over its items, on which no promise rests.

use rf_base_grammar::{Bracket, Item, Kind};
use rf_base_tree::DEPTH_LIMIT;

// What stands last on a level, comments aside.
#[derive(Clone, Copy)]
enum Last {
    // Nothing.
    Nothing,
    // A datum.
    Datum,
    // A prefix or a second dot, which wants a datum.
    Wanting,
    // A skip, which wants one that is no datum of the list.
    Skip,
    // A dot, which wants one too.
    Dot,
    // The datum behind a dot.
    Paired,
}

// Where the guess stands.
#[derive(Drop)]
struct Guess {
    // The lists that were begun, the innermost last: their brackets, and what stood before them on their level.
    begun: [(Bracket, Last); DEPTH_LIMIT],
    // How many these are.
    depth: usize,
    // What stands last on the level.
    last: Last,
}

/// Whether each list seems to end by the bracket that it begins with, no deeper than lists may stand, and each prefix,
/// skip and dot to have its datum. Where this would take more than a look at each item, it seems not.
pub fn seems_closed(items: &[Item]) -> bool {
    let mut guess = Guess {
        begun: [(Bracket::Round, Last::Nothing); DEPTH_LIMIT],
        depth: 0,
        last: Last::Nothing,
    };
    for item in items {
        match guess.behind(item.kind) {
            Some(last) => guess.last = last,
            None => return false,
        }
    }
    guess.depth == 0 && matches!(guess.last, Last::Nothing | Last::Datum)
}

impl Guess {
    // What stands last behind one more item, of this kind, if one seems to be able to come there.
    fn behind(&mut self, kind: Kind) -> Option<Last> {
        match (self.last, kind) {
            (last, Kind::Block | Kind::Line | Kind::Lang) => Some(last),
            (Last::Nothing | Last::Datum | Last::Paired, Kind::Closer(bracket)) => {
                self.end(bracket)
            }
            (Last::Datum, Kind::Dot) if self.depth > 0 => Some(Last::Dot),
            (Last::Paired, Kind::Dot) => Some(Last::Wanting),
            (Last::Nothing | Last::Datum, Kind::Skip) => Some(Last::Skip),
            (Last::Paired, _) | (_, Kind::Closer(_) | Kind::Dot | Kind::Skip) => None,
            (_, Kind::Opener(bracket)) => self.begin(bracket),
            (last, Kind::Atom | Kind::Str | Kind::Here) => Some(behind_datum(last)),
            (Last::Nothing | Last::Datum, Kind::Prefix) => Some(Last::Wanting),
            (last, Kind::Prefix) => Some(last),
        }
    }

    // The same behind an opener.
    fn begin(&mut self, bracket: Bracket) -> Option<Last> {
        let place = self.begun.get_mut(self.depth)?;
        *place = (bracket, self.last);
        self.depth += 1;
        Some(Last::Nothing)
    }

    // The same behind a closer.
    fn end(&mut self, bracket: Bracket) -> Option<Last> {
        self.depth = self.depth.checked_sub(1)?;
        match self.begun.get(self.depth) {
            Some((opener, before)) if *opener == bracket => Some(behind_datum(*before)),
            _ => None,
        }
    }
}

// What stands last where a datum comes behind this.
fn behind_datum(last: Last) -> Last {
    match last {
        Last::Dot => Last::Paired,
        Last::Skip => Last::Nothing,
        _ => Last::Datum,
    }
}
