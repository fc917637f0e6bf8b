//! What stands behind a measure: where it is put, and how it is taken from there.

ghost use Rattle.std.specs.Prelude.{◌≡◌};
ghost use Rattle.rf_search.specs.Taking.{measures_of};

use crate::sought::Found;
use rf_frontier::{HowId, Kept, Measure};
use std::mem;

// What stands behind a measure. Mostly it is one measure, which is put in place of the other one, so that frames stay
// small.
#[derive(Clone, Copy)]
pub enum Behind {
    // Nothing.
    Nothing,
    // One measure, in place of the one that it stands behind.
    One,
    // The measures that are put in `Found::several`.
    Several,
}

impl<C: Copy> Found<C> {
    // Takes what stands behind a measure, which was put in its place or here.
    #[inline(never)]
    pub fn take(&mut self, behind: Behind, m: &Measure<C>) -> Kept<C, HowId>
        ensures taken { result ≡ measures_of behind m.now self.old.several }
        ensures ways { self.new.hows ≡ self.old.hows }
        ensures rows { self.new.rows ≡ self.old.rows }
    {
        match behind {
            Behind::Nothing => Kept::none(),
            Behind::One => Kept::one(*m),
            Behind::Several => mem::replace(&mut self.several, Kept::none()),
        }
    }

    // Puts what stands behind a measure in its place or here.
    #[inline(never)]
    pub fn give(&mut self, kept: Kept<C, HowId>, m: &mut Measure<C>) -> Behind
        ensures given { measures_of result m.new self.new.several ≡ kept }
        ensures ways { self.new.hows ≡ self.old.hows }
        ensures rows { self.new.rows ≡ self.old.rows }
    {
        if kept.is_empty() {
            return Behind::Nothing;
        }
        match kept.alone() {
            Some(k) => {
                *m = k;
                Behind::One
            }
            None => {
                self.several = kept;
                Behind::Several
            }
        }
    }
}
