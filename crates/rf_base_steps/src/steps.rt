//! The counter of steps.

ghost use Rattle.std.specs.Prelude.{◌≡◌, ◌<◌};
ghost use Rattle.rf_base_steps.specs.Steps.{MakesOneStep};

use std::marker::Model;
use std::sync::ledger::{Blank, Book, Ledger, Share};

/// How many steps were made, counted in any ledger. It has no bytes at run time, and only `tick`
/// changes it. Contracts see it as a number.
#[derive(Drop)]
pub struct Steps<L: Ledger> {
    book: Book<L>,
    share: Share<L>,
}

impl<L: Ledger> Model for Steps<L> {
    ghost use Rattle.std.specs.Prelude.{ℕ, ◌<◌};

    ghost Value = { ℕ };

    ghost view = { λ s. s.book.total };

    ghost invariant = { λ s. 0 < s.share.parts };
}

impl<L: Ledger> Steps<L> {
    /// A counter at 0, over a new ledger. Who counts nothing calls a function that is given
    /// `Blank::new(1)` and makes its counter from it.
    pub fn new(blank: Blank) -> Steps<L>
        requires name { blank.name ≡ L.name }
        requires parts { blank.parts ≡ L.parts }
        requires some_part { 0 < blank.parts }
        ensures { result ≡ 0 }
    {
        let (book, share) = blank.open::<L>();
        Steps { book, share }
    }

    /// Counts one step.
    pub fn tick(&mut self)
        ensures { MakesOneStep self.old self.new }
    {
        self.book.add(&mut self.share, 1);
    }
}
