//! A layout as its cost is counted.

ghost use Rattle.std.specs.Prelude.{◌≡◌};

use rf_cost::Factory;
use rf_walk::{Extent, LayoutError, Paper};

/// What a layout costs so far, and its extent.
#[derive(Drop)]
pub struct Tally<'f, F: Factory> {
    /// What counts.
    pub factory: &'f F,
    /// The costs of the pieces, added in order.
    pub cost: F::Cost,
    /// How much of the layout there is.
    pub extent: Extent,
}

impl<'f, F: Factory> Tally<'f, F> {
    ghost use Rattle.std.specs.Prelude.{[]};
    ghost use Rattle.rf_measure.specs.Tallies.{Counts};

    /// Nothing, at column 0, for the cost of an empty text.
    pub fn none(factory: &'f F) -> Tally<'f, F>
        ensures counts { Counts (F.costs factory.now) result.cost result.extent [] 0 }
        ensures factory { result.factory.now ≡ factory.now }
    {
        Tally {
            factory,
            cost: factory.text(0, 0),
            extent: Extent::none(),
        }
    }
}

impl<'f, F: Factory> Paper for Tally<'f, F> {
    ghost use Rattle.rf_measure.specs.Tallies.{Counts};
    ghost use Rattle.rf_measure.specs.Within.{counts_within};

    ghost holds = { λ blank s pieces weight.
        (s.factory.now ≡ blank.factory.now) × Counts (F.costs s.factory.now) s.cost s.extent pieces weight };

    ghost within = { λ blank s pieces weight h.
        counts_within (F.costs s.factory.now) s.cost s.extent pieces weight h.1 };

    fn column(&self) -> u32 {
        self.extent.column()
    }

    /// Texts in a row cost what one of all their columns costs.
    fn line(&mut self, s: &str, len: u32, words: u32) -> Result<(), LayoutError> {
        let column = self.extent.column();
        self.extent.line(s, len, words)?;
        let of_line = self.factory.text(column, len);
        self.cost = self.factory.add(self.cost, of_line);
        Ok(())
    }

    fn line_break(&mut self, indentation: u32) -> Result<(), LayoutError> {
        self.extent.line_break(indentation)?;
        let of_break = self.factory.newline(indentation);
        self.cost = self.factory.add(self.cost, of_break);
        Ok(())
    }

    fn fee(&mut self, k: u32) {
        self.extent.fee(k);
        let of_charge = self.factory.charge(k);
        self.cost = self.factory.add(self.cost, of_charge);
    }

    fn choice(&mut self) -> Result<(), LayoutError> {
        self.extent.choice()?;
        Ok(())
    }
}
