//! The dots of a list so far.

ghost use Rattle.std.specs.Prelude.{◌≡◌};
ghost use Rattle.rf_base_tree.specs.Dots.{OfDatum, OfDot};
ghost use Rattle.rf_base_tree.specs.Dotting.{step, takes_datum, takes_dot, ends_in_dot};
ghost use Rattle.rf_tree.specs.Dots.{dotting_of};

/// What stands in a list so far, comments aside.
#[derive(Clone, Copy, Debug, PartialEq, Eq)]
pub enum Dots {
    /// Nothing.
    NoData,
    /// Data alone.
    Data,
    /// Data, and a dot as the last thing.
    Dotted,
    /// Data, a dot, and one datum behind it.
    Paired,
    /// Data, a dot, a datum, and a second dot as the last thing.
    Infixed,
    /// Data, two dots around a datum, and data.
    Closed,
    /// Dots that can't become lawful.
    Broken,
}

impl Dots {
    /// One more datum.
    pub fn with_datum(self) -> Dots
        ensures { dotting_of result ≡ step (dotting_of self) OfDatum }
    {
        match self {
            Dots::NoData | Dots::Data => Dots::Data,
            Dots::Dotted => Dots::Paired,
            Dots::Infixed | Dots::Closed => Dots::Closed,
            Dots::Paired | Dots::Broken => Dots::Broken,
        }
    }

    /// One more dot.
    pub fn with_dot(self) -> Dots
        ensures { dotting_of result ≡ step (dotting_of self) OfDot }
    {
        match self {
            Dots::Data => Dots::Dotted,
            Dots::Paired => Dots::Infixed,
            Dots::NoData | Dots::Dotted | Dots::Infixed | Dots::Closed | Dots::Broken =>
                Dots::Broken,
        }
    }

    /// Whether a datum can come next.
    pub fn takes_datum(self) -> bool
        ensures { result ≡ takes_datum (dotting_of self) }
    {
        !matches!(self, Dots::Paired | Dots::Broken)
    }

    /// Whether a dot can come next.
    pub fn takes_dot(self) -> bool
        ensures { result ≡ takes_dot (dotting_of self) }
    {
        matches!(self, Dots::Data | Dots::Paired)
    }

    /// Whether the last thing is a dot.
    pub fn ends_in_dot(self) -> bool
        ensures { result ≡ ends_in_dot (dotting_of self) }
    {
        matches!(self, Dots::Dotted | Dots::Infixed)
    }
}
