//! The rules of heads: which shape a list takes, and what its layouts are charged.

/// The shape of a list.
#[derive(Clone, Copy, Debug, PartialEq, Eq)]
pub enum Form {
    /// An application, in style files `app`: below one another, below the first argument, or on one line.
    App,
    /// In style files `hang`: below the first argument, or on one line.
    Hang,
    /// Plain data, in style files `data`: below one another, or on one line.
    Plain,
    /// A head with headers and a body, in style files `body`.
    Body,
    /// A body of clauses, in style files `clauses`.
    Clauses,
    /// A body whose last header is a list of clauses, in style files `bindings`.
    Bindings,
}

/// What is added to the cost of a list's layout for the way in which the list is laid out.
#[derive(Clone, Copy, Debug, PartialEq, Eq)]
pub struct Charges {
    /// For one part below another.
    pub broken: u32,
    /// For the parts below the first argument or header.
    pub hung: u32,
    /// For one line.
    pub flat: u32,
}

/// How lists with a certain head are laid out.
#[derive(Clone, Copy, Debug, PartialEq, Eq)]
pub struct Rule {
    /// Their shape.
    pub form: Form,
    /// How many headers stand behind the head. It matters to `Body`, `Clauses` and `Bindings` alone.
    pub header: u32,
    /// How many bodies may stand on one line with the head. It matters to `Body`, `Clauses` and `Bindings` alone.
    pub flat: u32,
    /// What each way of laying them out adds to the cost.
    pub charges: Charges,
}
