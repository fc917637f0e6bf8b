//! How lists are laid out: their shapes, and the roles that they give to the lists in them.

use rf_base_style::Charges;

/// The shape of a list as it applies to the list's slots.
#[derive(Clone, Copy, Debug, PartialEq, Eq)]
pub enum Shape {
    /// Below one another, below the second slot, or on one line.
    Application,
    /// Below the second slot, or on one line.
    Hanging,
    /// Below one another, or on one line.
    Plain,
    /// Headers behind the first slot, and bodies below them.
    Body {
        /// How many headers stand behind the first slot.
        headers: u32,
        /// Whether all may stand on one line.
        one_line: bool,
    },
}

/// The role that a list gives to a list directly in it.
#[derive(Clone, Copy, Debug, PartialEq, Eq)]
pub enum Role {
    /// None.
    Free,
    /// A clause.
    Clause,
    /// A list of bindings.
    Bindings,
}

/// The roles that a list gives to the data of its slots, in order.
#[derive(Clone, Copy, Debug, PartialEq, Eq)]
pub enum Roles {
    /// None to any.
    AllFree,
    /// That of a clause to each behind so many slots.
    ClausesBehind(u32),
    /// That of a list of bindings to the one behind so many slots.
    BindingsBehind(u32),
}

/// How a list is laid out.
#[derive(Clone, Copy, Debug, PartialEq, Eq)]
pub struct Way {
    /// Its shape.
    pub shape: Shape,
    /// What its layouts are charged.
    pub charges: Charges,
    /// The roles of its slots' data.
    pub roles: Roles,
}
