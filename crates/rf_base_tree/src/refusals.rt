//! Why items make no tree.

/// Why items make no tree. Kinds of refusal are numbered for those who tell them apart by number.
#[derive(Clone, Copy, Debug, PartialEq, Eq)]
pub enum TreeKind {
    /// A closer where no list is open.
    CloseWithout = 10,
    /// A closer of another bracket than the list's that is open.
    CloseMismatch = 11,
    /// A list that isn't closed.
    OpenList = 12,
    /// A prefix or a skip without its datum.
    NothingAfter = 13,
    /// A dot, or a datum behind one, where it isn't lawful.
    BadDot = 14,
    /// More lists, prefixes and skips in one another than are allowed.
    TooDeep = 15,
}
