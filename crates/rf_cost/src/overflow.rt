//! How far columns are behind the page width.

ghost use Rattle.std.specs.Prelude.{◌≡◌, ◌*◌, ◌-◌};

/// How many columns `x` is behind the page width.
pub fn over(width: u32, x: u32) -> u32
    ensures { result ≡ x - width }
{
    x.saturating_sub(width)
}

/// The square of a number of columns.
pub fn squared(n: u32) -> u64
    ensures { result ≡ n * n }
{
    n as u64 * n as u64
}
