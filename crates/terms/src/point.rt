// Points with fractions.

// The denominators of points that can be asked for are below this, and so are their numerators below the other.
pub const DENOMINATOR_LIMIT: u64 = 1 << 20;

pub const NUMERATOR_LIMIT: u64 = 1 << 40;

// The point a / w, b / w.
#[derive(Clone, Copy, PartialEq, Eq, Debug)]
pub struct Point {
    pub a: u64,
    pub b: u64,
    pub w: u64,
}
