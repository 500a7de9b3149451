// Extents of edges, along one of the two directions.
ghost use Rattle.std.specs.Prelude.{◌≡◌};
ghost use Rattle.plane.specs.Corners.{between};
ghost use Rattle.plane.specs.Extents.{ranges_meet};

// Whether c is none of the numbers outside a and b, whichever of these is the smaller.
pub fn between(a: u64, b: u64, c: u64) -> bool
    ensures { result ≡ between a b c }
{
    if a < b {
        a <= c && c <= b
    } else {
        b <= c && c <= a
    }
}

// Whether the numbers from a to b and those from c to d have one in common.
pub fn ranges_meet(a: u64, b: u64, c: u64, d: u64) -> bool
    ensures { result ≡ ranges_meet a b c d }
{
    a.min(b) <= c.max(d) && c.min(d) <= a.max(b)
}
