// A point with fractions that looks at edges with whole corners.
ghost use Rattle.std.specs.Prelude.{◌<◌, ◌≤◌};
ghost use Rattle.plane.specs.Levels.{Floors, Ceils};

mod looking;

// The point `x / scale`, `y / scale`: the scale is 1 to 2^20, and x and y are below 2^42, so that no look leaves 64 bits.
// The whole heights nearest to it are `floor`, not above it, and `ceiling`, not below it.
#[derive(Clone, Copy)]
pub struct Viewer {
    x: u64,
    y: u64,
    scale: u64,
    floor: u64,
    ceiling: u64,
    ghost parted: { (1 ≤ scale) × (scale ≤ 1048576) },
    ghost held: { (x < 4398046511104) × (y < 4398046511104) },
    ghost floored: { Floors y scale floor },
    ghost ceiled: { Ceils y scale ceiling },
}
