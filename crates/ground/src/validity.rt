// Which rows of numbers are grounds.
ghost use Rattle.std.specs.Prelude.{◌≡◌, true, false, length, is_ok, IfErr, MatchResult};
ghost use Rattle.ground.specs.Refusals.{is_ground, Wrong, WellSized, InRange, Refuses};
ghost use Rattle.ground.specs.Rows.{shape_of};
ghost use Rattle.ground.specs.Shapes.{edges, ring_clear, twice_area};

use crate::area::area_to_the_left;
use crate::range::first_far;
use crate::refusal::NoGround;
use crate::ring::edges_apart;

const FEWEST_CORNERS: usize = 3;

// No ground has more corners.
pub const MOST_CORNERS: usize = 256;

// Whether a row of numbers, two for each corner, is a ground; if not, what is wrong with it.
pub fn is_ground(row: &[u64]) -> Result<(), NoGround>
    ensures tells { is_ok result ≡ is_ground row.now }
    ensures reason { IfErr result (λ why. Wrong row.now why) }
{
    well_sized(row)?;
    in_range(row)?;
    edges_apart(row)?;
    let _area = gone_left(row)?;
    Ok(())
}

// How many corners there are: 3 to 256, and no number is left over.
fn well_sized(row: &[u64]) -> Result<usize, NoGround>
    ensures { MatchResult result (λ n. WellSized row.now × (n ≡ length (shape_of row.now))) (λ why. Refuses row.now why) }
{
    if row.len() % 2 != 0 {
        return Err(NoGround::Odd);
    }
    let count = row.len() / 2;
    if count < FEWEST_CORNERS {
        return Err(NoGround::TooFew);
    }
    if count > MOST_CORNERS {
        return Err(NoGround::TooMany);
    }
    Ok(count)
}

// No corner is out of range.
#[tactic(auto, using(crate::proofs::Grounds::refuses_far))]
fn in_range(row: &[u64]) -> Result<(), NoGround>
    requires { WellSized row.now }
    ensures { MatchResult result (λ _. InRange row.now) (λ why. Refuses row.now why) }
{
    first_far(row).map_or(Ok(()), |corner| Err(NoGround::OutOfRange { corner }))
}

// Twice the area of a ring that is gone round to the left: then nothing is wrong.
fn gone_left(row: &[u64]) -> Result<u64, NoGround>
    requires { (InRange row.now) × (ring_clear (edges (shape_of row.now)) ≡ true) }
    ensures { MatchResult result (λ n. (is_ground row.now ≡ true) × (n ≡ twice_area (shape_of row.now))) (λ why. Refuses row.now why) }
{
    area_to_the_left(row).ok_or(NoGround::Clockwise)
}
