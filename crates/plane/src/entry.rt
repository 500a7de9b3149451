// The entry for three corners that are given by their numbers.
ghost use Rattle.plane.specs.Bounds.{all_within};
ghost use Rattle.plane.specs.Code.{at};
ghost use Rattle.plane.specs.Corners.{corner};
ghost use Rattle.plane.specs.Lists.{pick};
ghost use Rattle.plane.specs.Reply.{TurnSays, turn_fits, turn_told};
ghost use Rattle.std.specs.Prelude.{◌≡◌, [], ◌∷◌};

use crate::corner::Corner;
use crate::reply::Reply;
use crate::turning::Turn;

// The number of the refusal of corners that are too far away, as the entry tells it.
const TOO_FAR: u64 = 1;

// How it turns on the way from a over b to c; refused with 1 if a number is 2^31 or more.
pub fn turn(ax: u64, ay: u64, bx: u64, by: u64, cx: u64, cy: u64) -> Reply
    ensures { TurnSays (corner ax ay) (corner bx by) (corner cx cy) (turn_fits (ax ∷ ay ∷ bx ∷ by ∷ cx ∷ cy ∷ [])) result }
{
    reply_to(
        Corner { x: ax, y: ay },
        Corner { x: bx, y: by },
        Corner { x: cx, y: cy },
    )
}

// The same of corners.
fn reply_to(a: Corner, b: Corner, c: Corner) -> Reply
    ensures { result ≡ pick (all_within 2147483648 (at a) (at b) (at c)) (turn_told (at a) (at b) (at c)) (Reply.Refused 1) }
{
    if !a.all_near(b, c) {
        return Reply::Refused(TOO_FAR);
    }
    match a.near_turn(b, c) {
        Turn::Left => Reply::Left,
        Turn::Right => Reply::Right,
        Turn::Straight => Reply::Straight,
    }
}
