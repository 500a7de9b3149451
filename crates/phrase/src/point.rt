// A point as a command names it.
ghost use Rattle.std.specs.Prelude.{◌≡◌};
ghost use Rattle.phrase.specs.Points.{ratio, near, together, point};

use crate::number::greatest_common;
use crate::word::Word;
use terms::{DENOMINATOR_LIMIT, NUMERATOR_LIMIT, Point};

// A pair, over and under, till two are brought to one denominator: what is shown in lowest terms is a `Ratio`.
fn coordinate(word: Word) -> Option<(u64, u64)>
    ensures { result ≡ ratio word }
{
    match word {
        Word::Whole(n) => Some((n, 1)),
        Word::Fraction { over, under } => Some((over, under)),
        Word::Named(_) => None,
    }
}

// The point a / w, b / w, if it is one that can be asked for.
fn near_point(a: u128, b: u128, w: u128) -> Option<Point>
    ensures { result ≡ near a b w }
{
    if w == 0
        || w >= DENOMINATOR_LIMIT as u128
        || a >= NUMERATOR_LIMIT as u128
        || b >= NUMERATOR_LIMIT as u128
    {
        return None;
    }
    Some(Point {
        a: a as u64,
        b: b as u64,
        w: w as u64,
    })
}

// Two fractions over their least common denominator.
fn joint_point(across: (u64, u64), up: (u64, u64)) -> Option<Point>
    ensures { result ≡ together across.0 across.1 up.0 up.1 }
{
    let (m, u) = (across.0 as u128, across.1 as u128);
    let (n, v) = (up.0 as u128, up.1 as u128);
    let shared = greatest_common(u, v);
    if shared == 0 {
        return None;
    }
    near_point(m * (v / shared), n * (u / shared), u * (v / shared))
}

pub(crate) fn read_point(words: &[Word]) -> Option<Point>
    ensures { result ≡ point words.now }
{
    match words {
        [across, up] => joint_point(coordinate(*across)?, coordinate(*up)?),
        [Word::Whole(a), Word::Whole(b), Word::Whole(w)] => near_point(
            *a as u128, *b as u128, *w as u128,
        ),
        _ => None,
    }
}
