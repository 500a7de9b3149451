// Grounds worked out by hand.
use crate::*;
use std::test::Fail;
use terms::Point;

const SQUARE: [u64; 8] = [0, 0, 6, 0, 6, 6, 0, 6];

const INNER: [u64; 8] = [2, 2, 4, 2, 4, 4, 2, 4];

const BESIDE: [u64; 8] = [6, 2, 9, 2, 9, 4, 6, 4];

const NOTCHED: [u64; 14] = [0, 0, 6, 0, 6, 2, 3, 3, 6, 4, 6, 6, 0, 6];

const WEDGE: [u64; 6] = [5, 2, 8, 3, 5, 4];

#[test]
fn five_rows_are_grounds(rt: HostRuntime) {
    assert_eq!(rt; is_ground(&SQUARE), Ok(()));
    assert_eq!(rt; is_ground(&INNER), Ok(()));
    assert_eq!(rt; is_ground(&BESIDE), Ok(()));
    assert_eq!(rt; is_ground(&NOTCHED), Ok(()));
    assert_eq!(rt; is_ground(&WEDGE), Ok(()));
}

// One runs back over itself, one crosses itself, one is gone round to the right, and one is out of range.
#[test]
fn four_rows_are_none(rt: HostRuntime) {
    assert_eq!(rt;
        is_ground(&[0, 0, 2, 0, 1, 0]),
        Err(NoGround::EdgesMeet {
            first: 1,
            second: 2,
        })
    );
    assert_eq!(rt;
        is_ground(&[0, 0, 2, 2, 2, 0, 0, 2]),
        Err(NoGround::EdgesMeet {
            first: 1,
            second: 3,
        })
    );
    assert_eq!(rt; is_ground(&[0, 0, 0, 2, 2, 2]), Err(NoGround::Clockwise));
    assert_eq!(rt;
        is_ground(&[0, 0, 1048576, 0, 0, 2]),
        Err(NoGround::OutOfRange { corner: 2 })
    );
}

// The point 7/2, 3 lies in the notch.
const NOTCH: Point = Point { a: 7, b: 6, w: 2 };

#[test]
fn two_grounds_have_the_point(rt: HostRuntime) {
    assert_eq!(rt; has_point(&SQUARE, NOTCH), Some(true));
    assert_eq!(rt; has_point(&INNER, NOTCH), Some(true));
    assert_eq!(rt; has_point(&BESIDE, NOTCH), Some(false));
    assert_eq!(rt; has_point(&NOTCHED, NOTCH), Some(false));
    assert_eq!(rt; has_point(&WEDGE, NOTCH), Some(false));
}

#[test]
fn a_box_holds_a_point_on_its_side(rt: HostRuntime) -> Result<(), Fail> {
    let notched = Extent::of(&NOTCHED).ok_or("no corners")?;
    assert!(rt; notched.holds(Extent::around(Point { a: 12, b: 7, w: 2 }).ok_or("no point")?));
    assert!(rt; !notched.holds(Extent::around(Point { a: 13, b: 7, w: 2 }).ok_or("no point")?));
    Ok(())
}
