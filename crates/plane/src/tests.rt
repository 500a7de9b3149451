// Corners at the edges of their range, and points at the ends of edges.
use crate::{Corner, Edge, Sight, Turn, Viewer};
use std::test::Fail;
use terms::Point;

const TOP: u64 = 0xffff_ffff_ffff_ffff;

const FAR: u64 = 0x3ff_ffff_ffff;

fn at(x: u64, y: u64) -> Corner {
    Corner { x, y }
}

fn from_to(a: Corner, b: Corner) -> Edge {
    Edge { one: a, other: b }
}

#[test]
fn turns_at_the_limits(rt: HostRuntime) {
    let origin = at(0, 0);
    assert_eq!(rt; origin.turn(at(FAR, FAR), at(FAR - 1, FAR)), Turn::Left);
    assert_eq!(rt; origin.turn(at(TOP, TOP), at(TOP - 1, TOP)), Turn::Left);
    assert_eq!(rt; origin.turn(at(TOP, TOP), at(TOP, TOP - 1)), Turn::Right);
    assert_eq!(rt; at(TOP, 0).turn(at(0, TOP), at(1, TOP - 1)), Turn::Straight);
    assert_eq!(rt; at(TOP, TOP).turn(origin, at(FAR, FAR)), Turn::Straight);
}

// The product of 2^32 and 2^32 is 0 in 64 bits: it would seem less than 1, and the turn one to the right.
#[test]
fn a_product_that_wraps_turns_left(rt: HostRuntime) {
    assert_eq!(rt;
        at(0, 0).turn(at(0x1_0000_0000, 1), at(1, 0x1_0000_0000)),
        Turn::Left
    );
}

#[test]
fn diagonals_cross_and_neighbours_touch(rt: HostRuntime) {
    let rising = from_to(at(0, 0), at(TOP, TOP));
    let falling = from_to(at(0, TOP), at(TOP, 0));
    assert!(rt; rising.cross_over(falling));
    assert!(rt; rising.meet(falling));
    assert!(rt; !rising.meet(from_to(at(1, 0), at(TOP, TOP - 1))));
    assert!(rt; rising.meet(from_to(at(FAR, FAR), at(FAR, 0))));
    assert!(rt; !rising.cross_over(from_to(at(FAR, FAR), at(FAR, 0))));
    assert!(rt; rising.on_edge(at(FAR, FAR)));
    assert!(rt; rising.crosses(at(0, 1)));
    assert!(rt; !rising.crosses(at(0, TOP)));
}

// 7/2 3, at the lower end of an edge, at the upper end of one, on a level one, and beside one.
#[test]
fn ends_are_seen_once(rt: HostRuntime) -> Result<(), Fail> {
    let Some(point) = Viewer::new(Point { a: 7, b: 6, w: 2 }) else {
        return Err(Fail::new("this point fits"));
    };
    assert_eq!(rt;
        point.look(from_to(at(4, 3), at(4, 5))),
        Some(Sight::Crossed)
    );
    assert_eq!(rt;
        point.look(from_to(at(4, 3), at(5, 0))),
        Some(Sight::Missed)
    );
    assert_eq!(rt;
        point.look(from_to(at(4, 3), at(3, 3))),
        Some(Sight::Border)
    );
    assert_eq!(rt;
        point.look(from_to(at(5, 3), at(4, 3))),
        Some(Sight::Missed)
    );
    assert_eq!(rt;
        point.look(from_to(at(3, 2), at(4, 4))),
        Some(Sight::Border)
    );
    assert_eq!(rt; point.look(from_to(at(0, 0), at(0x10_0000, 0))), None);
    Ok(())
}
