// What is said to the machine.
ghost use Rattle.std.specs.Prelude.{◌≡◌, ◌<◌, ◌≤◌, MatchOption};
ghost use Rattle.map.specs.Asking.{handed, event_heard};
ghost use Rattle.map.specs.Entry.{event_of};

use crate::row::Row;
use terms::Point;

// What can be asked, in the language of the office.
#[derive(Clone, Copy, PartialEq, Eq, Debug)]
pub enum Request<'a> {
    // Corners, two numbers each.
    Put { number: u64, row: &'a [u64] },
    Drop { number: u64 },
    AtPoint(Point),
    HowLie { first: u64, second: u64 },
    AllThatLie { number: u64 },
    AreaOf { number: u64 },
}

// A request, or to go on with the listing that is open.
#[derive(Clone, Copy, PartialEq, Eq, Debug)]
pub enum Event<'a> {
    Asked(Request<'a>),
    GoOn,
}

impl<'a> Event<'a> {
    // The event that the numbers of a step tell: in the machine numbers stand for kinds here and in `numbers` alone, since a step is taken through an interface of plain numbers.
    #[tactic(auto, unfolding(crate::specs::Entry::event_of))]
    pub(crate) fn numbered(kind: u64, a: u64, b: u64, c: u64, row: &'a [u64]) -> Option<Event<'a>>
        ensures { MatchOption result (6 < kind) (λ e. (kind ≤ 6) × (event_heard e ≡ event_of kind a b c (handed row.now))) }
    {
        match kind {
            0 => Some(Event::Asked(Request::Put { number: a, row })),
            1 => Some(Event::Asked(Request::Drop { number: a })),
            2 => Some(Event::Asked(Request::AtPoint(Point { a, b, w: c }))),
            3 => Some(Event::Asked(Request::HowLie {
                first: a,
                second: b,
            })),
            4 => Some(Event::Asked(Request::AllThatLie { number: a })),
            5 => Some(Event::Asked(Request::AreaOf { number: a })),
            6 => Some(Event::GoOn),
            _ => None,
        }
    }

    // The numbers that tell a step of the event, and as much of its row as the machine takes.
    #[tactic(auto, unfolding(crate::specs::Entry::event_of))]
    pub(crate) fn numbers(self) -> (u64, u64, u64, u64, Row<'a>)
        ensures { (result.0 ≤ 6) × (event_of result.0 result.1 result.2 result.3 result.4.numbers.now ≡ event_heard self.entry) }
    {
        match self {
            Event::Asked(Request::Put { number, row }) => (0, number, 0, 0, Row::handed(row)),
            Event::Asked(Request::Drop { number }) => (1, number, 0, 0, Row::handed(&[])),
            Event::Asked(Request::AtPoint(point)) => {
                (2, point.a, point.b, point.w, Row::handed(&[]))
            }
            Event::Asked(Request::HowLie { first, second }) => {
                (3, first, second, 0, Row::handed(&[]))
            }
            Event::Asked(Request::AllThatLie { number }) => (4, number, 0, 0, Row::handed(&[])),
            Event::Asked(Request::AreaOf { number }) => (5, number, 0, 0, Row::handed(&[])),
            Event::GoOn => (6, 0, 0, 0, Row::handed(&[])),
        }
    }
}
