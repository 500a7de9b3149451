// Contacts: whether edges of two rings cross over, or meet at all.
ghost use Rattle.std.specs.Prelude.{◌≡◌};
ghost use Rattle.ground.specs.Shapes.{edges};
ghost use Rattle.ground.specs.Statements.{crossing};
ghost use Rattle.plane.specs.Code.{along};
ghost use Rattle.plane.specs.Edges.{cross_over, meet};
ghost use Rattle.plane.specs.Lists.{any};
ghost use Rattle.relate.specs.Contacts.{contact, shares_corner};
ghost use Rattle.relate.specs.Going.{shape_in};
ghost use Rattle.relate.specs.Samples.{meeting};

use crate::ring::Ring;
use plane::{Edge, ranges_meet};

// From the farthest to the closest.
#[derive(Clone, Copy, PartialEq, Eq, PartialOrd, Ord)]
pub(crate) enum Contact {
    Clear,
    // No two edges cross over, but two have a point in common.
    Meeting,
    // Two edges cross over.
    Crossing,
}

impl Contact {
    // Of the edges of two rings. The one that closes the first ring is looked at last: a crossing that an edge before it has is found without a walk for it.
    pub(crate) fn of_rings(first: &Ring<'_>, second: &Ring<'_>) -> Contact
        ensures { result ≡ contact (crossing (shape_in first.now) (shape_in second.now)) (meeting (shape_in first.now) (shape_in second.now)) }
    {
        let mut edges = first.edges();
        let Some(closing) = edges.next() else {
            return Contact::Clear;
        };
        let mut contact = Contact::Clear;
        for near in edges {
            contact = contact.max(Contact::near(near.edge, second));
            if contact == Contact::Crossing {
                return contact;
            }
        }
        contact.max(Contact::near(closing.edge, second))
    }

    // Of an edge and a ring's edges; an edge outside the ring's box meets none.
    fn near(e: Edge, ring: &Ring<'_>) -> Contact
        ensures { result ≡ contact (any (cross_over (along e)) (edges (shape_in ring.now))) (any (meet (along e)) (edges (shape_in ring.now))) }
    {
        if ring.misses(e) {
            return Contact::Clear;
        }
        Contact::along(e, ring)
    }

    // The same, one edge after the other. Of most their heights tell that they do not meet.
    fn along(e: Edge, ring: &Ring<'_>) -> Contact
        ensures { result ≡ contact (any (cross_over (along e)) (edges (shape_in ring.now))) (any (meet (along e)) (edges (shape_in ring.now))) }
    {
        let mut contact = Contact::Clear;
        for near in ring.edges() {
            let f = near.edge;
            if !ranges_meet(e.one.y, e.other.y, f.one.y, f.other.y) {
                continue;
            }
            contact = contact.max(Contact::between(e, f));
            if contact == Contact::Crossing {
                return contact;
            }
        }
        contact
    }

    // Of two edges.
    fn between(e: Edge, f: Edge) -> Contact
        ensures { result ≡ contact (cross_over (along e) (along f)) (meet (along e) (along f)) }
    {
        if !e.meet(f) {
            return Contact::Clear;
        }
        if shares_corner(e, f) {
            return Contact::Meeting;
        }
        if e.cross_over(f) {
            Contact::Crossing
        } else {
            Contact::Meeting
        }
    }
}

// Whether an end of the one edge is an end of the other: then they do not cross over.
fn shares_corner(e: Edge, f: Edge) -> bool
    ensures { result ≡ shares_corner (along e) (along f) }
{
    e.one == f.one || e.one == f.other || e.other == f.one || e.other == f.other
}
