// How two grounds lie: contacts first, then what lies beside their edges, then the answer.
ghost use Rattle.std.specs.Prelude.{◌≡◌, true, false, IfSome, MatchOption};
ghost use Rattle.ground.specs.Rows.{shape_of};
ghost use Rattle.ground.specs.Shapes.{a_shape};
ghost use Rattle.ground.specs.Ways.{Lies};
ghost use Rattle.relate.specs.Finding.{way_found};
ghost use Rattle.relate.specs.Fitting.{pair_fits};
ghost use Rattle.relate.specs.Going.{shape_in};
ghost use Rattle.relate.specs.Siding.{sides_both, way_so};
ghost use Rattle.terms.specs.Ways.{way_number};

use crate::contact::Contact;
use crate::ring::Ring;
use crate::sides::Sides;
use terms::Way;

// How the grounds of two rows lie to each other; nothing if a number is left over or out of range.
pub fn how_two_lie(first: &[u64], second: &[u64]) -> Option<Way>
    ensures found { MatchOption result (pair_fits first.now second.now ≡ false) (λ w. (pair_fits first.now second.now ≡ true) × (way_number w ≡ way_found (shape_of first.now) (shape_of second.now))) }
    ensures lies { IfSome result (λ w. a_shape (shape_of first.now) ≡ true → a_shape (shape_of second.now) ≡ true → Lies (shape_of first.now) (shape_of second.now) (way_number w)) }
{
    let one = Ring::of(first)?;
    let two = Ring::of(second)?;
    if one.is_apart(&two) {
        return Some(Way::Apart);
    }
    Some(way(&one, &two))
}

// The way of two rings.
fn way(first: &Ring<'_>, second: &Ring<'_>) -> Way
    ensures { way_number result ≡ way_found (shape_in first.now) (shape_in second.now) }
{
    let contact = Contact::of_rings(first, second);
    if contact == Contact::Crossing {
        return Way::Over;
    }
    way_so(contact, sides(first, second))
}

// What lies beside the edges of both.
fn sides(first: &Ring<'_>, second: &Ring<'_>) -> Sides
    ensures { result ≡ sides_both (shape_in first.now) (shape_in second.now) }
{
    let seen = Sides::default().along(first, second);
    seen.turned().along(second, first).turned()
}

// What contacts and sides tell.
fn way_so(contact: Contact, sides: Sides) -> Way
    ensures { way_number result ≡ way_so contact sides }
{
    match (contact, sides.both, sides.own, sides.other) {
        (Contact::Crossing, _, _, _) => Way::Over,
        (_, true, true, true) => Way::Over,
        (_, true, true, false) => Way::Around,
        (_, true, false, true) => Way::Within,
        (_, true, false, false) => Way::Same,
        (Contact::Meeting, false, _, _) => Way::Touch,
        (Contact::Clear, false, _, _) => Way::Apart,
    }
}
