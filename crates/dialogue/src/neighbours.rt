// The grounds that lie on one, as the machine shows them: a number and a way for each, one behind the other.
ghost use Rattle.std.specs.Prelude.{◌≡◌, IfOk, vec_items};
ghost use Rattle.std.specs.Option.{option_map};
ghost use Rattle.dialogue.specs.Replies.{neighbours};

use phrase::Neighbour;
use std::alloc::{AllocError, Global};
use terms::Way;

// The grounds that were shown; none of them if a number is left over, or is no way.
pub fn read_neighbours(heap: Global, shown: &[u64]) -> Result<Option<Vec<Neighbour>>, AllocError>
    ensures { IfOk result (λ o. option_map vec_items o ≡ neighbours shown.now) }
{
    let (pairs, []) = shown.as_chunks::<2>() else {
        return Ok(None);
    };
    let mut rows = Vec::new(heap);
    for [other, number] in pairs {
        let Ok(way) = Way::try_from(*number) else {
            return Ok(None);
        };
        rows.push(Neighbour { other: *other, way })?;
    }
    Ok(Some(rows))
}
