// Why a ground was refused, in words.
ghost use Rattle.std.specs.Prelude.{◌≡◌, IfOk, string_bytes};
ghost use Rattle.entries.specs.Refusals.{refusal_words, SaysWhy};

use ground::{NoGround, is_ground};
use std::alloc::{AllocError, Global};
use terms::Refusal;

const TAKEN: u64 = Refusal::Taken as u64;

const NO_GROUND: u64 = Refusal::NoGround as u64;

const NO_ROOM: u64 = Refusal::NoRoom as u64;

fn refusal_words(
    heap: Global,
    refusal: u64,
    number: u64,
    why: Option<NoGround>,
) -> Result<String, AllocError>
    ensures { IfOk result (λ s. string_bytes s ≡ refusal_words refusal number why) }
{
    match (refusal, why) {
        (TAKEN, _) => format!(in heap; "there is a ground {number} already"),
        (NO_ROOM, _) => String::from_str(heap, "no room: more than 1024 grounds or 32768 corners"),
        (NO_GROUND, Some(reason)) => reason.to_string(heap),
        _ => format!(in heap; "refused {refusal}"),
    }
}

// Why the machine refused to put a row under a number: of what is no ground, the reason. The refusal is told by its number, and a number that is none is said too. A text and no `Display`: the reason has to be looked for in the row first.
pub fn refusal_text(
    heap: Global,
    refusal: u64,
    number: u64,
    row: &[u64],
) -> Result<String, AllocError>
    ensures { IfOk result (λ s. SaysWhy refusal number row.now (string_bytes s)) }
{
    refusal_words(heap, refusal, number, is_ground(row).err())
}
