// Words as whole numbers.
ghost use Rattle.std.specs.Prelude.{◌≡◌};
ghost use Rattle.phrase.specs.Rows.{wholes, one_number, two_numbers};
ghost use Rattle.phrase.specs.Reading.{Reads};

use crate::fault::NotUnderstood;
use crate::word::Word;
use std::alloc::Global;

pub(crate) fn one_number(words: &[Word]) -> Option<u64>
    ensures { result ≡ one_number words.now }
{
    match words {
        [Word::Whole(n)] => Some(*n),
        _ => None,
    }
}

pub(crate) fn two_numbers(words: &[Word]) -> Option<(u64, u64)>
    ensures { result ≡ two_numbers words.now }
{
    match words {
        [Word::Whole(m), Word::Whole(n)] => Some((*m, *n)),
        _ => None,
    }
}

pub(crate) fn whole_numbers(heap: Global, words: &[Word]) -> Result<Vec<u64>, NotUnderstood>
    ensures { Reads result (wholes words.now) (λ v. v.items) }
{
    let mut row = Vec::new(heap);
    for word in words {
        let Word::Whole(n) = word else {
            return Err(NotUnderstood::Unreadable);
        };
        row.push(*n)?;
    }
    Ok(row)
}
