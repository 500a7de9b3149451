// A word as a mark: digits, or `polygon`.
ghost use Rattle.std.specs.Prelude.{◌≡◌};
ghost use Rattle.entries.specs.Words.{word};

use crate::fault::Fault;
use crate::mark::Mark;
use phrase::digits_after;

pub(crate) fn read_word(text: &[u8]) -> Result<Mark, Fault>
    ensures { result ≡ word text.now }
{
    if text.eq_ignore_ascii_case(b"polygon") {
        return Ok(Mark::Polygon);
    }
    Ok(Mark::Number(digits_after(0, text)?))
}
