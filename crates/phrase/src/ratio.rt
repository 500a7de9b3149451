// A fraction as text.
ghost use Rattle.std.specs.Prelude.{◌≡◌, ◌%◌, ◌^◌, ◌<◌, Some, ◌==◌};
ghost use Rattle.std.specs.Fmt.{DisplaysOnOk};
ghost use Rattle.phrase.specs.Ratios.{places, lowest_text, ratio_text};

use crate::number::greatest_common;
use std::fmt;

// How many places a decimal can need: no denominator of 64 bits needs more.
const MOST_PLACES: u32 = 64;

// The fraction `over` / `under`, which is shown in lowest terms.
#[derive(Clone, Copy, PartialEq, Eq, Debug)]
pub(crate) struct Ratio {
    pub(crate) over: u64,
    pub(crate) under: u64,
}

// Whether the decimal places of a fraction in lowest terms come to an end.
fn has_end(under: u64) -> bool
    requires { 0 < under }
    ensures { result ≡ (10 ^ 64 % under == 0) }
{
    let mut rest = 1 % under;
    for _i in 0..MOST_PLACES {
        rest = (rest as u128 * 10 % under as u128) as u64;
    }
    rest == 0
}

// The places of `rest` / `under`, by long division.
fn write_places<W: fmt::Write>(rest: u64, under: u64, f: &mut fmt::Formatter<W>) -> fmt::Result
    requires { rest < under }
    ensures { DisplaysOnOk W.write_str_gives f.old result (Some (places 64 rest under)) f.new }
{
    let mut left = rest as u128;
    for _i in 0..MOST_PLACES {
        if left == 0 {
            break;
        }
        let place = (left * 10 / under as u128) as u8;
        write!(f, "{place}")?;
        left = left * 10 % under as u128;
    }
    Ok(())
}

fn write_lowest<W: fmt::Write>(over: u64, under: u64, f: &mut fmt::Formatter<W>) -> fmt::Result
    requires { 0 < under }
    ensures { DisplaysOnOk W.write_str_gives f.old result (Some (lowest_text over under)) f.new }
{
    if under == 1 {
        return write!(f, "{over}");
    }
    if has_end(under) {
        let whole = over / under;
        write!(f, "{whole}.")?;
        return write_places(over % under, under, f);
    }
    write!(f, "{over}/{under}")
}

impl fmt::Display for Ratio {
    ghost output = { λ r. Some (ratio_text r.over r.under) };

    fn fmt<W: fmt::Write>(&self, f: &mut fmt::Formatter<W>) -> fmt::Result {
        let Ratio { over, under } = *self;
        if under == 0 {
            return write!(f, "{over}/0");
        }
        let shared = greatest_common(over as u128, under as u128) as u64;
        write_lowest(over / shared, under / shared, f)
    }
}
