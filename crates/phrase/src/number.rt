// Numbers as they are written: digits, fractions and decimals.
ghost use Rattle.std.specs.Prelude.{◌≡◌, ◌^◌, ◌<◌};
ghost use Rattle.std.specs.Char.{is_ascii_digit};
ghost use Rattle.std.specs.List.{prefix_len};
ghost use Rattle.phrase.specs.Digits.{digit_after, digits_after};
ghost use Rattle.phrase.specs.Numbers.{more_digits, common, lowest, marked, number_word};

use crate::word::Word;
use terms::DENOMINATOR_LIMIT;

// No decimal with more places, but 0, has a denominator below 2^20 in lowest terms.
const MOST_PLACES: usize = 25;

// Why bytes are no number of 64 bits.
#[derive(Clone, Copy, PartialEq, Eq, Debug)]
pub enum BadDigits {
    NotADigit,
    TooLarge,
}

// One digit more.
fn digit_after(n: u64, d: u8) -> Result<u64, BadDigits>
    ensures { result ≡ digit_after n d }
{
    if !d.is_ascii_digit() {
        return Err(BadDigits::NotADigit);
    }
    let next = n as u128 * 10 + (d - b'0') as u128;
    if next > u64::MAX as u128 {
        return Err(BadDigits::TooLarge);
    }
    Ok(next as u64)
}

// The number that `digits` write after those of `start`; where there are none, `start` itself.
pub fn digits_after(start: u64, digits: &[u8]) -> Result<u64, BadDigits>
    ensures { result ≡ digits_after start digits.now }
{
    let mut n = start;
    for d in digits {
        n = digit_after(n, *d)?;
    }
    Ok(n)
}

// The same, where there is one digit at least.
fn more_digits(start: u64, digits: &[u8]) -> Option<u64>
    ensures { result ≡ more_digits start digits.now }
{
    if digits.is_empty() {
        return None;
    }
    digits_after(start, digits).ok()
}

// How many bytes at the front are digits.
fn digits_run(word: &[u8]) -> usize
    ensures { result ≡ prefix_len is_ascii_digit word.now }
{
    word.iter().take_while(|b| b.is_ascii_digit()).count()
}

pub(crate) fn greatest_common(a: u128, b: u128) -> u128
    ensures { result ≡ common a b }
{
    let mut large = a;
    let mut small = b;
    while small != 0 {
        let rest = large % small;
        large = small;
        small = rest;
    }
    large
}

fn in_lowest_terms(over: u64, under: u128) -> Option<Word>
    ensures { result ≡ lowest over under }
{
    if under == 0 {
        return None;
    }
    let shared = greatest_common(over as u128, under);
    let least = under / shared;
    if least >= DENOMINATOR_LIMIT as u128 {
        return None;
    }
    Some(Word::Fraction {
        over: (over as u128 / shared) as u64,
        under: least as u64,
    })
}

// A decimal: its digits without the point, and how many of them follow the point.
fn decimal(digits: u64, places: usize) -> Option<Word>
    ensures { result ≡ lowest digits (10 ^ places) }
{
    if places <= MOST_PLACES {
        return in_lowest_terms(digits, 10u128.pow(places as u32));
    }
    if digits == 0 {
        return Some(Word::Fraction { over: 0, under: 1 });
    }
    None
}

// What the digits of `front` and the bytes after them write.
fn after_digits(front: u64, bytes: &[u8]) -> Option<Word>
    ensures { result ≡ marked front bytes.now }
{
    let [mark, rest @ ..] = bytes else {
        return Some(Word::Whole(front));
    };
    match *mark {
        b'/' => in_lowest_terms(front, more_digits(0, rest)? as u128),
        b'.' => decimal(more_digits(front, rest)?, rest.len()),
        _ => None,
    }
}

// A whole number, a fraction or a decimal.
pub(crate) fn read_number(word: &[u8]) -> Option<Word>
    ensures { result ≡ number_word word.now }
{
    let (front, rest) = word.split_at(digits_run(word));
    after_digits(more_digits(0, front)?, rest)
}
