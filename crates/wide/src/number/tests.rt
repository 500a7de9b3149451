// The largest words, and where a sum no longer fits.
use crate::Wide;
use std::cmp::Ordering;
use std::test::Fail;

const TOP: u64 = 0xffff_ffff_ffff_ffff;

#[test]
fn products_of_the_largest_words(rt: HostRuntime) {
    let square = Wide::product(TOP, TOP);
    assert!(rt; square.high == TOP - 1);
    assert!(rt; square.low == 1);
    let carried = Wide::product(0x1_0000_0000, 0x1_0000_0000);
    assert!(rt; carried.high == 1);
    assert!(rt; carried.low == 0);
    assert!(rt; Wide::product(TOP, 0).equals(Wide::from(0_u64)));
}

#[test]
fn sums_carry_or_do_not_fit(rt: HostRuntime) -> Result<(), Fail> {
    let word = Wide::from(TOP);
    let Some(sum) = word.sum(Wide::from(1_u64)) else {
        return Err(Fail::new("this sum fits"));
    };
    assert!(rt; sum.high == 1 && sum.low == 0);
    let square = Wide::product(TOP, TOP);
    let Some(more) = square.sum(word) else {
        return Err(Fail::new("this sum fits"));
    };
    assert!(rt; more.high == TOP && more.low == 0);
    match more.sum(square) {
        None => Ok(()),
        Some(_) => Err(Fail::new("this sum does not fit")),
    }
}

#[test]
fn the_high_word_decides(rt: HostRuntime) {
    let high = Wide::product(0x1_0000_0000, 0x1_0000_0000);
    assert_eq!(rt; high.compare(Wide::from(TOP)), Ordering::Greater);
    assert_eq!(rt; Wide::from(TOP).compare(high), Ordering::Less);
    assert_eq!(rt; high.compare(high), Ordering::Equal);
}
