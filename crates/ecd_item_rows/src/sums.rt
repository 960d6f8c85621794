use ecd_tally::{Capped, LIMIT, Tally, Wide};
use std::cmp::Ordering;
use std::test::Fail;

#[test]
fn a_capped_sum_ends_at_its_limit(rt: HostRuntime) -> Result<(), Fail> {
    let mut sum = Capped::new();
    sum.add(LIMIT - 1);
    assert_eq!(rt; sum.total(), LIMIT - 1);
    sum.add(u64::MAX);
    assert_eq!(rt; sum.total(), LIMIT);
    sum.add(1);
    assert_eq!(rt; sum.total(), LIMIT);
    Ok(())
}

#[test]
fn a_wide_sum_is_exact_past_a_word(rt: HostRuntime) -> Result<(), Fail> {
    let mut halves = Wide::new();
    halves.add(LIMIT);
    halves.add(LIMIT);
    let mut sum = Wide::new();
    sum.add(u64::MAX);
    assert_eq!(rt; sum.compare(&halves), Ordering::Less);
    sum.add(1);
    assert_eq!(rt; sum.compare(&halves), Ordering::Equal);
    sum.add(1);
    assert_eq!(rt; sum.compare(&halves), Ordering::Greater);
    assert_eq!(rt; halves.compare(&sum), Ordering::Less);
    Ok(())
}
