//! A worked example of a span.

use ordered_pairs::widened;

#[test]
fn a_span_grows_at_both_ends(rt: HostRuntime) {
    let one = widened(None, 5u32);
    assert!(rt; one == (5, 5));
    let two = widened(Some(one), 9);
    assert!(rt; two == (5, 9));
    let three = widened(Some(two), 7);
    assert!(rt; three == (5, 9));
    assert!(rt; widened(Some(three), 2) == (2, 9));
}
