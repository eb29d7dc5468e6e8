//! Lists that are one multiset, and lists that aren't.

use multisets::are_one_multiset;

#[test]
fn compares_counts(rt: HostRuntime) {
    let cases: [([u32; 3], [u32; 3], bool); 4] = [
        ([3, 1, 3], [3, 3, 1], true),
        ([3, 1, 3], [1, 3, 1], false),
        ([2, 2, 2], [2, 2, 2], true),
        ([1, 2, 4], [1, 2, 3], false),
    ];
    for (left, right, want) in cases {
        let mut first = left;
        let mut second = right;
        assert!(rt; are_one_multiset(&mut first, &mut second) == want);
    }
    let mut short = [7u32];
    let mut long = [7u32, 7];
    assert!(rt; !are_one_multiset(&mut short, &mut long));
}
