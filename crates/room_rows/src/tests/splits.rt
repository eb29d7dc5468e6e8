//! Where a run starts anew: decisions, which were worked out by hand.

use segment_split::{Counts, SplitRule, starts_new};

// Of a segment whose first view has 2 edges and took a work of 7.
const COUNTS: Counts = Counts {
    in_segment: 2,
    first_edges: 2,
    first_work: 7,
    later_edges: 1,
    later_work: 3,
    next_edges: 2,
    next_difference: 3,
};

#[test]
fn whole_and_every(rt: HostRuntime) {
    assert!(rt; !starts_new(SplitRule::Whole, COUNTS));
    assert!(rt; starts_new(SplitRule::Every(1), COUNTS));
    assert!(rt; starts_new(SplitRule::Every(2), COUNTS));
    assert!(rt; !starts_new(SplitRule::Every(3), COUNTS));
    assert!(rt; !starts_new(SplitRule::Every(u64::MAX), COUNTS));
}

// Edges and work of the first view, of the later ones, and of the next view its edges and its difference; and whether it
// starts anew. Edges of a view are below 2^22, and those of all later ones below 2^32.
const MOST: u64 = u64::MAX;

const BY_WORK: [([u64; 6], bool); 4] = [
    // a work of 3 * 3 on top is expected, against 7 * 2 / 2 anew
    ([2, 7, 1, 3, 2, 3], true),
    ([2, 7, 1, 3, 2, 2], false),
    ([2, 7, 2, 3, 2, 3], false),
    ([2, 7, 1, 3, 3, 3], false),
];

const AT_A_TIE: [([u64; 6], bool); 2] = [
    // 7 * 2 * 3 on both sides, and one more
    ([1, 7, 3, 14, 2, 3], false),
    ([1, 7, 3, 15, 2, 3], true),
];

const WHILE_NOTHING_DIFFERED: [([u64; 6], bool); 4] = [
    ([2, 7, 0, MOST, 2, 3], true),
    ([2, 7, 0, MOST, 2, 2], false),
    ([2, 7, 0, MOST, 0, 0], false),
    ([2, 7, 0, MOST, 0, 1], true),
];

const THE_GREATEST: [([u64; 6], bool); 2] = [
    (
        [4_194_303, MOST, 4_294_967_295, MOST, 4_194_303, 4_194_303],
        false,
    ),
    (
        [4_194_303, MOST, 4_194_302, MOST, 4_194_303, 4_194_303],
        true,
    ),
];

// Whether that is what is decided by the work so far. Of counts that are too great it answers false.
fn decides(row: [u64; 6], anew: bool) -> bool {
    let [
        first_edges,
        first_work,
        later_edges,
        later_work,
        next_edges,
        next_difference,
    ] = row;
    if first_edges >= 4_194_304 || next_edges >= 4_194_304 || next_difference >= 4_194_304 {
        return false;
    }
    if later_edges >= 4_294_967_296 {
        return false;
    }
    let counts = Counts {
        in_segment: 2,
        first_edges,
        first_work,
        later_edges,
        later_work,
        next_edges,
        next_difference,
    };
    starts_new(SplitRule::Auto, counts) == anew
}

fn decides_all(rows: &[([u64; 6], bool)]) -> bool {
    rows.iter().all(|(row, anew)| decides(*row, *anew))
}

#[test]
fn auto(rt: HostRuntime) {
    assert!(rt; decides_all(&BY_WORK));
    assert!(rt; decides_all(&AT_A_TIE));
    assert!(rt; decides_all(&WHILE_NOTHING_DIFFERED));
    assert!(rt; decides_all(&THE_GREATEST));
}
