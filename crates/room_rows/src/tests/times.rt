//! Times: each call and law, once at each time, through the bound.

ghost use Rattle.std.specs.Prelude.{◌≡◌, true};

use lattice_time::{Pair, Position, Round, Time, Version};

/// The least time is below the time in hand.
fn least_is_below<T: Time>(t: &T) -> bool
    ensures { result ≡ true }
{
    t.proper();
    T::least().leq(t)
}

/// The least upper bound is above both.
fn bound_is_above<T: Time>(s: &T, t: &T) -> bool
    ensures { result ≡ true }
{
    let both = s.lub(t);
    let first = s.leq(&both);
    let second = t.leq(&both);
    first && second
}

/// No upper bound is below the least one.
fn bound_is_least<T: Time>(s: &T, t: &T, above: &T) -> bool
    ensures { result ≡ true }
{
    let first = s.leq(above);
    let second = t.leq(above);
    let both = s.lub(t).leq(above);
    !first || !second || both
}

/// What is below is not greater in the total order.
fn order_agrees<T: Time>(s: &T, t: &T) -> bool
    ensures { result ≡ true }
{
    let below = s.leq(t);
    let greater = s.cmp(t).is_gt();
    !below || !greater
}

/// Whether the calls answer that the times are in this order and have this bound, and the laws hold of them.
fn answers<T: Time>(s: T, t: T, below: bool, bound: T) -> bool {
    let laws = least_is_below(&s)
        && bound_is_above(&s, &t)
        && bound_is_least(&s, &t, &bound)
        && order_agrees(&s, &t);
    laws && s.leq(&t) == below && s.lub(&t) == bound
}

fn at(outer: u32, inner: u32) -> Pair<Version, Pair<Position, Round>> {
    Pair {
        outer: Version(1),
        inner: Pair {
            outer: Position(outer),
            inner: Round(inner),
        },
    }
}

/// The same for each kind of number.
fn numbers_answer(s: u32, t: u32, below: bool, bound: u32) -> bool {
    answers(Position(s), Position(t), below, Position(bound))
        && answers(Round(s), Round(t), below, Round(bound))
        && answers(Version(s), Version(t), below, Version(bound))
}

#[test]
fn numbers(rt: HostRuntime) {
    assert!(rt; numbers_answer(2, 5, true, 5));
    assert!(rt; numbers_answer(5, 2, false, 5));
    assert!(rt; numbers_answer(4, 4, true, 4));
    assert!(rt; numbers_answer(0, u32::MAX, true, u32::MAX));
    assert!(rt; Position::least() == Position(0));
    assert!(rt; Round::least().next() == Round(1));
    assert!(rt; Version::least() == Version(0));
}

// Two times, each by its two numbers, whether they are in order, and their bound.
type Row = ([u32; 2], [u32; 2], bool, [u32; 2]);

const PAIRS: [Row; 3] = [
    ([1, 1], [1, 4], true, [1, 4]),
    // neither is below the other
    ([0, 2], [3, 0], false, [3, 2]),
    ([3, 0], [0, 2], false, [3, 2]),
];

fn pair_answers(row: Row) -> bool {
    let (s, t, below, bound) = row;
    answers(
        at(s[0], s[1]),
        at(t[0], t[1]),
        below,
        at(bound[0], bound[1]),
    )
}

fn pairs_answer(rows: &[Row]) -> bool {
    for row in rows {
        if !pair_answers(*row) {
            return false;
        }
    }
    true
}

#[test]
fn pairs(rt: HostRuntime) {
    assert!(rt; pairs_answer(&PAIRS));
    // dictionary order
    assert!(rt; at(0, 2) < at(3, 0));
    let least = Pair::<Position, Round>::least();
    assert!(rt; least.outer == Position(0) && least.inner == Round(0));
}
