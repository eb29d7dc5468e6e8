//! What is gathered of a few messages.

ghost use Rattle.std.specs.Prelude.{◌<◌, ◌+◌, ◌^◌};

use graph_model::Val;
use vertex_lang::{Gather, gather};

const GREATEST: i64 = i64::MAX;

// What is gathered of three messages, each as often as the number beside it.
fn gathered(kind: Gather, first: (i64, u64), second: (i64, u64), third: (i64, u64)) -> Val
    requires { first.1 + second.1 + third.1 < 2 ^ 32 }
{
    let messages = [
        (Val::Num(first.0), first.1),
        (Val::Num(second.0), second.1),
        (Val::Num(third.0), third.1),
    ];
    gather(kind, &messages)
}

#[test]
fn gathers(rt: HostRuntime) {
    let least = gathered(Gather::Min, (5, 2), (-3, 0), (7, 1));
    assert_eq!(rt; least, Val::Num(5));
    let greatest = gathered(Gather::Max, (5, 2), (9, 0), (7, 1));
    assert_eq!(rt; greatest, Val::Num(7));
    let sum = gathered(Gather::Sum, (GREATEST, 1), (1, 1), (-1, 1));
    assert_eq!(rt; sum, Val::Num(GREATEST));
    let count = gathered(Gather::Count, (5, 2), (5, 3), (6, 0));
    assert_eq!(rt; count, Val::Num(5));
    assert_eq!(rt; gather(Gather::Min, &[]), Val::Nil);
    assert_eq!(rt; gather(Gather::Sum, &[]), Val::Num(0));
}
