//! Views of a few edges, whose steps were worked out by hand.

ghost use Rattle.std.specs.Prelude.{◌≡◌, length, IfOk};

use crate::tests::segments::hop_steps;
use edge_predicates::{Cmp, Place, Pred, ViewRule};
use std::alloc::{AllocError, Global};
use std::test::Fail;
use surge_outside::List;
use vertex_lang::Rounds;

const TWO: &[u8] = b"id\n1\n2\n";

const FOUR: &[u8] = b"id\n1\n2\n3\n4\n";

// Two ways from 1 to 3, and from there to 4.
const WAYS: &[u8] = b"src,dst,y:int\n1,2,1\n2,3,1\n1,3,2\n3,4,3\n";

// The same among edges of which no comparison holds, since their cell is absent.
const WAYS_AMONG_OTHERS: &[u8] =
    b"src,dst,y:int\n4,1,\n1,2,1\n2,4,\n2,3,1\n4,2,\n1,3,2\n1,4,\n3,4,3\n4,3,\n3,1,\n";

// A way from 1 to 4 over all nodes, and one edge.
const SHORTCUT: &[u8] = b"src,dst,k:int\n1,2,0\n2,3,0\n3,4,0\n1,4,1\n";

fn always(alloc: Global, holds: bool) -> Result<ViewRule, AllocError> {
    let rules = List::from_vec(vec![in alloc; Pred::Constant(holds)]?);
    Ok(ViewRule { rules })
}

// The rule of one comparison of the first column with a number.
fn rule(alloc: Global, sign: Cmp, number: i64) -> Result<ViewRule, AllocError> {
    let pred = Pred::Compare(Place::Edge(0), sign, Place::Number(number));
    let rules = List::from_vec(vec![in alloc; pred]?);
    Ok(ViewRule { rules })
}

fn two(alloc: Global, first: ViewRule, second: ViewRule) -> Result<Vec<ViewRule>, AllocError>
    ensures { IfOk result (λ rules. length rules.items ≡ 2) }
{
    let mut rules = Vec::new(alloc);
    rules.push(first)?;
    rules.push(second)?;
    Ok(rules)
}

#[test]
fn edges_come_and_go(rt: HostRuntime) -> Result<(), Fail> {
    let alloc = rt.alloc();
    let mut rules = two(alloc, rule(alloc, Cmp::Le, 1)?, rule(alloc, Cmp::Le, 2)?)?;
    rules.push(rule(alloc, Cmp::Ge, 2)?)?;
    let steps = hop_steps(alloc, FOUR, WAYS, &rules, Rounds::Within(3))?;
    assert_eq!(rt;
        steps.as_str(),
        "0: settled 2 0:0 1:1 2:2 3:-\n1 behind 0: settled 1 2:1\n2 behind 1: settled 2 1:- 3:2\nworks 7 3 5"
    );
    let among_others = hop_steps(alloc, FOUR, WAYS_AMONG_OTHERS, &rules, Rounds::Within(3))?;
    assert_eq!(rt; among_others.as_str(), steps.as_str());
    Ok(())
}

#[test]
fn an_edge_comes(rt: HostRuntime) -> Result<(), Fail> {
    let alloc = rt.alloc();
    let rules = two(alloc, rule(alloc, Cmp::Eq, 0)?, always(alloc, true)?)?;
    let steps = hop_steps(alloc, FOUR, SHORTCUT, &rules, Rounds::Within(4))?;
    assert_eq!(rt;
        steps.as_str(),
        "0: settled 3 0:0 1:1 2:2 3:3\n1 behind 0: settled 2 3:1\nworks 9 4"
    );
    Ok(())
}

#[test]
fn the_same_edges_cost_nothing(rt: HostRuntime) -> Result<(), Fail> {
    let alloc = rt.alloc();
    let rules = two(alloc, rule(alloc, Cmp::Le, 1)?, rule(alloc, Cmp::Lt, 2)?)?;
    let steps = hop_steps(alloc, FOUR, WAYS, &rules, Rounds::Within(3))?;
    assert_eq!(rt;
        steps.as_str(),
        "0: settled 2 0:0 1:1 2:2 3:-\n1 behind 0: settled 2\nworks 7 0"
    );
    Ok(())
}

#[test]
fn the_last_edge_goes(rt: HostRuntime) -> Result<(), Fail> {
    let alloc = rt.alloc();
    let rules = two(alloc, always(alloc, true)?, always(alloc, false)?)?;
    let steps = hop_steps(alloc, TWO, b"src,dst\n1,2\n", &rules, Rounds::Within(3))?;
    assert_eq!(rt;
        steps.as_str(),
        "0: settled 1 0:0 1:1\n1 behind 0: settled 0 1:-\nworks 3 2"
    );
    Ok(())
}
