//! Numbers that a seed fixes, by hand.

use draws::Draws;
use std::test::Fail;

#[test]
fn the_first_draws_of_seed_one(rt: HostRuntime) -> Result<(), Fail> {
    let mut draws = Draws::new(1);
    assert!(rt; draws.draw(2000) == 1548);
    let state = format!(in rt.alloc(); "{draws:?}")?;
    assert!(rt; state.as_str() == "Draws { state: 7806831264735756412 }");
    let mut all = Draws::new(1);
    assert!(rt; all.draw(4_294_967_295) == 1_817_669_548);
    Ok(())
}

#[test]
fn the_same_seed_draws_the_same(rt: HostRuntime) {
    let mut first = Draws::new(7);
    let mut second = Draws::new(7);
    for below in 1..20 {
        assert_eq!(rt; first.draw(below), second.draw(below));
    }
}
