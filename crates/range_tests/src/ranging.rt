// 25 Pa^2 at a, and a pipe of resistance 1: b may draw up to 5 l/h, since 5^2 is 25.
use flat_text::read_flat;
use nom_range::{RangeEnd, RangeFault, range};
use std::test::Fail;

const UP_TO_FIVE: &str =
    "gasflat 1\nnode a 5 5 0 9\nnode b 0 9 -3 -3\npipe p a b -10 10 1 1 1\nend\n";

const FROM_SIX: &str =
    "gastree 2\nlo q0 0 balance 0\nlo q0 96 balance 1\nhi q0 144 balance 1\nclose pipe 0\nend\n";

#[test]
fn a_node_draws_up_to_what_the_pipe_drops(rt: HostRuntime) -> Result<(), Fail> {
    let p = read_flat(rt.alloc(), UP_TO_FIVE.as_bytes())?;
    let [_, _] = p.nodes() else {
        return Err("two nodes")?;
    };
    let Ok(found) = range(rt.alloc(), &p, 1, 0, 9, 0, 256) else {
        return Err("a range")?;
    };
    assert_eq!(rt; found.carried, 5);
    assert_eq!(rt; found.setting.flows.as_slice(), [5].as_slice());
    assert!(rt; matches!(&found.end, RangeEnd::Narrow));
    let Some(refused) = &found.refused else {
        return Err("refused draws")?;
    };
    assert_eq!(rt; refused.first, 6);
    assert_eq!(rt; refused.tree.as_slice(), FROM_SIX.as_bytes());
    Ok(())
}

#[test]
fn a_least_draw_that_is_too_much_is_refused(rt: HostRuntime) -> Result<(), Fail> {
    let p = read_flat(rt.alloc(), UP_TO_FIVE.as_bytes())?;
    let [_, _] = p.nodes() else {
        return Err("two nodes")?;
    };
    let found = range(rt.alloc(), &p, 1, 6, 9, 0, 256);
    assert!(rt; matches!(&found, Err(RangeFault::Refuted { .. })));
    Ok(())
}
