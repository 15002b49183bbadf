// Small problems for which a setting is proposed, or none.
use crate::examples::{APART, BYPASS, CONTROL, LOOP, ROOM, STRANDS};
use flat_text::read_flat;
use proposer::propose;
use std::alloc::Global;
use std::test::Fail;

fn is_proposed(alloc: Global, text: &str) -> Result<bool, Fail> {
    let p = read_flat(alloc, text.as_bytes())?;
    Ok(propose(alloc, &p, 100_000_000)?.is_some())
}

#[test]
fn settings_are_proposed(rt: HostRuntime) -> Result<(), Fail> {
    for text in [LOOP, BYPASS, CONTROL, STRANDS, ROOM] {
        assert!(rt; is_proposed(rt.alloc(), text)?, "{text}");
    }
    assert!(rt; !is_proposed(rt.alloc(), APART)?);
    Ok(())
}
