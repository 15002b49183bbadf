// What is decided of small problems.
ghost use Rattle.std.specs.Prelude.{◌≤◌, ◌^◌};

use crate::examples::{APART, HALVES, LAST_GROUP, LOOP};
use decide::{Found, Why, decide};
use flat_text::read_flat;
use look_ahead::look_ahead;
use nom_search::search_problem;
use std::alloc::Global;
use std::test::Fail;

fn found(alloc: Global, text: &str, tol: u64, boxes: u64) -> Result<Found, Fail>
    requires tol { tol ≤ 10 ^ 16 }
    requires boxes { boxes ≤ 16384 }
{
    let p = read_flat(alloc, text.as_bytes())?;
    Ok(decide(alloc, &p, tol, boxes)?)
}

// Why it is left open, where it is.
fn left_for(found: Found) -> Option<Why> {
    match found {
        Found::Left { why, .. } => Some(why),
        _ => None,
    }
}

#[test]
fn each_answer_comes(rt: HostRuntime) -> Result<(), Fail> {
    let carried = matches!(
        found(rt.alloc(), LOOP, 100_000_000, 256)?,
        Found::Carried(_)
    );
    assert!(rt; carried);
    let refuted = matches!(found(rt.alloc(), APART, 0, 256)?, Found::Refuted(_));
    assert!(rt; refuted);
    let left = left_for(found(rt.alloc(), HALVES, 0, 256)?);
    assert_eq!(rt; left, Some(Why::Grid));
    let left = left_for(found(rt.alloc(), HALVES, 0, 0)?);
    assert_eq!(rt; left, Some(Why::Budget));
    Ok(())
}

// The search of boxes takes the groups in order, and looking ahead takes the last one first.
#[test]
fn a_group_without_a_way_is_split_first(rt: HostRuntime) -> Result<(), Fail> {
    let p = read_flat(rt.alloc(), LAST_GROUP.as_bytes())?;
    let left = left_for(search_problem(rt.alloc(), &p, 0, 64)?);
    assert_eq!(rt; left, Some(Why::Budget));
    assert!(rt; look_ahead(rt.alloc(), &p, 1)?.is_some());
    assert!(rt; look_ahead(rt.alloc(), &p, 0)?.is_none());
    let refuted = matches!(found(rt.alloc(), LAST_GROUP, 0, 64)?, Found::Refuted(_));
    assert!(rt; refuted);
    Ok(())
}
