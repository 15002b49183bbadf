// Small pools, with numbers and texts worked by hand.
ghost use Rattle.std.specs.Prelude.{◌≡◌, ◌≢◌, ℕ, ◌+◌, ◌<◌, ◌^◌, length, OnOk};
ghost use Rattle.tree_pool.specs.Calls.{IsHeld};

use gas_model::{List, Var};
use std::alloc::Global;
use std::test::Fail;
use tree_cert::{Closing, Head, Line, Rule, Step};
use tree_pool::{BranchBy, TreePool, Work, WorkEnd};

// Takes the next box, which has this number.
fn take(pool: &mut TreePool, n: u32) -> Result<(), Fail>
    ensures held { OnOk result (IsHeld pool.new n) }
    ensures others { OnOk result ((m : ℕ) → IsHeld pool.old m → IsHeld pool.new m) }
    ensures count { OnOk result (length pool.new ≡ length pool.old) }
{
    let Some(m) = pool.take() else {
        return Err(Fail::from("no box waits"));
    };
    if m != n {
        return Err(Fail::from("another box comes first"));
    }
    Ok(())
}

// Halves a held box at 3.
fn halve(
    pool: &mut TreePool,
    alloc: Global,
    n: u32,
    steps: List<Step>,
    var: Var,
) -> Result<(), Fail>
    requires held { IsHeld pool.old n }
    requires room { length pool.old + 2 < 2 ^ 32 }
    ensures others { OnOk result ((m : ℕ) → m ≢ n → IsHeld pool.old m → IsHeld pool.new m) }
    ensures count { OnOk result (length pool.new ≡ length pool.old + 2) }
{
    let mut heads = List::new(alloc);
    heads.push(Head::Half {
        var,
        low: false,
        value: 3,
    })?;
    heads.push(Head::Half {
        var,
        low: true,
        value: 3,
    })?;
    let by = BranchBy::Halves(var);
    let end = WorkEnd::Split { by, heads };
    pool.give_back(alloc, n, Work { steps, end })?;
    Ok(())
}

const HALVED: &str = "gastree 1
lo q0 1 balance 2
halve q0
half q0 hi 3
halve s0
half s0 hi 3
open
half s0 lo 3
open
half q0 lo 3
halve q1
half q1 hi 3
close empty q1
half q1 lo 3
open
end
";

// Box 2 is halved before box 1, and still the halves of box 1 come first.
#[test]
fn boxes_are_taken_in_breadth_first_order(rt: HostRuntime) -> Result<(), Fail> {
    let alloc = rt.alloc();
    let mut pool = TreePool::new(alloc)?;
    take(&mut pool, 0)?;
    let mut steps = List::new(alloc);
    steps.push(Step {
        var: Var::Flow(0),
        low: true,
        value: 1,
        rule: Rule::Balance,
        place: 2,
    })?;
    halve(&mut pool, alloc, 0, steps, Var::Flow(0))?;
    take(&mut pool, 1)?;
    take(&mut pool, 2)?;
    halve(&mut pool, alloc, 2, List::new(alloc), Var::Flow(1))?;
    halve(&mut pool, alloc, 1, List::new(alloc), Var::Square(0))?;
    take(&mut pool, 5)?;
    take(&mut pool, 6)?;
    take(&mut pool, 3)?;
    assert_eq!(rt; pool.line_of(3), 13);
    assert_eq!(rt; pool.depth_of(5), 2);
    assert_eq!(rt; pool.branched(), 3);
    let work = Work {
        steps: List::new(alloc),
        end: WorkEnd::Shut(Closing::Empty(Var::Flow(1))),
    };
    pool.give_back(alloc, 3, work)?;
    let text = pool.write(alloc, &Line::First)?;
    assert_eq!(rt; text.as_slice(), HALVED.as_bytes());
    Ok(())
}

// A lost box waits again; one that is left doesn't.
#[test]
fn lost_box_is_taken_again(rt: HostRuntime) -> Result<(), Fail> {
    let alloc = rt.alloc();
    let mut pool = TreePool::new(alloc)?;
    take(&mut pool, 0)?;
    pool.lose(0);
    take(&mut pool, 0)?;
    let work = Work {
        steps: List::new(alloc),
        end: WorkEnd::Left,
    };
    pool.give_back(alloc, 0, work)?;
    assert_eq!(rt; pool.take(), None);
    let text = pool.write(alloc, &Line::First)?;
    assert_eq!(rt; text.as_slice(), b"gastree 1\nopen\nend\n".as_slice());
    Ok(())
}
