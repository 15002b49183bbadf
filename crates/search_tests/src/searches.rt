// Searches of two nodes, with numbers and texts worked by hand.
use box_pool::Pool;
use gas_model::{Problem, Var};
use nom_search::{Found, Why, search, search_problem};
use small_problems::{Pair, piped};
use std::alloc::Global;
use std::test::Fail;
use tree_cert::Head;

// 25 less the square of 3 is 16.
#[test]
fn flow_of_three_is_found(rt: HostRuntime) -> Result<(), Fail> {
    let of = Pair {
        a: (5, 5),
        b: (0, 9),
        supplies: (3, -3),
    };
    let p = piped(rt.alloc(), of, (-10, 10), &["p"])?;
    let Found::Carried(s) = search_problem(rt.alloc(), &p, 0, 256)? else {
        return Err(Fail::from("no setting"));
    };
    assert_eq!(rt; s.flows.as_slice(), &[3i64][..]);
    assert_eq!(rt; s.squares.as_slice(), &[25i64, 16][..]);
    Ok(())
}

// Between 25 Pa^2 and at least 16 a flow of 4 has a drop of 16.
#[test]
fn drop_of_nine_is_refuted(rt: HostRuntime) -> Result<(), Fail> {
    let of = Pair {
        a: (5, 5),
        b: (4, 9),
        supplies: (4, -4),
    };
    let p = piped(rt.alloc(), of, (-10, 10), &["p"])?;
    let Found::Refuted(text) = search_problem(rt.alloc(), &p, 0, 256)? else {
        return Err(Fail::from("no tree"));
    };
    let wanted = "gastree 2\nlo q0 64 balance 0\nhi q0 64 balance 0\nclose pipe 0\nend\n";
    assert_eq!(rt; text.as_slice(), wanted.as_bytes());
    Ok(())
}

// The only exact flows are one half each, so no box is left to split, and none refutes. The first open box has one point:
// its flows are 8 sixteenths each, and the square of b is 396 of them, 24 and three quarters.
#[test]
fn halves_of_a_flow_are_left_to_a_finer_grid(rt: HostRuntime) -> Result<(), Fail> {
    let of = Pair {
        a: (5, 5),
        b: (4, 5),
        supplies: (1, -1),
    };
    let p = piped(rt.alloc(), of, (-10, 10), &["p", "r"])?;
    let Found::Left { why, tree, line } = search_problem(rt.alloc(), &p, 0, 256)? else {
        return Err(Fail::from("an answer"));
    };
    assert_eq!(rt; why, Why::Grid);
    assert_eq!(rt; line, 16);
    let begins =
        "gastree 2\nlo q0 0 pipe 0\nhi q0 48 pipe 0\nlo q1 0 pipe 1\nhi q1 48 pipe 1\nhi q0 16 balance 0\nhi q1 16 balance 0\nlo s1 384 pipe 0\nhalve q1\nhalf q1 hi 8\nlo q0 8 balance 0\nhi s1 396 pipe 0\nlo q1 8 pipe 1\nlo s1 396 pipe 1\nhi q0 8 balance 0\nopen\nhalf q1 lo 8\n";
    assert!(rt; tree.as_slice().starts_with(begins.as_bytes()));
    Ok(())
}

// One box is split, at the middle of a flow of 0 to 16 sixteenths. The first half is left for want of budget, after its
// step; the second isn't looked at.
#[test]
fn budget_of_one_box_ends_at_its_first_half(rt: HostRuntime) -> Result<(), Fail> {
    let of = Pair {
        a: (4, 5),
        b: (4, 5),
        supplies: (1, -1),
    };
    let p = piped(rt.alloc(), of, (0, 1), &["p", "r"])?;
    let Found::Left { why, tree, line } = search_problem(rt.alloc(), &p, 0, 1)? else {
        return Err(Fail::from("an answer"));
    };
    assert_eq!(rt; why, Why::Budget);
    assert_eq!(rt; line, 5);
    let wanted =
        "gastree 2\nhalve q1\nhalf q1 hi 8\nlo q0 8 balance 0\nopen\nhalf q1 lo 8\nopen\nend\n";
    assert_eq!(rt; tree.as_slice(), wanted.as_bytes());
    Ok(())
}

// The head of the first box that still waits once a search has split one box.
fn next_head(alloc: Global, p: &Problem) -> Result<Option<Head>, Fail> {
    let mut pool = Pool::new(alloc, p)?;
    let _found = search(alloc, p, &mut pool, 0, 1)?;
    let Some(id) = pool.take() else {
        return Err(Fail::from("no box waits"));
    };
    let Some(view) = pool.look(alloc, p, id)? else {
        return Err(Fail::from("the box was worked on"));
    };
    Ok(view.head)
}

// The search stops at the first half of a flow. The second one still waits, and is looked at.
#[test]
fn box_behind_the_last_one_is_looked_at(rt: HostRuntime) -> Result<(), Fail> {
    let of = Pair {
        a: (4, 5),
        b: (4, 5),
        supplies: (1, -1),
    };
    let p = piped(rt.alloc(), of, (0, 1), &["p", "r"])?;
    let upper = Head::Half {
        var: Var::Flow(1),
        low: true,
        value: 8,
    };
    assert_eq!(rt; next_head(rt.alloc(), &p)?, Some(upper));
    Ok(())
}
