// Trees of two nodes joined by a pipe, with numbers worked by hand.
use crate::problems::{arc, joined};
use gas_model::{Bytes, Problem, Var};
use small_problems::{PIPE, loose_node};
use std::alloc::Global;
use std::test::Fail;
use tree_cert::{Head, Line, write_line};
use tree_check::{TreeFault, Verdict, check_tree};

// 5 Pa before the pipe and 4 to 9 Pa behind it, and a supply of 4.
fn supply_of_four(alloc: Global) -> Result<Problem, Fail> {
    let a = loose_node(alloc, "a", (5, 5), (4, 4))?;
    let b = loose_node(alloc, "b", (4, 9), (-4, -4))?;
    joined(alloc, a, b, arc(alloc, "p", (-10, 10), PIPE)?)
}

// A flow of 4 drops the squares by 16, and 25 less 16 is 9. The balance gives the flow 4 and not 5.
#[test]
fn drop_of_nine_cannot_carry_four(rt: HostRuntime) -> Result<(), Fail> {
    let p = supply_of_four(rt.alloc())?;
    let whole = b"gastree 1\nlo q0 4 balance 0\nhi q0 4 balance 0\nclose pipe 0\nend\n";
    assert_eq!(rt; check_tree(rt.alloc(), &p, whole), Ok(Verdict::Refutes));
    let sixteenths = b"gastree 2\nlo q0 64 balance 0\nhi q0 64 balance 0\nclose pipe 0\nend\n";
    assert_eq!(rt;
        check_tree(rt.alloc(), &p, sixteenths),
        Ok(Verdict::Refutes)
    );
    let five = b"gastree 1\nlo q0 5 balance 0\nhi q0 4 balance 0\nclose pipe 0\nend\n";
    assert_eq!(rt;
        check_tree(rt.alloc(), &p, five),
        Err(TreeFault::BadStep { line: 2 })
    );
    Ok(())
}

// A text that is cut ends too early, one with a number of 128 bits has a wide number.
#[test]
fn first_line_that_offends_is_named(rt: HostRuntime) -> Result<(), Fail> {
    let p = supply_of_four(rt.alloc())?;
    let cut = b"gastree 1\nlo q0 4 balance 0\nhi q0 4 balance 0\n";
    assert_eq!(rt;
        check_tree(rt.alloc(), &p, cut),
        Err(TreeFault::WrongEnd { line: 4 })
    );
    let wide = b"gastree 1\nlo q0 170141183460469231731687303715884105728 balance 0\n";
    assert_eq!(rt;
        check_tree(rt.alloc(), &p, wide),
        Err(TreeFault::WideNumber { line: 2 })
    );
    assert_eq!(rt;
        check_tree(rt.alloc(), &p, b""),
        Err(TreeFault::WrongEnd { line: 1 })
    );
    Ok(())
}

// Halves at 2: with a flow of 2 to 10 nothing is tried, and with one of -10 to 2 the balance asks for 4.
#[test]
fn first_box_left_open_is_named(rt: HostRuntime) -> Result<(), Fail> {
    let p = supply_of_four(rt.alloc())?;
    let part =
        b"gastree 1\nhalve q0\nhalf q0 hi 2\nlo q0 3 balance 0\nclose empty q0\nhalf q0 lo 2\nopen\nend\n";
    assert_eq!(rt;
        check_tree(rt.alloc(), &p, part),
        Ok(Verdict::Partial { first_open: 7 })
    );
    let apart =
        b"gastree 1\nhalve q0\nhalf q0 hi 2\nlo q0 3 balance 0\nclose empty q0\nhalf q0 lo 3\nopen\nend\n";
    assert_eq!(rt;
        check_tree(rt.alloc(), &p, apart),
        Err(TreeFault::WrongBranch { line: 6 })
    );
    Ok(())
}

// A text that halves the flow at each value from 199,999 down to 100,000.
fn deep(alloc: Global) -> Result<Bytes, Fail> {
    let mut text = Bytes::new(alloc);
    write_line(&Line::First, &mut text)?;
    for step in 0..100_000_u32 {
        write_line(&Line::Halve(Var::Flow(0)), &mut text)?;
        let head = Head::Half {
            var: Var::Flow(0),
            low: false,
            value: 199_999 - step as i128,
        };
        write_line(&Line::Head(head), &mut text)?;
    }
    Ok(text)
}

// A tree of 100,000 branches, one in the other, needs no deeper stack of calls.
#[test]
fn deep_tree_ends_too_early(rt: HostRuntime) -> Result<(), Fail> {
    let a = loose_node(rt.alloc(), "a", (0, 9), (0, 0))?;
    let b = loose_node(rt.alloc(), "b", (0, 9), (0, 0))?;
    let p = joined(rt.alloc(), a, b, arc(rt.alloc(), "p", (0, 200_000), PIPE)?)?;
    let text = deep(rt.alloc())?;
    assert_eq!(rt;
        check_tree(rt.alloc(), &p, text.as_slice()),
        Err(TreeFault::WrongEnd { line: 200_002 })
    );
    Ok(())
}
