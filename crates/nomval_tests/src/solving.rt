// What `solve-flat` finds.
use crate::desks::{ends, problem_desk, wrote, wrote_none};
use gas_model::{Name, NoMemory};
use std::alloc::Global;
use std::test::Fail;

const USUAL: &[&str] = &["solve-flat", "p", "o"];

const EXACT: &[&str] = &["solve-flat", "p", "o", "--tol", "0"];

const CHECK: &[&str] = &["check-flat", "p", "o"];

const DROP_OF_NINE: &str = "node a 5 5 4 4\nnode b 4 9 -4 -4\npipe p a b -10 10 1 1 1\n";

const TWO_PIPES: &str =
    "node a 5 5 1 1\nnode b 4 5 -1 -1\npipe p a b -10 10 1 1 1\npipe r a b -10 10 1 1 1\n";

const ONE_WAY_PIPES: &str =
    "node a 4 5 1 1\nnode b 4 5 -1 -1\npipe p a b 0 1 1 1 1\npipe r a b 0 1 1 1 1\n";

// Whether these words end so on the problem of these lines, with this text in OUT.
fn solves(
    alloc: Global,
    words: &[&str],
    lines: &str,
    exit: u8,
    said: &str,
    text: &str,
) -> Result<bool, NoMemory> {
    let mut desk = problem_desk(alloc, lines)?;
    Ok(ends(alloc, &mut desk, words, exit, said) && wrote(&desk, text))
}

// Whether the problem of these lines is accepted with this text.
fn accepts(alloc: Global, words: &[&str], lines: &str, text: &str) -> Result<bool, NoMemory> {
    solves(alloc, words, lines, 0, "accepted\n", text)
}

// Whether it is rejected with this text.
fn rejects(alloc: Global, lines: &str, text: &str) -> Result<bool, NoMemory> {
    solves(alloc, USUAL, lines, 1, "rejected\n", text)
}

// Whether it ends without a file.
fn leaves(alloc: Global, lines: &str, exit: u8, said: &str) -> Result<bool, NoMemory> {
    let mut desk = problem_desk(alloc, lines)?;
    Ok(ends(alloc, &mut desk, USUAL, exit, said) && wrote_none(&desk))
}

#[test]
fn a_problem_at_rest_is_accepted(rt: HostRuntime) -> Result<(), Fail> {
    let alloc = rt.alloc();
    // The middle of 0 to 81 is 40.
    for (lines, text) in [
        (
            "node a 0 9 0 0\n",
            "{\"arcs\":[],\"decisions\":[],\"nodes\":[[\"a\",40]]}\n",
        ),
        (
            "node a 0 9 0 0\nnode b 0 9 0 0\npipe p a b -10 10 1 1 1\n",
            "{\"arcs\":[[\"p\",\"open\",0]],\"decisions\":[],\"nodes\":[[\"a\",40],[\"b\",40]]}\n",
        ),
        // The first decision shuts the valve; a station without a decision is active.
        (
            "node a 0 9 0 0\nnode b 0 9 0 0\nvalve v a b -10 10\nstation c a b 0 10 0 100000000 3 2 9\ngroup g\ndecision d\nset v closed\ndecision e\nset v open\n",
            "{\"arcs\":[[\"v\",\"closed\",0],[\"c\",\"active\",0]],\"decisions\":[[\"g\",\"d\"]],\"nodes\":[[\"a\",40],[\"b\",40]]}\n",
        ),
    ] {
        assert!(rt; accepts(alloc, USUAL, lines, text)?);
    }
    Ok(())
}

#[test]
fn bounds_that_leave_nothing_are_rejected(rt: HostRuntime) -> Result<(), Fail> {
    let alloc = rt.alloc();
    for (lines, text) in [
        // From 36 to 25 there is no square.
        ("node a 6 5 0 0\n", "gastree 2\nclose empty s0\nend\n"),
        // A flow without a value comes before a square without one.
        (
            "node a 6 5 0 0\nnode b 0 9 0 0\npipe p a b 1 -1 1 1 1\n",
            "gastree 2\nclose empty q0\nend\n",
        ),
    ] {
        assert!(rt; rejects(alloc, lines, text)?);
    }
    Ok(())
}

// 25 less 9 is 16, and no tolerance is needed.
#[test]
fn a_flow_of_three_is_found(rt: HostRuntime) -> Result<(), Fail> {
    let alloc = rt.alloc();
    let lines = "node a 5 5 3 3\nnode b 0 9 -3 -3\npipe p a b -10 10 1 1 1\n";
    let text =
        "{\"arcs\":[[\"p\",\"open\",3]],\"decisions\":[],\"nodes\":[[\"a\",25],[\"b\",16]]}\n";
    let mut desk = problem_desk(alloc, lines)?;
    assert!(rt; ends(alloc, &mut desk, USUAL, 0, "accepted\n"));
    assert!(rt; wrote(&desk, text));
    assert!(rt;
        ends(
            alloc,
            &mut desk,
            &["replay-flat", "p", "o", "--tol", "0"],
            0,
            "accepted\nkept\n"
        )
    );
    Ok(())
}

// Neither end of the resistance alone fits; and a resistor may take the same whatever flows.
#[test]
fn laws_that_leave_room_are_met_exactly(rt: HostRuntime) -> Result<(), Fail> {
    let alloc = rt.alloc();
    for (lines, text) in [
        (
            "node a 5 5 3 3\nnode b 3 3 -3 -3\npipe p a b -10 10 1 2 1\n",
            "{\"arcs\":[[\"p\",\"open\",3]],\"decisions\":[],\"nodes\":[[\"a\",25],[\"b\",9]]}\n",
        ),
        (
            "node a 5 5 0 0\nnode b 0 9 0 0\nloss r a b -10 10 2 2\n",
            "{\"arcs\":[[\"r\",\"open\",0]],\"decisions\":[],\"nodes\":[[\"a\",25],[\"b\",25]]}\n",
        ),
        (
            "node a 5 5 1 1\nnode b 0 9 -1 -1\nloss r a b -10 10 2 2\n",
            "{\"arcs\":[[\"r\",\"open\",1]],\"decisions\":[],\"nodes\":[[\"a\",25],[\"b\",9]]}\n",
        ),
    ] {
        assert!(rt; accepts(alloc, EXACT, lines, text)?);
    }
    Ok(())
}

// Both pipes would carry one half each; whole numbers carry 1 and 0, with a law off by 1.
#[test]
fn what_needs_halves_is_accepted_within_one(rt: HostRuntime) -> Result<(), Fail> {
    let alloc = rt.alloc();
    let text =
        "{\"arcs\":[[\"p\",\"open\",1],[\"r\",\"open\",0]],\"decisions\":[],\"nodes\":[[\"a\",25],[\"b\",24]]}\n";
    let words = &["solve-flat", "p", "o", "--tol", "1"];
    assert!(rt; accepts(alloc, words, TWO_PIPES, text)?);
    Ok(())
}

// How the tree of equal pipes begins. Its first open box ends at line 16, and has one point alone: both flows are 8
// sixteenths, and the squares 25 and 24 and three quarters.
const HALF_EACH: &str =
    "gastree 2\nlo q0 0 pipe 0\nhi q0 48 pipe 0\nlo q1 0 pipe 1\nhi q1 48 pipe 1\nhi q0 16 balance 0\nhi q1 16 balance 0\nlo s1 384 pipe 0\nhalve q1\nhalf q1 hi 8\nlo q0 8 balance 0\nhi s1 396 pipe 0\nlo q1 8 pipe 1\nlo s1 396 pipe 1\nhi q0 8 balance 0\nopen\nhalf q1 lo 8\n";

// Without a tolerance no variable is left to halve. The tree passes but for its open boxes.
#[test]
fn what_needs_halves_is_left_undecided_by_the_grid(rt: HostRuntime) -> Result<(), Fail> {
    let alloc = rt.alloc();
    let mut desk = problem_desk(alloc, TWO_PIPES)?;
    assert!(rt; ends(alloc, &mut desk, EXACT, 2, "undecided grid line 16\n"));
    let begins = desk
        .file("o")
        .is_some_and(|text| text.starts_with(HALF_EACH.as_bytes()));
    assert!(rt; begins);
    let both = "undecided grid line 16\nnot refutation open line 16\n";
    assert!(rt; ends(alloc, &mut desk, CHECK, 3, both));
    Ok(())
}

// One box is split, at the middle of 0 to 16 sixteenths, and the first of its halves would be next.
#[test]
fn a_spent_budget_names_its_box(rt: HostRuntime) -> Result<(), Fail> {
    let alloc = rt.alloc();
    let said = "undecided budget line 5\n";
    let text =
        "gastree 2\nhalve q1\nhalf q1 hi 8\nlo q0 8 balance 0\nopen\nhalf q1 lo 8\nopen\nend\n";
    for words in [
        &["solve-flat", "p", "o", "--tol", "0", "--boxes", "1"],
        &["solve-flat", "p", "o", "--boxes", "1", "--tol", "0"],
    ] {
        assert!(rt; solves(alloc, words, ONE_WAY_PIPES, 2, said, text)?);
    }
    Ok(())
}

// The tree passes but for its open boxes, the first of which the line named.
#[test]
fn the_tree_of_a_spent_budget_passes_in_part(rt: HostRuntime) -> Result<(), Fail> {
    let alloc = rt.alloc();
    let mut desk = problem_desk(alloc, ONE_WAY_PIPES)?;
    let words = ["solve-flat", "p", "o", "--tol", "0", "--boxes", "1"];
    assert!(rt; ends(alloc, &mut desk, &words, 2, "undecided budget line 5\n"));
    let both = "undecided budget line 5\nnot refutation open line 5\n";
    assert!(rt; ends(alloc, &mut desk, CHECK, 3, both));
    Ok(())
}

// 25 less 16 is 9, and 9 is less than 16.
#[test]
fn a_flow_of_four_is_rejected(rt: HostRuntime) -> Result<(), Fail> {
    let alloc = rt.alloc();
    let mut desk = problem_desk(alloc, DROP_OF_NINE)?;
    let text = "gastree 2\nlo q0 64 balance 0\nhi q0 64 balance 0\nclose pipe 0\nend\n";
    assert!(rt; ends(alloc, &mut desk, USUAL, 1, "rejected\n"));
    assert!(rt; wrote(&desk, text));
    assert!(rt; ends(alloc, &mut desk, CHECK, 0, "rejected\npasses\n"));
    Ok(())
}

// The only decision shuts the only way; another one opens it.
#[test]
fn decisions_are_tried(rt: HostRuntime) -> Result<(), Fail> {
    let alloc = rt.alloc();
    let shut =
        "node a 0 9 3 3\nnode b 0 9 -3 -3\nvalve v a b -10 10\ngroup g\ndecision d\nset v closed\n";
    let tree =
        "gastree 2\nlo q0 48 balance 0\nhi q0 48 balance 0\ngroup 0\ntake 0 0\nclose cut 0\nend\n";
    assert!(rt; rejects(alloc, shut, tree)?);
    let either =
        "node a 0 9 3 3\nnode b 0 9 -3 -3\nvalve v a b -10 10\ngroup g\ndecision d\nset v closed\ndecision e\nset v open\n";
    let text =
        "{\"arcs\":[[\"v\",\"open\",3]],\"decisions\":[[\"g\",\"e\"]],\"nodes\":[[\"a\",40],[\"b\",40]]}\n";
    assert!(rt; accepts(alloc, USUAL, either, text)?);
    Ok(())
}

// 4 * 36 is 9 * 16: the ratio allows 6 Pa, and not 7. Where the ratio is no bound, the rise of 2 Pa is.
#[test]
fn the_states_of_a_station_are_tried(rt: HostRuntime) -> Result<(), Fail> {
    let alloc = rt.alloc();
    let text =
        "{\"arcs\":[[\"c\",\"active\",1]],\"decisions\":[],\"nodes\":[[\"a\",16],[\"b\",36]]}\n";
    for (good, bad, tree) in [
        (
            "node a 4 4 1 1\nnode b 6 6 -1 -1\nstation c a b 0 10 0 100000000 3 2 100000000\n",
            "node a 4 4 1 1\nnode b 7 7 -1 -1\nstation c a b 0 10 0 100000000 3 2 100000000\n",
            "gastree 2\nhi q0 16 balance 0\nlo q0 16 balance 0\narc 0\nstate 0 active\nclose ratio 0\nstate 0 bypass\nlo s0 257 equal 0\nclose empty s0\nstate 0 closed\nclose cut 0\nend\n",
        ),
        (
            "node a 4 4 1 1\nnode b 6 6 -1 -1\nstation c a b 0 10 0 100000000 1048576 1 2\n",
            "node a 4 4 1 1\nnode b 7 7 -1 -1\nstation c a b 0 10 0 100000000 1048576 1 2\n",
            "gastree 2\nhi q0 16 balance 0\nlo q0 16 balance 0\narc 0\nstate 0 active\nclose rise 0\nstate 0 bypass\nlo s0 257 equal 0\nclose empty s0\nstate 0 closed\nclose cut 0\nend\n",
        ),
    ] {
        assert!(rt; accepts(alloc, USUAL, good, text)?);
        assert!(rt; rejects(alloc, bad, tree)?);
    }
    Ok(())
}

// Each offence of a flat problem is said, and no file is made.
#[test]
fn the_first_offence_of_a_problem_is_said(rt: HostRuntime) -> Result<(), Fail> {
    let alloc = rt.alloc();
    for (lines, said) in [
        ("node a 0 9 0\n", "bad problem line 2\n"),
        (
            "node a 0 100000001 0 0\n",
            "bad problem over limit line 2\n",
        ),
        (
            "node a 0 9 0 0\nnode a 0 9 0 0\n",
            "bad problem twice named a\n",
        ),
        (
            "node a 0 9 0 0\nvalve v a b 0 1\n",
            "bad problem no such node b\n",
        ),
        (
            "node a 0 9 0 0\nvalve v a a 0 1\n",
            "bad problem same ends v\n",
        ),
        ("group g\n", "bad problem empty group g\n"),
        (
            "group g\ndecision d\nset v open\n",
            "bad problem no such arc v\n",
        ),
        (
            "node a 0 9 0 0\nnode b 0 9 0 0\nshort v a b 0 1\ngroup g\ndecision d\nset v open\n",
            "bad problem not active v\n",
        ),
        (
            "node a 0 9 0 0\nnode b 0 9 0 0\nvalve v a b 0 1\ngroup g\ndecision d\nset v open\nset v closed\n",
            "bad problem twice decided v\n",
        ),
        (
            "node a 0 9 0 0\nnode b 0 9 0 0\nvalve v a b 0 1\ngroup g\ndecision d\nset v open\ngroup h\ndecision e\nset v open\n",
            "bad problem twice decided v\n",
        ),
    ] {
        assert!(rt; leaves(alloc, lines, 65, said)?);
    }
    Ok(())
}

// An id has at most 200 bytes, and the 201st is one too many.
#[test]
fn an_id_of_201_bytes_is_over_its_limit(rt: HostRuntime) -> Result<(), Fail> {
    let alloc = rt.alloc();
    let mut lines = Name::new(alloc);
    lines.push_text("node ")?;
    for _ in 0..201 {
        lines.push_text("x")?;
    }
    lines.push_text(" 0 9 0 0\n")?;
    assert!(rt; leaves(alloc, lines.as_str(), 65, "bad problem over limit line 2\n")?);
    Ok(())
}

// 257 groups are one too many, which comes before their equal ids.
#[test]
fn too_many_groups_come_first(rt: HostRuntime) -> Result<(), Fail> {
    let alloc = rt.alloc();
    let mut lines = Name::new(alloc);
    for _ in 0..257 {
        lines.push_text("group g\ndecision d\n")?;
    }
    assert!(rt; leaves(alloc, lines.as_str(), 65, "bad problem too many groups\n")?);
    Ok(())
}
