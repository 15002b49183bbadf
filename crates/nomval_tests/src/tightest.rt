// The tightest step that each rule allows at each end that it has, and the next tighter one, which is refused.
use crate::desks::{desk_of_two, ends};
use gas_model::{Bytes, NoMemory};
use std::alloc::Global;
use std::test::Fail;

const WORDS: [&str; 3] = ["check-flat", "p", "s"];

// Two nodes, an arc, the state of it that a branch of the tree names, the step, and the tighter one.
type Row = (
    &'static str,
    &'static str,
    &'static str,
    &'static str,
    &'static str,
);

const STEPS: [Row; 43] = [
    (
        "node a 0 9 0 0\nnode b 5 5 0 0\n",
        "pipe p a b 3 9 1 1 1\n",
        "",
        "lo s0 34 pipe 0",
        "lo s0 35 pipe 0",
    ),
    (
        "node a 0 9 0 0\nnode b 5 5 0 0\n",
        "pipe p a b -9 -3 1 1 1\n",
        "",
        "hi s0 16 pipe 0",
        "hi s0 15 pipe 0",
    ),
    (
        "node a 5 5 0 0\nnode b 0 9 0 0\n",
        "pipe p a b 0 3 1 1 1\n",
        "",
        "lo s1 16 pipe 0",
        "lo s1 17 pipe 0",
    ),
    (
        "node a 5 5 0 0\nnode b 0 9 0 0\n",
        "pipe p a b 3 9 1 1 1\n",
        "",
        "hi s1 16 pipe 0",
        "hi s1 15 pipe 0",
    ),
    (
        "node a 3 9 0 0\nnode b 5 5 0 0\n",
        "short p a b 0 9\n",
        "",
        "lo s0 25 equal 0",
        "lo s0 26 equal 0",
    ),
    (
        "node a 5 9 0 0\nnode b 5 5 0 0\n",
        "short p a b 0 9\n",
        "",
        "hi s0 25 equal 0",
        "hi s0 24 equal 0",
    ),
    (
        "node a 5 5 0 0\nnode b 3 9 0 0\n",
        "short p a b 0 9\n",
        "",
        "lo s1 25 equal 0",
        "lo s1 26 equal 0",
    ),
    (
        "node a 5 5 0 0\nnode b 5 9 0 0\n",
        "short p a b 0 9\n",
        "",
        "hi s1 25 equal 0",
        "hi s1 24 equal 0",
    ),
    (
        "node a 0 9 0 0\nnode b 0 9 0 0\n",
        "control p a b 0 9 4 9 0 9\n",
        "active",
        "lo s0 16 inner 0",
        "lo s0 17 inner 0",
    ),
    (
        "node a 5 5 0 0\nnode b 0 9 0 0\n",
        "control p a b 0 9 0 6 0 9\n",
        "active",
        "hi s1 36 inner 0",
        "hi s1 35 inner 0",
    ),
    (
        "node a 4 9 0 0\nnode b 3 3 0 0\n",
        "control p a b 0 9 0 9 2 4\n",
        "active",
        "lo s0 25 fall 0",
        "lo s0 26 fall 0",
    ),
    (
        "node a 5 9 0 0\nnode b 3 3 0 0\n",
        "control p a b 0 9 0 9 2 4\n",
        "active",
        "hi s0 49 fall 0",
        "hi s0 48 fall 0",
    ),
    (
        "node a 6 6 0 0\nnode b 0 5 0 0\n",
        "control p a b 0 9 0 9 2 4\n",
        "active",
        "lo s1 4 fall 0",
        "lo s1 5 fall 0",
    ),
    (
        "node a 6 6 0 0\nnode b 2 9 0 0\n",
        "control p a b 0 9 0 9 2 4\n",
        "active",
        "hi s1 16 fall 0",
        "hi s1 15 fall 0",
    ),
    (
        "node a 5 9 0 0\nnode b 5 5 0 0\n",
        "station p a b 0 9 0 9 1 1 9\n",
        "active",
        "hi s0 25 order 0",
        "hi s0 24 order 0",
    ),
    (
        "node a 5 5 0 0\nnode b 3 9 0 0\n",
        "station p a b 0 9 0 9 9 1 9\n",
        "active",
        "lo s1 25 order 0",
        "lo s1 26 order 0",
    ),
    (
        "node a 0 9 0 0\nnode b 6 9 0 0\n",
        "station p a b 0 9 0 9 9 1 2\n",
        "active",
        "lo s0 16 rise 0",
        "lo s0 17 rise 0",
    ),
    (
        "node a 5 5 0 0\nnode b 5 9 0 0\n",
        "station p a b 0 9 0 9 9 1 2\n",
        "active",
        "hi s1 49 rise 0",
        "hi s1 48 rise 0",
    ),
    (
        "node a 0 9 0 0\nnode b 6 9 0 0\n",
        "station p a b 0 9 0 9 3 2 9\n",
        "active",
        "lo s0 16 ratio 0",
        "lo s0 17 ratio 0",
    ),
    (
        "node a 4 4 0 0\nnode b 4 9 0 0\n",
        "station p a b 0 9 0 9 3 2 9\n",
        "active",
        "hi s1 36 ratio 0",
        "hi s1 35 ratio 0",
    ),
    (
        "node a 0 9 0 0\nnode b 6 9 0 0\n",
        "loss p a b -9 9 1 2\n",
        "",
        "lo s0 16 reach 0",
        "lo s0 17 reach 0",
    ),
    (
        "node a 4 9 0 0\nnode b 6 6 0 0\n",
        "loss p a b -9 9 1 2\n",
        "",
        "hi s0 64 reach 0",
        "hi s0 63 reach 0",
    ),
    (
        "node a 6 6 0 0\nnode b 0 9 0 0\n",
        "loss p a b -9 9 1 2\n",
        "",
        "lo s1 16 reach 0",
        "lo s1 17 reach 0",
    ),
    (
        "node a 6 6 0 0\nnode b 4 9 0 0\n",
        "loss p a b -9 9 1 2\n",
        "",
        "hi s1 64 reach 0",
        "hi s1 63 reach 0",
    ),
    (
        "node a 0 9 0 0\nnode b 6 9 0 0\n",
        "loss p a b 0 9 1 9\n",
        "",
        "lo s0 36 along 0",
        "lo s0 37 along 0",
    ),
    (
        "node a 4 9 0 0\nnode b 6 6 0 0\n",
        "loss p a b -9 0 1 9\n",
        "",
        "hi s0 36 along 0",
        "hi s0 35 along 0",
    ),
    (
        "node a 6 6 0 0\nnode b 0 9 0 0\n",
        "loss p a b -9 0 1 9\n",
        "",
        "lo s1 36 along 0",
        "lo s1 37 along 0",
    ),
    (
        "node a 6 6 0 0\nnode b 4 9 0 0\n",
        "loss p a b 0 9 1 9\n",
        "",
        "hi s1 36 along 0",
        "hi s1 35 along 0",
    ),
    (
        "node a 6 9 0 0\nnode b 6 9 0 0\n",
        "loss p a b 1 9 2 9\n",
        "",
        "lo s0 64 drop 0",
        "lo s0 65 drop 0",
    ),
    (
        "node a 4 8 0 0\nnode b 8 8 0 0\n",
        "loss p a b -9 -1 2 9\n",
        "",
        "hi s0 36 drop 0",
        "hi s0 35 drop 0",
    ),
    (
        "node a 6 6 0 0\nnode b 6 9 0 0\n",
        "loss p a b -9 -1 2 9\n",
        "",
        "lo s1 64 drop 0",
        "lo s1 65 drop 0",
    ),
    (
        "node a 6 6 0 0\nnode b 1 6 0 0\n",
        "loss p a b 1 9 2 9\n",
        "",
        "hi s1 16 drop 0",
        "hi s1 15 drop 0",
    ),
    (
        "node a 0 9 0 0\nnode b 3 9 0 0\n",
        "pipe p a b -10 10 1 1 1\n",
        "",
        "hi q0 9 pipe 0",
        "hi q0 8 pipe 0",
    ),
    (
        "node a 3 9 0 0\nnode b 0 9 0 0\n",
        "pipe p a b -10 10 1 1 1\n",
        "",
        "lo q0 -9 pipe 0",
        "lo q0 -8 pipe 0",
    ),
    (
        "node a 0 9 0 0\nnode b 0 9 0 0\n",
        "valve p a b -10 10\n",
        "closed",
        "lo q0 0 zero 0",
        "lo q0 1 zero 0",
    ),
    (
        "node a 0 9 0 0\nnode b 0 9 0 0\n",
        "valve p a b -10 10\n",
        "closed",
        "hi q0 0 zero 0",
        "hi q0 -1 zero 0",
    ),
    (
        "node a 0 9 0 0\nnode b 0 9 0 0\n",
        "control p a b -10 10 0 9 0 9\n",
        "active",
        "lo q0 0 way 0",
        "lo q0 1 way 0",
    ),
    (
        "node a 5 9 0 0\nnode b 0 5 0 0\n",
        "loss p a b -10 10 2 9\n",
        "",
        "lo q0 0 sign 0",
        "lo q0 1 sign 0",
    ),
    (
        "node a 0 5 0 0\nnode b 5 9 0 0\n",
        "loss p a b -10 10 2 9\n",
        "",
        "hi q0 0 sign 0",
        "hi q0 -1 sign 0",
    ),
    (
        "node a 0 9 4 5\nnode b 0 9 -5 -4\n",
        "pipe p a b -10 10 1 1 1\n",
        "",
        "lo q0 4 balance 0",
        "lo q0 5 balance 0",
    ),
    (
        "node a 0 9 4 5\nnode b 0 9 -5 -4\n",
        "pipe p a b -10 10 1 1 1\n",
        "",
        "hi q0 5 balance 0",
        "hi q0 4 balance 0",
    ),
    (
        "node a 0 9 4 5\nnode b 0 9 -5 -4\n",
        "pipe p a b -10 10 1 1 1\n",
        "",
        "lo q0 4 balance 1",
        "lo q0 5 balance 1",
    ),
    (
        "node a 0 9 4 5\nnode b 0 9 -5 -4\n",
        "pipe p a b -10 10 1 1 1\n",
        "",
        "hi q0 5 balance 1",
        "hi q0 4 balance 1",
    ),
];

// What stands before the step and after it.
fn around(state: &str) -> (&'static str, &'static str) {
    match state {
        "active" => (
            "arc 0\nstate 0 active\n",
            "state 0 bypass\nopen\nstate 0 closed\nopen\n",
        ),
        "closed" => ("arc 0\nstate 0 open\nopen\nstate 0 closed\n", ""),
        _ => ("", ""),
    }
}

// What is said of a tree whose step holds, and of one whose step doesn't.
fn answers(state: &str) -> (&'static str, &'static str) {
    match state {
        "active" => (
            "not refutation open line 5\n",
            "not refutation bad step line 4\n",
        ),
        "closed" => (
            "not refutation open line 4\n",
            "not refutation bad step line 6\n",
        ),
        _ => (
            "not refutation open line 3\n",
            "not refutation bad step line 2\n",
        ),
    }
}

fn tree_of(alloc: Global, state: &str, step: &str) -> Result<Bytes, NoMemory> {
    let (before, after) = around(state);
    let mut tree = Bytes::new(alloc);
    tree.append(b"gastree 1\n")?;
    tree.append(before.as_bytes())?;
    tree.append(step.as_bytes())?;
    tree.append(b"\nopen\n")?;
    tree.append(after.as_bytes())?;
    tree.append(b"end\n")?;
    Ok(tree)
}

// Whether this is said of the tree with this one step.
fn says(
    alloc: Global,
    nodes: &str,
    arc: &str,
    state: &str,
    step: &str,
    said: &str,
) -> Result<bool, NoMemory> {
    let tree = tree_of(alloc, state, step)?;
    let mut lines = Bytes::new(alloc);
    lines.append(nodes.as_bytes())?;
    lines.append(arc.as_bytes())?;
    let Ok(lines) = str::from_utf8(lines.as_slice()) else {
        return Ok(false);
    };
    let mut desk = desk_of_two(alloc, lines, tree.as_slice())?;
    Ok(ends(alloc, &mut desk, &WORDS, 3, said))
}

#[test]
fn tightest_step_holds_and_a_tighter_one_does_not(rt: HostRuntime) -> Result<(), Fail> {
    let alloc = rt.alloc();
    for (nodes, arc, state, step, tighter) in STEPS {
        let (holds, refused) = answers(state);
        assert!(rt; says(alloc, nodes, arc, state, step, holds)?);
        assert!(rt; says(alloc, nodes, arc, state, tighter, refused)?);
    }
    Ok(())
}
