// What `check-flat` says of trees.
use crate::desks::{desk_of_two, ends};
use gas_model::NoMemory;
use std::alloc::Global;
use std::test::Fail;

// Whether the tree ends so on the problem of these lines.
fn checks(alloc: Global, lines: &str, tree: &[u8], said: &str) -> Result<bool, NoMemory> {
    let mut desk = desk_of_two(alloc, lines, tree)?;
    let exit = if said == "passes\n" { 0 } else { 3 };
    Ok(ends(alloc, &mut desk, &["check-flat", "p", "s"], exit, said))
}

// A supply of 4 through a pipe of resistance 1 drops the square by 16, from 25 to 9, which is less than 4^2.
const FOUR: &str = "node a 5 5 4 4\nnode b 4 9 -4 -4\npipe p a b -10 10 1 1 1\n";

// Two pipes beside each other, with flows of 0 to 1.
const TWO_SHORT: &str =
    "node a 4 5 1 1\nnode b 4 5 -1 -1\npipe p a b 0 1 1 1 1\npipe r a b 0 1 1 1 1\n";

const TWO_LONG: &str =
    "node a 5 5 1 1\nnode b 4 5 -1 -1\npipe p a b -10 10 1 1 1\npipe r a b -10 10 1 1 1\n";

#[test]
fn trees_over_pipes_are_checked(rt: HostRuntime) -> Result<(), Fail> {
    let alloc = rt.alloc();
    for (lines, tree, said) in [
        (
            FOUR,
            "gastree 1\nlo q0 4 balance 0\nhi q0 4 balance 0\nclose pipe 0\nend\n",
            "passes\n",
        ),
        (
            FOUR,
            "gastree 2\nlo q0 64 balance 0\nhi q0 64 balance 0\nclose pipe 0\nend\n",
            "passes\n",
        ),
        (
            FOUR,
            "gastree 1\nlo q0 5 balance 0\nhi q0 4 balance 0\nclose pipe 0\nend\n",
            "not refutation bad step line 2\n",
        ),
        (
            FOUR,
            "gastree 1\nlo q0 4 balance 0\nhi q0 4 balance 0\n",
            "not refutation wrong end line 4\n",
        ),
        (
            FOUR,
            "gastree 1\nlo q0 170141183460469231731687303715884105728 balance 0\n",
            "not refutation wide number line 2\n",
        ),
        (FOUR, "", "not refutation wrong end line 1\n"),
        (
            FOUR,
            "gastree 1\nhalve q0\nhalf q0 hi 0\nclose balance 0\nhalf q0 lo 0\nlo q0 4 balance 0\nhi q0 4 balance 0\nclose pipe 0\nend\n",
            "passes\n",
        ),
        (
            TWO_SHORT,
            "gastree 1\nhalve s0\nhalf s0 hi 20\nhi s1 20 pipe 0\nopen\nhalf s0 lo 20\nopen\nend\n",
            "not refutation open line 5\n",
        ),
        (
            TWO_SHORT,
            "gastree 1\nhalve s0\nhalf s0 hi 20\nhi s1 20 pipe 0\nopen\nhalf s0 lo 21\nopen\nend\n",
            "not refutation wrong branch line 6\n",
        ),
        (
            TWO_LONG,
            "gastree 1\nlo q0 0 pipe 0\nhi q0 3 pipe 0\nlo q1 0 pipe 1\nhi q1 3 pipe 1\nhi q0 1 balance 0\nhi q1 1 balance 0\nlo s1 24 pipe 0\nopen\nend\n",
            "not refutation open line 9\n",
        ),
    ] {
        assert!(rt; checks(alloc, lines, tree.as_bytes(), said)?);
    }
    Ok(())
}

// A station that raises 4 Pa to at most 6 Pa can't reach 7 Pa, nor can it in bypass or closed.
const STATION: &str =
    "node a 4 4 1 1\nnode b 7 7 -1 -1\nstation c a b 0 10 0 100000000 3 2 100000000\n";

const STATION_TREE: &str =
    "gastree 1\nhi q0 1 balance 0\nlo q0 1 balance 0\narc 0\nstate 0 active\nclose ratio 0\nstate 0 bypass\nlo s0 17 equal 0\nclose empty s0\nstate 0 closed\nclose cut 0\nend\n";

// From 5 Pa a loss of 2 Pa leaves 3 Pa, which is less than 4 Pa.
const LOSS: &str = "node a 5 5 1 1\nnode b 4 9 -1 -1\nloss r a b -10 10 2 2\n";

#[test]
fn trees_over_each_kind_of_arc_are_checked(rt: HostRuntime) -> Result<(), Fail> {
    let alloc = rt.alloc();
    for (lines, tree, said) in [
        (STATION, STATION_TREE, "passes\n"),
        (
            STATION,
            "gastree 2\nhi q0 16 balance 0\nlo q0 16 balance 0\narc 0\nstate 0 active\nclose ratio 0\nstate 0 bypass\nlo s0 257 equal 0\nclose empty s0\nstate 0 closed\nclose cut 0\nend\n",
            "passes\n",
        ),
        // The state bypass is left out.
        (
            STATION,
            "gastree 1\nhi q0 1 balance 0\nlo q0 1 balance 0\narc 0\nstate 0 active\nclose ratio 0\nstate 0 closed\nclose cut 0\nend\n",
            "not refutation wrong branch line 7\n",
        ),
        // The only decision shuts the valve.
        (
            "node a 0 9 3 3\nnode b 0 9 -3 -3\nvalve v a b -10 10\ngroup g\ndecision d\nset v closed\n",
            "gastree 1\nlo q0 3 balance 0\nhi q0 3 balance 0\ngroup 0\ntake 0 0\nclose cut 0\nend\n",
            "passes\n",
        ),
        // 81 - 64 - 4 is 13, and 169 is less than 4 * 4 * 64.
        (
            "node a 9 9 1 1\nnode b 8 8 -1 -1\ncontrol c a b 0 10 0 100000000 2 3\n",
            "gastree 1\nhi q0 1 balance 0\nlo q0 1 balance 0\narc 0\nstate 0 active\nclose fall 0\nstate 0 bypass\nhi s0 80 equal 0\nclose empty s0\nstate 0 closed\nclose cut 0\nend\n",
            "passes\n",
        ),
        (
            LOSS,
            "gastree 1\nlo q0 1 balance 0\nhi q0 1 balance 0\nclose drop 0\nend\n",
            "passes\n",
        ),
        // 4 Pa lies within 2 Pa of 5 Pa.
        (
            LOSS,
            "gastree 1\nlo q0 1 balance 0\nhi q0 1 balance 0\nclose reach 0\nend\n",
            "not refutation bad step line 4\n",
        ),
        // Without its second line the flow may still be backwards.
        (
            LOSS,
            "gastree 1\nhi q0 1 balance 0\nclose drop 0\nend\n",
            "not refutation bad step line 3\n",
        ),
        // 64 - 25 - 4 is 35, and 1225 is more than 4 * 4 * 25.
        (
            "node a 5 5 1 1\nnode b 8 9 -1 -1\nloss r a b -10 10 2 2\n",
            "gastree 1\nlo q0 1 balance 0\nhi q0 1 balance 0\nclose reach 0\nend\n",
            "passes\n",
        ),
        // A rise of at most 2 Pa: 49 - 16 - 4 is 29, and 29^2 = 841 is more than 4 * 4 * 16.
        (
            "node a 4 4 1 1\nnode b 7 7 -1 -1\nstation c a b 0 10 0 100000000 1048576 1 2\n",
            "gastree 1\nhi q0 1 balance 0\nlo q0 1 balance 0\narc 0\nstate 0 active\nclose rise 0\nstate 0 bypass\nlo s0 17 equal 0\nclose empty s0\nstate 0 closed\nclose cut 0\nend\n",
            "passes\n",
        ),
    ] {
        assert!(rt; checks(alloc, lines, tree.as_bytes(), said)?);
    }
    Ok(())
}

// Each front of a tree: one that is cut inside a line, and one that is cut after it.
#[test]
fn cut_trees_are_no_refutations(rt: HostRuntime) -> Result<(), Fail> {
    let alloc = rt.alloc();
    let tree = STATION_TREE.as_bytes();
    for len in 0..tree.len() {
        let front = tree.split_at(len).0;
        let fault = match front.last() {
            None | Some(b'\n') => "wrong end",
            Some(_) => "not tree",
        };
        let line = front.split(|byte| *byte == b'\n').count();
        let said = format!(in alloc; "not refutation {fault} line {line}\n")?;
        assert!(rt; checks(alloc, STATION, front, said.as_str())?, "{len}");
    }
    Ok(())
}
