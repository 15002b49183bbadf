// The lines of a tree, one after the other.
use gas_model::{Bytes, Var};
use std::alloc::Global;
use std::test::Fail;
use step_lines::next_line;
use tree_cert::{Line, LineFault, Rule, Step, write_line};

#[test]
fn steps_say_what_they_spell(rt: HostRuntime) -> Result<(), Fail> {
    for (text, var, low, value, rule, place) in [
        (
            "lo q3 -7 balance 2\nend\n",
            Var::Flow(3),
            true,
            -7,
            Rule::Balance,
            2,
        ),
        (
            "hi s0 0 drop 0\nend\n",
            Var::Square(0),
            false,
            0,
            Rule::Drop,
            0,
        ),
        (
            "lo s10 120 equal 4294967295\nend\n",
            Var::Square(10),
            true,
            120,
            Rule::Equal,
            u32::MAX,
        ),
        (
            "hi q1 999999999999999999 way 9\nend\n",
            Var::Flow(1),
            false,
            999_999_999_999_999_999,
            Rule::Way,
            9,
        ),
        (
            "lo q1 1000000000000000000 sign 9\nend\n",
            Var::Flow(1),
            true,
            1_000_000_000_000_000_000,
            Rule::Sign,
            9,
        ),
    ] {
        let Some((Ok(Line::Step(step)), rest)) = next_line(rt.alloc(), text.as_bytes()) else {
            return Err("a step".into());
        };
        let said = Step {
            var,
            low,
            value,
            rule,
            place,
        };
        assert_eq!(rt; step, said, "{text}");
        assert_eq!(rt; rest, b"end\n".as_slice(), "{text}");
    }
    Ok(())
}

// What the first line is read as, written again.
fn again(alloc: Global, text: &str) -> Result<Bytes, Fail> {
    let (read, _) = next_line(alloc, text.as_bytes()).ok_or("no bytes")?;
    let line = read.map_err(|_| "no line")?;
    let mut out = Bytes::new(alloc);
    write_line(&line, &mut out).map_err(|_| "memory")?;
    Ok(out)
}

#[test]
fn lines_are_written_as_they_were_read(rt: HostRuntime) -> Result<(), Fail> {
    for text in [
        "gastree 2\n",
        "lo q0 170141183460469231731687303715884105727 balance 4294967295\n",
        "hi s4294967295 -170141183460469231731687303715884105728 pipe 0\n",
        "lo s1 9 zero 1\n",
        "lo s1 9 inner 1\n",
        "lo s1 9 fall 1\n",
        "lo s1 9 order 1\n",
        "lo s1 9 rise 1\n",
        "lo s1 9 ratio 1\n",
        "lo s1 9 reach 1\n",
        "lo s1 9 along 1\n",
        "close cut 0\n",
        "close cut 0 9 10 4294967295\n",
        "close pipe 3\n",
        "half q5 hi -1\n",
        "end\n",
    ] {
        assert_eq!(rt;
            again(rt.alloc(), text)?.as_slice(),
            text.as_bytes(),
            "{text}"
        );
    }
    assert!(rt; next_line(rt.alloc(), b"".as_slice()).is_none(), "no bytes");
    Ok(())
}

#[test]
fn other_bytes_are_no_lines(rt: HostRuntime) -> Result<(), Fail> {
    for (text, fault) in [
        ("lo q0 1 balance 0", LineFault::NotLine),
        ("lo q0 1 balance 0 \nend\n", LineFault::NotLine),
        ("lo q0 01 balance 0\n", LineFault::NotLine),
        ("lo q0 -0 balance 0\n", LineFault::NotLine),
        ("lo q00 1 balance 0\n", LineFault::NotLine),
        ("lo x0 1 balance 0\n", LineFault::NotLine),
        ("lo q0  balance 0\n", LineFault::NotLine),
        ("lo q0 1 balances 0\n", LineFault::NotLine),
        ("hi q0 1 sign \n", LineFault::NotLine),
        ("close cut\n", LineFault::NotLine),
        ("close cut 2 2\n", LineFault::NotLine),
        ("close cut 1 2", LineFault::NotLine),
        ("lo q4294967296 1 balance 0\n", LineFault::Wide),
        ("lo q0 1 balance 18446744073709551616\n", LineFault::Wide),
        ("close cut 1 4294967296\n", LineFault::Wide),
    ] {
        let (read, _) = next_line(rt.alloc(), text.as_bytes()).ok_or("no bytes")?;
        assert_eq!(rt; read.err(), Some(fault), "{text}");
    }
    Ok(())
}
