// Lines of trees, read and written.
use gas_model::{ArcState, Bytes, Var};
use std::test::Fail;
use tree_cert::{
    Closing, Head, Line, LineFault, Rule, Step, cut_piece, read_line, write_line, write_tree,
};

#[test]
fn each_line_is_written_as_it_was_read(rt: HostRuntime) -> Result<(), Fail> {
    for text in [
        "gastree 1\n",
        "gastree 2\n",
        "lo q0 170141183460469231731687303715884105727 balance 4294967295\n",
        "hi s4294967295 -170141183460469231731687303715884105728 pipe 0\n",
        "close empty q7\n",
        "close cut 0 9 10 4294967295\n",
        "close zero 3\n",
        "open\n",
        "group 0\n",
        "arc 12\n",
        "halve s1\n",
        "take 1 1023\n",
        "state 2 open\n",
        "state 2 closed\n",
        "state 2 active\n",
        "state 2 bypass\n",
        "half q5 hi -1\n",
        "half q5 lo -1\n",
        "end\n",
        "lo s1 0 equal 1\n",
        "hi q1 0 way 1\n",
        "lo s1 9 inner 1\n",
        "lo s1 9 fall 1\n",
        "lo s1 9 order 1\n",
        "lo s1 9 rise 1\n",
        "lo s1 9 ratio 1\n",
        "lo q1 9 sign 1\n",
        "lo s1 9 reach 1\n",
        "lo s1 9 along 1\n",
        "lo s1 9 drop 1\n",
    ] {
        let line = read_line(rt.alloc(), text.as_bytes()).map_err(|_| "no line")?;
        let mut out = Bytes::new(rt.alloc());
        write_line(&line, &mut out).map_err(|_| "memory")?;
        assert_eq!(rt; out.as_slice(), text.as_bytes(), "{text}");
    }
    Ok(())
}

#[test]
fn lines_say_what_they_spell(rt: HostRuntime) -> Result<(), Fail> {
    let Ok(Line::Step(step)) = read_line(rt.alloc(), b"lo q3 -7 balance 2\n") else {
        return Err("a step".into());
    };
    let low = Step {
        var: Var::Flow(3),
        low: true,
        value: -7,
        rule: Rule::Balance,
        place: 2,
    };
    assert_eq!(rt; step, low);
    let Ok(Line::Head(half)) = read_line(rt.alloc(), b"half s1 hi 16\n") else {
        return Err("a head".into());
    };
    let upper = Head::Half {
        var: Var::Square(1),
        low: false,
        value: 16,
    };
    assert_eq!(rt; half, upper);
    let Ok(Line::Head(state)) = read_line(rt.alloc(), b"state 4 closed\n") else {
        return Err("a head".into());
    };
    let shut = Head::State {
        arc: 4,
        state: ArcState::Shut,
    };
    assert_eq!(rt; state, shut);
    let Ok(Line::Close(Closing::Cut(nodes))) = read_line(rt.alloc(), b"close cut 1 4\n") else {
        return Err("a cut".into());
    };
    assert_eq!(rt; nodes.as_slice(), [1, 4].as_slice());
    Ok(())
}

fn fault_of(rt: &HostRuntime, text: &str) -> Option<LineFault> {
    read_line(rt.alloc(), text.as_bytes()).err()
}

#[test]
fn other_bytes_are_no_lines(rt: HostRuntime) {
    for text in [
        "",
        "\n",
        "end",
        "end\n\n",
        "end \n",
        " end\n",
        "gastree 3\n",
        "gastree\n",
        "lo q0 1 balance\n",
        "lo x0 1 balance 0\n",
        "lo q-1 1 balance 0\n",
        "lo q0 01 balance 0\n",
        "lo q0 -0 balance 0\n",
        "lo q0 +1 balance 0\n",
        "lo q0 1 bogus 0\n",
        "lo  q0 1 balance 0\n",
        "group 01\n",
        "group -1\n",
        "state 0 on\n",
        "half q0 up 1\n",
        "close cut\n",
        "close cut 2 1\n",
        "close cut 1 1\n",
        "close cut 4294967296 1\n",
        "close cut 100000000000000000000 99999999999999999999\n",
        "lo q4294967296 1 balance x\n",
    ] {
        assert_eq!(rt; fault_of(&rt, text), Some(LineFault::NotLine), "{text}");
    }
    for text in [
        "lo q0 170141183460469231731687303715884105728 balance 0\n",
        "hi q0 -170141183460469231731687303715884105729 balance 0\n",
        "group 4294967296\n",
        "half s4294967296 lo 1\n",
        "close cut 1 4294967296\n",
        "close cut 99999999999999999999 100000000000000000000\n",
    ] {
        assert_eq!(rt; fault_of(&rt, text), Some(LineFault::Wide), "{text}");
    }
}

#[test]
fn a_tree_is_written_line_by_line(rt: HostRuntime) -> Result<(), Fail> {
    let lines = [
        Line::First,
        Line::Close(Closing::Empty(Var::Square(0))),
        Line::End,
    ];
    let text = write_tree(rt.alloc(), &lines).map_err(|_| "memory")?;
    assert_eq!(rt;
        text.as_slice(),
        b"gastree 1\nclose empty s0\nend\n".as_slice()
    );
    let (piece, rest) = cut_piece(text.as_slice()).ok_or("a line")?;
    assert_eq!(rt; piece, b"gastree 1\n".as_slice());
    assert_eq!(rt; rest, b"close empty s0\nend\n".as_slice());
    assert!(rt; cut_piece(b"".as_slice()).is_none(), "no bytes");
    Ok(())
}
