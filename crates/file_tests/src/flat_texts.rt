use flat_text::{FlatFault, read_flat, write_flat};
use gas_model::{ArcKind, Bytes, Drag, ModelFault, Problem};
use std::alloc::Global;
use std::test::Fail;

// A source, a pipe, a compressor station that may be on or off, a pipe and a sink.
const WITH_A_STATION: &str = "gasflat 1\n\
    node source_1 4000000 6000000 100000000 100000000\n\
    node innode_1 3000000 6000000 0 0\n\
    node innode_2 3000000 8000000 0 0\n\
    node sink_1 4500000 8000000 -100000000 -100000000\n\
    pipe pipe_1 source_1 innode_1 -1000000000 1000000000 390 410 1000000\n\
    station compressorStation_1 innode_1 innode_2 0 1000000000 3000000 8000000 3 2 3000000\n\
    pipe pipe_2 innode_2 sink_1 -1000000000 1000000000 390 410 1000000\n\
    group group_1\n\
    decision on\n\
    set compressorStation_1 active\n\
    decision off\n\
    set compressorStation_1 closed\n\
    end\n";

// Three nodes behind a valve that may be closed or open.
const WITH_A_VALVE: &str = "gasflat 1\n\
    node n0 0 10000000 2 2\n\
    node n1 0 10000000 -1 -1\n\
    node n2 0 10000000 -1 -1\n\
    valve v0 n0 n1 0 3\n\
    pipe p1 n1 n2 0 3 1 2 1\n\
    group g\n\
    decision shut\n\
    set v0 closed\n\
    decision pass\n\
    set v0 open\n\
    end\n";

// An arc of each kind, with numbers that are all different, and each word.
const WITH_EACH_KIND: &str = "gasflat 1\n\
    node a 0 9 -5 5\n\
    node \u{e9} 1 100000000 0 0\n\
    pipe p a \u{e9} -10 12 1 2 3\n\
    short s a \u{e9} 0 0\n\
    drag d \u{e9} a 0 0 4 5 6\n\
    loss l a \u{e9} 0 0 7 8\n\
    valve v a \u{e9} 0 0\n\
    control c a \u{e9} 0 0 11 12 13 14\n\
    station t a \u{e9} 0 0 15 16 17 18 19\n\
    group g\n\
    decision first\n\
    set v closed\n\
    set c on\n\
    set t bypass\n\
    decision second\n\
    set v open\n\
    set c active\n\
    end\n";

// Ids with a quote, a backslash and letters past ASCII.
const WITH_ODD_IDS: &str = "gasflat 1\n\
    node a\"b 0 9 0 0\n\
    node c\\d 0 9 0 0\n\
    short \u{e9}\u{4e2d} a\"b c\\d 0 0\n\
    valve \u{1f525} c\\d a\"b 0 0\n\
    group \"\n\
    decision \\\n\
    set \u{1f525} open\n\
    end\n";

fn written_again(alloc: Global, text: &str) -> Result<Bytes, FlatFault> {
    let problem = read_flat(alloc, text.as_bytes())?;
    let bytes = write_flat(alloc, &problem)?;
    Ok(bytes)
}

#[test]
fn what_is_read_is_written_again(rt: HostRuntime) -> Result<(), Fail> {
    for text in [WITH_A_STATION, WITH_A_VALVE, WITH_EACH_KIND, WITH_ODD_IDS] {
        let bytes = written_again(rt.alloc(), text).map_err(|_| "not read")?;
        assert_eq!(rt; bytes.as_slice(), text.as_bytes());
    }
    Ok(())
}

fn has_kinds(problem: &Problem, kinds: &[ArcKind]) -> bool {
    let arcs = problem.arcs();
    arcs.len() == kinds.len() && arcs.iter().zip(kinds).all(|(row, kind)| row.kind == *kind)
}

#[test]
fn kinds_are_read_with_their_numbers(rt: HostRuntime) -> Result<(), Fail> {
    let law = Drag {
        lo: 1,
        hi: 2,
        den: 3,
    };
    let drag = Drag {
        lo: 4,
        hi: 5,
        den: 6,
    };
    let kinds = [
        ArcKind::Pipe { law },
        ArcKind::Short,
        ArcKind::Resist { law: drag },
        ArcKind::Loss { low: 7, high: 8 },
        ArcKind::Valve,
        ArcKind::Control {
            in_min: 11,
            out_max: 12,
            red_min: 13,
            red_max: 14,
        },
        ArcKind::Station {
            in_min: 15,
            out_max: 16,
            ratio_num: 17,
            ratio_den: 18,
            rise_max: 19,
        },
    ];
    let problem = read_flat(rt.alloc(), WITH_EACH_KIND.as_bytes()).map_err(|_| "not read")?;
    assert!(rt; has_kinds(&problem, &kinds));
    Ok(())
}

fn faulty_line(alloc: Global, text: &str) -> Option<(bool, u64)> {
    match read_flat(alloc, text.as_bytes()) {
        Err(FlatFault::NotFlat { line }) => Some((true, line)),
        Err(FlatFault::OverLimit { line }) => Some((false, line)),
        _ => None,
    }
}

#[test]
fn the_first_faulty_line_is_named(rt: HostRuntime) {
    for (text, of_no_form, line) in [
        ("", true, 1),
        ("gasflat 2\nend\n", true, 1),
        ("gasflat 1\nnode a 0 9 0\nend\n", true, 2),
        ("gasflat 1\nnode  0 9 0 0\nend\n", true, 2),
        ("gasflat 1\nnode a 0 09 0 0\nend\n", true, 2),
        ("gasflat 1\nnode a 0 100000001 0 0\nend\n", false, 2),
        // Numbers past 64 bits are of the form, as is a number below 0 where none may stand.
        (
            "gasflat 1\nnode a 0 9 0 99999999999999999999999999\nend\n",
            false,
            2,
        ),
        (
            "gasflat 1\nnode a -99999999999999999999999999 9 0 0\nend\n",
            false,
            2,
        ),
        (
            "gasflat 1\nnode a 0 9 0 0 99999999999999999999999999\nend\n",
            true,
            2,
        ),
        ("gasflat 1\nnode a 0 9 0 0\nnode a 0 9 0 0 \n", true, 3),
        ("gasflat 1\nnode a 0 9 0 0\n", true, 3),
        ("gasflat 1\nnode a 0 9 0 0\nend", true, 3),
        ("gasflat 1\npipe p a \t 0 0 1 1 1\nend\n", false, 2),
        ("gasflat 1\nshort p a b 0 0\nnode a 0 9 0 0\nend\n", true, 3),
        ("gasflat 1\nend\n\n", true, 3),
    ] {
        assert_eq!(rt;
            faulty_line(rt.alloc(), text),
            Some((of_no_form, line)),
            "{text}"
        );
    }
}

// The faulty line of a text of these lines between the first line and the last.
fn faulty_line_among(alloc: Global, lines: &str) -> Option<(bool, u64)> {
    let text = format!(in alloc; "gasflat 1\n{lines}\nend\n").ok()?;
    faulty_line(alloc, text.as_str())
}

#[test]
fn arcs_and_groups_have_their_forms_limits_and_places(rt: HostRuntime) {
    for (lines, of_no_form, line) in [
        ("short p a b 0 0 1", true, 2),
        ("control p a b 0 0 1 2 3", true, 2),
        ("resistor p a b 0 0 1 2 3", true, 2),
        ("drag p a b 0 0 2 1 1", false, 2),
        ("loss p a b 0 0 5 4", false, 2),
        ("loss p a b 0 0 4 400000001", false, 2),
        ("station p a b 0 0 1 1 0 1 1", false, 2),
        ("group \t", false, 2),
        ("set p open", true, 2),
        ("decision d", true, 2),
        ("decision \t", true, 2),
        ("group g\nset p open", true, 3),
        ("group g\nshort p a b 0 0", true, 3),
        ("group g\ndecision d\nnode a 0 9 0 0", true, 4),
        ("group g\ndecision d\nset p shut", true, 4),
        ("group g\ndecision d\nset p open x", true, 4),
        ("group g\ndecision d\nset \t open", false, 4),
        (
            "group g\ndecision d\nset p open\ngroup h\nset p on",
            true,
            6,
        ),
    ] {
        assert_eq!(rt;
            faulty_line_among(rt.alloc(), lines),
            Some((of_no_form, line)),
            "{lines}"
        );
    }
}

#[test]
fn rows_are_judged_after_the_lines(rt: HostRuntime) {
    let text = "gasflat 1\nnode a 0 9 0 0\npipe p a b 0 0 1 1 1\nend\n";
    match read_flat(rt.alloc(), text.as_bytes()) {
        Err(FlatFault::Model(ModelFault::NoSuchNode { arc, id })) => {
            assert_eq!(rt; (arc.as_str(), id.as_str()), ("p", "b"));
        }
        _ => panic!(rt; "no such node"),
    }
}
