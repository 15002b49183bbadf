use gas_model::{
    Allow, ArcKind, ArcState, ArcText, Bytes, DecisionText, Drag, GroupText, List, ModelFault,
    Name, NoMemory, NodeRow, Problem, Rows, SetText,
};
use setting_text::{Key, SettingFault, read_setting, write_setting};
use std::alloc::Global;
use std::process::Abort;
use std::test::Fail;

fn node(alloc: Global, id: &str) -> Result<NodeRow, NoMemory> {
    Ok(NodeRow {
        id: Name::of(alloc, id)?,
        p_min: 0,
        p_max: 9,
        b_min: 0,
        b_max: 0,
    })
}

// An arc from a to b.
fn arc(alloc: Global, id: &str, kind: ArcKind) -> Result<ArcText, NoMemory> {
    Ok(ArcText {
        id: Name::of(alloc, id)?,
        from: Name::of(alloc, "a")?,
        to: Name::of(alloc, "b")?,
        q_min: -9,
        q_max: 9,
        kind,
    })
}

// A decision that allows the valve v one state.
fn decision(alloc: Global, id: &str, allow: Allow) -> Result<DecisionText, NoMemory> {
    let mut sets = List::new(alloc);
    sets.push(SetText {
        arc: Name::of(alloc, "v")?,
        allow,
    })?;
    Ok(DecisionText {
        id: Name::of(alloc, id)?,
        sets,
    })
}

fn groups(alloc: Global) -> Result<List<GroupText>, NoMemory> {
    let mut decisions = List::new(alloc);
    decisions.push(decision(alloc, "pass", Allow::Opened)?)?;
    decisions.push(decision(alloc, "shut", Allow::Shut)?)?;
    let mut groups = List::new(alloc);
    groups.push(GroupText {
        id: Name::of(alloc, "g")?,
        decisions,
    })?;
    Ok(groups)
}

// A pipe p and a valve v from a to b, and a group g that opens or shuts the valve.
fn rows(alloc: Global) -> Result<Rows, NoMemory> {
    let mut nodes = List::new(alloc);
    nodes.push(node(alloc, "a")?)?;
    nodes.push(node(alloc, "b")?)?;
    let law = Drag {
        lo: 1,
        hi: 1,
        den: 1,
    };
    let mut arcs = List::new(alloc);
    arcs.push(arc(alloc, "p", ArcKind::Pipe { law })?)?;
    arcs.push(arc(alloc, "v", ArcKind::Valve)?)?;
    Ok(Rows {
        nodes,
        arcs,
        groups: groups(alloc)?,
    })
}

fn pipe_beside_valve(alloc: Global) -> Result<Problem, ModelFault> {
    Problem::make(alloc, rows(alloc)?)
}

fn fault_of(alloc: Global, p: &Problem, text: &[u8]) -> Option<SettingFault> {
    match read_setting(alloc, p, text) {
        Ok(_) => None,
        Err(fault) => Some(fault),
    }
}

// What is written of what was read.
fn again(alloc: Global, p: &Problem, text: &str) -> Result<Bytes, SettingFault> {
    let setting = read_setting(alloc, p, text.as_bytes())?;
    Ok(write_setting(alloc, p, &setting)?)
}

fn expect_again(rt: &impl Abort, alloc: Global, p: &Problem, text: &str, line: &str) {
    match again(alloc, p, text) {
        Ok(bytes) => assert_eq!(rt; bytes.as_slice(), line.as_bytes()),
        Err(fault) => panic!(rt; "{fault:?}"),
    }
}

#[test]
fn a_setting_in_any_layout_is_read_and_written_in_its_own(rt: HostRuntime) -> Result<(), Fail> {
    let alloc = rt.alloc();
    let problem = pipe_beside_valve(alloc)?;
    let text =
        " {\"nodes\": [[\"a\", 40], [\"\\u0062\", 49]],\n\"decisions\": [[\"g\", \"shut\"]], \"arcs\": [[\"p\", \"open\", -3], [\"v\", \"closed\", 0]]}";
    let line =
        "{\"arcs\":[[\"p\",\"open\",-3],[\"v\",\"closed\",0]],\"decisions\":[[\"g\",\"shut\"]],\"nodes\":[[\"a\",40],[\"b\",49]]}\n";
    expect_again(&rt, alloc, &problem, text, line);
    Ok(())
}

const ARCS: &str = "[[\"p\",\"open\",-3],[\"v\",\"closed\",0]]";

const DECISIONS: &str = "[[\"g\",\"shut\"]]";

const NODES: &str = "[[\"a\",40],[\"b\",49]]";

// An object with these lists.
fn whole(alloc: Global, arcs: &str, decisions: &str, nodes: &str) -> Result<Bytes, NoMemory> {
    let mut text = Bytes::new(alloc);
    text.append(b"{\"arcs\":")?;
    text.append(arcs.as_bytes())?;
    text.append(b",\"decisions\":")?;
    text.append(decisions.as_bytes())?;
    text.append(b",\"nodes\":")?;
    text.append(nodes.as_bytes())?;
    text.push(b'}')?;
    Ok(text)
}

// What is wrong with an object with these lists.
fn fault_in(
    alloc: Global,
    p: &Problem,
    arcs: &str,
    decisions: &str,
    nodes: &str,
) -> Option<SettingFault> {
    match whole(alloc, arcs, decisions, nodes) {
        Ok(text) => fault_of(alloc, p, text.as_slice()),
        Err(NoMemory) => Some(SettingFault::NoMemory),
    }
}

const OTHER: Option<SettingFault> = Some(SettingFault::NotSetting { key: Key::Arcs });

const WIDE: Option<SettingFault> = Some(SettingFault::WideNumber { key: Key::Arcs });

fn expect_arcs(rt: &impl Abort, alloc: Global, p: &Problem) {
    for (arcs, fault) in [
        (ARCS, None),
        ("7", OTHER),
        ("[[\"p\",\"open\",-3]]", OTHER),
        ("[[\"v\",\"closed\",0],[\"p\",\"open\",-3]]", OTHER),
        ("[[\"p\",\"open\",-3],[\"v\",\"closed\"]]", OTHER),
        // A pipe is always open, and a valve is never active.
        ("[[\"p\",\"closed\",0],[\"v\",\"closed\",0]]", OTHER),
        ("[[\"p\",\"open\",0],[\"v\",\"active\",0]]", OTHER),
        ("[[\"p\",\"open\",null],[\"v\",\"open\",0]]", OTHER),
        ("[[\"p\",\"open\",\"0\"],[\"v\",\"open\",0]]", OTHER),
        (
            "[[\"p\",\"open\",1000000000000],[\"v\",\"open\",-1000000000000]]",
            None,
        ),
        ("[[\"p\",\"open\",0],[\"v\",\"open\",-1000000000001]]", WIDE),
        ("[[\"p\",\"open\",10000000000000],[\"v\",\"open\",0]]", WIDE),
        ("[[\"p\",\"open\",1.0],[\"v\",\"open\",0]]", WIDE),
        ("[[\"p\",\"open\",1e3],[\"v\",\"open\",0]]", WIDE),
        ("[[\"p\",\"open\",-0],[\"v\",\"open\",0]]", WIDE),
        // No float is near it.
        (
            "[[\"p\",\"open\",1e400],[\"v\",\"open\",0]]",
            Some(SettingFault::NotJson),
        ),
        // Both in one entry, and the one before the other.
        ("[[\"p\",\"closed\",1.0],[\"v\",\"open\",0]]", OTHER),
        ("[[\"p\",\"open\",1.0],[\"v\",\"shut\",0]]", WIDE),
    ] {
        assert_eq!(rt; fault_in(alloc, p, arcs, DECISIONS, NODES), fault, "{arcs}");
    }
}

#[test]
fn the_first_entry_at_fault_is_named(rt: HostRuntime) -> Result<(), Fail> {
    let problem = pipe_beside_valve(rt.alloc())?;
    expect_arcs(&rt, rt.alloc(), &problem);
    Ok(())
}

fn expect_lists(rt: &impl Abort, alloc: Global, p: &Problem) {
    let decisions = Some(SettingFault::NotSetting {
        key: Key::Decisions,
    });
    let nodes = Some(SettingFault::NotSetting { key: Key::Nodes });
    let wide = Some(SettingFault::WideNumber { key: Key::Nodes });
    for (list, squares, fault) in [
        ("[[\"g\",\"pass\"]]", NODES, None),
        ("[[\"g\",\"off\"]]", NODES, decisions),
        ("[[\"h\",\"shut\"]]", NODES, decisions),
        ("[]", "7", decisions),
        (DECISIONS, "[[\"a\",0],[\"b\",10000000000000000]]", None),
        (DECISIONS, "[[\"a\",-1],[\"b\",49]]", wide),
        (DECISIONS, "[[\"a\",40],[\"b\",10000000000000001]]", wide),
        (DECISIONS, "[[\"a\",40],[\"b\",true]]", nodes),
        (DECISIONS, "[[\"b\",40],[\"a\",49]]", nodes),
    ] {
        assert_eq!(rt;
            fault_in(alloc, p, ARCS, list, squares),
            fault,
            "{list} {squares}"
        );
    }
}

#[test]
fn arcs_come_before_decisions_and_these_before_nodes(rt: HostRuntime) -> Result<(), Fail> {
    let problem = pipe_beside_valve(rt.alloc())?;
    expect_lists(&rt, rt.alloc(), &problem);
    Ok(())
}

fn expect_wholes(rt: &impl Abort, alloc: Global, p: &Problem) {
    let json = Some(SettingFault::NotJson);
    let other = Some(SettingFault::NotSetting { key: Key::Whole });
    for (text, fault) in [
        ("[", json),
        ("", json),
        ("[]", other),
        ("{\"arcs\":[],\"decisions\":[]}", other),
        ("{\"arcs\":[],\"decisions\":[],\"node\":[]}", other),
        (
            "{\"arcs\":[],\"decisions\":[],\"nodes\":[],\"flows\":[]}",
            other,
        ),
        // The last of two counts.
        (
            "{\"decisions\":[[\"g\",\"shut\"]],\"arcs\":7,\"arcs\":[[\"p\",\"open\",0],[\"v\",\"closed\",0]],\"nodes\":[[\"a\",40],[\"b\",49]]}",
            None,
        ),
        (
            "{\"decisions\":[[\"g\",\"shut\"]],\"arcs\":[[\"p\",\"open\",0],[\"v\",\"closed\",0]],\"arcs\":7,\"nodes\":[[\"a\",40],[\"b\",49]]}",
            OTHER,
        ),
    ] {
        assert_eq!(rt; fault_of(alloc, p, text.as_bytes()), fault, "{text}");
    }
    assert_eq!(rt; fault_of(alloc, p, b"\"\xFF\""), json);
}

#[test]
fn other_texts_are_no_setting(rt: HostRuntime) -> Result<(), Fail> {
    let problem = pipe_beside_valve(rt.alloc())?;
    expect_wholes(&rt, rt.alloc(), &problem);
    Ok(())
}

// Ids with a quote, a backslash and letters past ASCII.
fn oddly_named_rows(alloc: Global) -> Result<Rows, NoMemory> {
    let mut nodes = List::new(alloc);
    nodes.push(node(alloc, "a\"b")?)?;
    nodes.push(node(alloc, "c\\d")?)?;
    let mut arcs = List::new(alloc);
    arcs.push(ArcText {
        id: Name::of(alloc, "\u{e9}\u{4e2d}")?,
        from: Name::of(alloc, "a\"b")?,
        to: Name::of(alloc, "c\\d")?,
        q_min: -9,
        q_max: 9,
        kind: ArcKind::Short,
    })?;
    let groups = List::new(alloc);
    Ok(Rows {
        nodes,
        arcs,
        groups,
    })
}

#[test]
fn quotes_and_backslashes_in_ids_are_escaped(rt: HostRuntime) -> Result<(), Fail> {
    let alloc = rt.alloc();
    let problem = Problem::make(alloc, oddly_named_rows(alloc)?)?;
    let text =
        "{\"arcs\":[[\"\\u00e9\\u4e2d\",\"open\",2]],\"decisions\":[],\"nodes\":[[\"a\\u0022b\",40],[\"c\\u005cd\",40]]}";
    let line =
        "{\"arcs\":[[\"\u{e9}\u{4e2d}\",\"open\",2]],\"decisions\":[],\"nodes\":[[\"a\\\"b\",40],[\"c\\\\d\",40]]}\n";
    expect_again(&rt, alloc, &problem, text, line);
    expect_again(&rt, alloc, &problem, line, line);
    Ok(())
}

// Lists within one another, so many deep.
fn nested(alloc: Global, depth: u32) -> Result<Bytes, NoMemory> {
    let mut text = Bytes::new(alloc);
    for _ in 0..depth {
        text.push(b'[')?;
    }
    for _ in 0..depth {
        text.push(b']')?;
    }
    Ok(text)
}

#[test]
fn lists_are_read_up_to_127_deep(rt: HostRuntime) -> Result<(), Fail> {
    let alloc = rt.alloc();
    let problem = pipe_beside_valve(alloc)?;
    for (depth, fault) in [
        (127, SettingFault::NotSetting { key: Key::Whole }),
        (128, SettingFault::NotJson),
    ] {
        let text = nested(alloc, depth)?;
        assert_eq!(rt;
            fault_of(alloc, &problem, text.as_slice()),
            Some(fault),
            "{depth}"
        );
    }
    Ok(())
}
