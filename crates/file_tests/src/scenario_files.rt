use scn_reader::{ScnRows, read_scn};
use std::alloc::{AllocError, Global};
use std::test::Fail;
use tag_outline::FileFault;

const SMALL_SCENARIO: &str = "<boundaryValue><scenario id=\"s1\">\n\
    <node type=\"entry\" id=\"source_1\"><flow bound=\"lower\" value=\"100\" unit=\"1000m_cube_per_hour\"/>\n\
    <flow bound=\"upper\" value=\"100\" unit=\"1000m_cube_per_hour\"/></node>\n\
    <node type=\"exit\" id=\"sink_1\"><pressure bound=\"lower\" value=\"45\" unit=\"bar\"/>\n\
    <flow bound=\"both\" value=\"100\" unit=\"1000m_cube_per_hour\"/></node>\n\
    </scenario></boundaryValue>\n";

const SMALL_ROWS: &str = "source_1 true 100000000 100000000 0 100000000\n\
    sink_1 false 100000000 100000000 4500000 100000000\n";

// Each node in a line.
fn shown(alloc: Global, rows: &ScnRows) -> Result<String, AllocError> {
    let mut text = String::new(alloc);
    for n in rows.nodes.as_slice() {
        let (id, entry) = (n.id.as_str(), n.entry);
        write!(
            text,
            "{id} {entry} {} {} {} {}\n",
            n.f_min, n.f_max, n.p_min, n.p_max
        )?;
    }
    Ok(text)
}

// A fault, what it calls the element, and the name in it.
fn told(alloc: Global, fault: FileFault) -> Result<String, AllocError> {
    let (what, element, name) = match fault {
        FileFault::Missing { element, name } => ("missing", element, name),
        FileFault::BadValue { element, name } => ("bad value", element, name),
        FileFault::BadUnit { element, name } => ("bad unit", element, name),
        FileFault::TooLarge { element, name } => ("too large", element, name),
        FileFault::BadWord { element, name } => ("bad word", element, name),
        other => return format!(in alloc; "{other:?}"),
    };
    format!(in alloc; "{what} {} {}", element.as_str(), name.as_str())
}

// The rows of a file, or its fault.
fn read(alloc: Global, text: &str) -> Result<String, AllocError> {
    match read_scn(alloc, text.as_bytes()) {
        Ok(rows) => shown(alloc, &rows),
        Err(fault) => told(alloc, fault),
    }
}

#[test]
fn small_scenario_nominates_two_nodes(rt: HostRuntime) -> Result<(), Fail> {
    assert_eq!(rt; read(rt.alloc(), SMALL_SCENARIO)?.as_str(), SMALL_ROWS);
    Ok(())
}

// Bounds apply together: the greatest lower bound, rounded down, and the least upper one, rounded up. What isn't a node
// is passed over, and so is a second scenario.
#[test]
fn bounds_of_a_node_apply_together(rt: HostRuntime) -> Result<(), Fail> {
    for (node, want) in [
        (
            "<node id='a' type='exit'><flow bound='lower' value='1.5' unit='m_cube_per_hour'/><flow bound='both' value='1.0001' unit='m_cube_per_hour'/></node>",
            "a false 1500 1001 0 100000000\n",
        ),
        (
            "<node id='a' type='entry'><pressure bound='upper' value='0.5' unit='Pa'/><pressure bound='lower' value='-3' unit='barg'/></node>",
            "a true -1000000000000 1000000000000 0 1\n",
        ),
        (
            "<other/><node id='a' type='exit'><x/></node>",
            "a false -1000000000000 1000000000000 0 100000000\n",
        ),
    ] {
        let text = format!(in rt.alloc();
            "<f:boundaryValue><x/><scenario>{node}</scenario><scenario><node/></scenario></f:boundaryValue>"
        )?;
        assert_eq!(rt; read(rt.alloc(), text.as_str())?.as_str(), want, "{node}");
    }
    Ok(())
}

#[test]
fn first_offence_is_named_with_its_element(rt: HostRuntime) -> Result<(), Fail> {
    for (text, want) in [
        ("<boundaryvalue/>", "WrongRoot"),
        ("<boundaryValue id='b'/>", "missing boundaryValue scenario"),
        (
            "<boundaryValue><scenario><node/></scenario></boundaryValue>",
            "missing node type",
        ),
        (
            "<boundaryValue><scenario><node id='a' type='sink'/></scenario></boundaryValue>",
            "bad word a type",
        ),
        (
            "<boundaryValue><scenario><node type='exit'/></scenario></boundaryValue>",
            "missing node id",
        ),
        (
            "<boundaryValue><scenario><node id='a' type='exit'><flow unit='?'/></node></scenario></boundaryValue>",
            "missing a flow",
        ),
        (
            "<boundaryValue><scenario><node id='a' type='exit'><flow bound='all'/></node></scenario></boundaryValue>",
            "bad word a flow",
        ),
        (
            "<boundaryValue><scenario><node id='a' type='exit'><flow bound='both' value='x' unit='bar'/></node></scenario></boundaryValue>",
            "bad unit a flow",
        ),
        (
            "<boundaryValue><scenario><node id='a' type='exit'><pressure bound='both' value='-1' unit='Pa'/></node></scenario></boundaryValue>",
            "too large a pressure",
        ),
    ] {
        assert_eq!(rt; read(rt.alloc(), text)?.as_str(), want, "{text}");
    }
    Ok(())
}
