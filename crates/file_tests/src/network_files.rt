use net_reader::{NetRows, read_net};
use std::alloc::{AllocError, Global};
use std::test::Fail;
use tag_outline::FileFault;

const SMALL_NETWORK: &str = "<?xml version=\"1.0\" encoding=\"UTF-8\"?>\n\
    <!-- a small network -->\n\
    <network xmlns=\"g\" xmlns:framework=\"f\">\n\
    <framework:nodes>\n\
    <source id=\"source_1\" x=\"0\" y=\"0\"><height unit=\"m\" value=\"0\"/>\n\
    <pressureMin unit=\"bar\" value=\"40\"/><pressureMax unit=\"bar\" value=\"60\"/>\n\
    <flowMin unit=\"1000m_cube_per_hour\" value=\"0\"/><flowMax unit=\"1000m_cube_per_hour\" value=\"1000\"/></source>\n\
    <innode id=\"innode_1\"><pressureMin unit=\"bar\" value=\"30\"/><pressureMax unit=\"bar\" value=\"60\"/></innode>\n\
    <innode id=\"innode_2\"><pressureMin unit=\"bar\" value=\"30\"/><pressureMax unit=\"bar\" value=\"80\"/></innode>\n\
    <sink id=\"sink_1\"><pressureMin unit=\"bar\" value=\"30\"/><pressureMax unit=\"bar\" value=\"80\"/>\n\
    <flowMin unit=\"1000m_cube_per_hour\" value=\"0\"/><flowMax unit=\"1000m_cube_per_hour\" value=\"1000\"/></sink>\n\
    </framework:nodes>\n\
    <framework:connections>\n\
    <pipe id=\"pipe_1\" from=\"source_1\" to=\"innode_1\" alias=\"\">\n\
    <flowMin unit=\"1000m_cube_per_hour\" value=\"-1000\"/><flowMax unit=\"1000m_cube_per_hour\" value=\"1000\"/>\n\
    <length unit=\"km\" value=\"20\"/><diameter unit=\"mm\" value=\"600\"/><roughness unit=\"mm\" value=\"0.05\"/>\n\
    <pressureMax unit=\"bar\" value=\"80\"/></pipe>\n\
    <compressorStation id=\"compressorStation_1\" from=\"innode_1\" to=\"innode_2\">\n\
    <flowMin unit=\"1000m_cube_per_hour\" value=\"0\"/><flowMax unit=\"1000m_cube_per_hour\" value=\"1000\"/>\n\
    <pressureInMin unit=\"bar\" value=\"30\"/><pressureOutMax unit=\"bar\" value=\"80\"/></compressorStation>\n\
    <pipe id=\"pipe_2\" from=\"innode_2\" to=\"sink_1\">\n\
    <flowMin unit=\"1000m_cube_per_hour\" value=\"-1000\"/><flowMax unit=\"1000m_cube_per_hour\" value=\"1000\"/>\n\
    <pressureMax unit=\"bar\" value=\"80\"/></pipe>\n\
    </framework:connections>\n\
    </network>\n";

const SMALL_ROWS: &str = "source_1 Source 4000000 6000000 0 1000000000\n\
    innode_1 Inner 3000000 6000000 0 0\n\
    innode_2 Inner 3000000 8000000 0 0\n\
    sink_1 Sink 3000000 8000000 0 1000000000\n\
    pipe_1 source_1 innode_1 -1000000000 1000000000 8000000 Pipe\n\
    compressorStation_1 innode_1 innode_2 0 1000000000 100000000 Station { in_min: 3000000, out_max: 8000000 }\n\
    pipe_2 innode_2 sink_1 -1000000000 1000000000 8000000 Pipe\n";

// Each node and each connection in a line.
fn shown(alloc: Global, rows: &NetRows) -> Result<String, AllocError> {
    let mut text = String::new(alloc);
    for n in rows.nodes.as_slice() {
        let (id, word) = (n.id.as_str(), n.word);
        write!(
            text,
            "{id} {word:?} {} {} {} {}\n",
            n.p_min, n.p_max, n.f_min, n.f_max
        )?;
    }
    for a in rows.arcs.as_slice() {
        let (id, from, to) = (a.id.as_str(), a.from.as_str(), a.to.as_str());
        write!(
            text,
            "{id} {from} {to} {} {} {} {:?}\n",
            a.q_min, a.q_max, a.p_max, a.word
        )?;
    }
    Ok(text)
}

// A fault, what it calls the element, and the name in it.
fn told(alloc: Global, fault: FileFault) -> Result<String, AllocError> {
    let (what, element, name) = match fault {
        FileFault::Missing { element, name } => ("missing", element, name),
        FileFault::BadValue { element, name } => ("bad value", element, name),
        FileFault::BadUnit { element, name } => ("bad unit", element, name),
        FileFault::TooLarge { element, name } => ("too large", element, name),
        FileFault::BadWord { element, name } => ("bad word", element, name),
        FileFault::UnknownAttribute { element, name } => ("unknown attribute", element, name),
        other => return format!(in alloc; "{other:?}"),
    };
    format!(in alloc; "{what} {} {}", element.as_str(), name.as_str())
}

// The rows of a file, or its fault.
fn read(alloc: Global, text: &str) -> Result<String, AllocError> {
    match read_net(alloc, text.as_bytes()) {
        Ok(rows) => shown(alloc, &rows),
        Err(fault) => told(alloc, fault),
    }
}

#[test]
fn small_network_has_four_nodes_and_three_connections(rt: HostRuntime) -> Result<(), Fail> {
    let alloc = rt.alloc();
    assert_eq!(rt; read(alloc, SMALL_NETWORK)?.as_str(), SMALL_ROWS);
    let marked = format!(in alloc; "\u{feff}{SMALL_NETWORK}")?;
    assert_eq!(rt; read(alloc, marked.as_str())?.as_str(), SMALL_ROWS);
    Ok(())
}

// 70 barg are 7,101,325 Pa as a pressure and 7,000,000 Pa as a difference; half a litre is rounded outward; the first of
// two children counts. A control valve with losses of 0.1 Pa and 2 Pa has 3 + 0 before it, 9 - 2 after it, and reduces
// 1 + 0 + 2 to 5 + 1 + 2.
#[test]
fn quantities_are_rounded_outward_or_have_their_defaults(rt: HostRuntime) -> Result<(), Fail> {
    for (nodes, arcs, want) in [
        (
            "<source id='a'><pressureMax unit='barg' value='70'/><flowMin unit='1000m_cube_per_hour' value='0.0000005'/></source>",
            "",
            "a Source 0 7101325 0 1000000000000\n",
        ),
        (
            "<sink id='b'><flowMax unit='m_cube_per_hour' value='0.0005'/><pressureMin unit='Pa' value='-1e99'/></sink>",
            "",
            "b Sink 0 100000000 -1000000000000 1\n",
        ),
        (
            "<innode id='c'><flowMax unit='?'/><pressureMin value='1' unit='Pa'/><pressureMin value='2' unit='Pa'/></innode>",
            "",
            "c Inner 1 100000000 0 0\n",
        ),
        (
            "",
            "<controlValve id='c' from='a' to='b'><pressureInMin unit='Pa' value='3'/><pressureOutMax unit='Pa' value='9'/>\
            <pressureDifferentialMin unit='Pa' value='1'/><pressureDifferentialMax unit='Pa' value='5'/>\
            <pressureLossIn unit='Pa' value='0.1'/><pressureLossOut unit='Pa' value='2'/></controlValve>",
            "c a b -1000000000000 1000000000000 100000000 Control { in_min: 3, out_max: 7, red_min: 3, red_max: 8 }\n",
        ),
        (
            "",
            "<resistor id='r' from='a' to='b'><pressureLoss unit='barg' value='0.123456'/></resistor><resistor id='s' from='a' to='b'/>",
            "r a b -1000000000000 1000000000000 100000000 Resistor { loss: Some((12345, 12346)) }\n\
            s a b -1000000000000 1000000000000 100000000 Resistor { loss: None }\n",
        ),
        (
            "",
            "<shortPipe id='s' from='a' to='b'><pressureMax unit='?'/></shortPipe><valve id='v' from='a' to='b'/>",
            "s a b -1000000000000 1000000000000 100000000 Short\nv a b -1000000000000 1000000000000 100000000 Valve\n",
        ),
    ] {
        let text = format!(in rt.alloc();
            "<n><nodes>{nodes}</nodes><connections>{arcs}</connections></n>"
        )?;
        assert_eq!(rt; read(rt.alloc(), text.as_str())?.as_str(), want, "{text}");
    }
    Ok(())
}

#[test]
fn first_offence_is_named_with_its_element(rt: HostRuntime) -> Result<(), Fail> {
    for (text, want) in [
        ("<n id='x'><connections/></n>", "missing n nodes"),
        ("<n><nodes/><nodes><pipe/></nodes></n>", ""),
        (
            "<n><connections><a/></connections><nodes><b/></nodes></n>",
            "bad word nodes b",
        ),
        (
            "<n><nodes/><connections><a/></connections></n>",
            "bad word connections a",
        ),
        ("<n><nodes><sink/></nodes></n>", "missing sink id"),
        (
            "<n><nodes><sink id='a&amp;b'/></nodes></n>",
            "bad value sink id",
        ),
        ("<n><nodes><sink id=''/></nodes></n>", "bad value sink id"),
        (
            "<n><nodes/><connections><valve id='v' to='b'/></connections></n>",
            "missing v from",
        ),
        (
            "<n><nodes/><connections><valve id='v' from='a' to=' '/></connections></n>",
            "bad value v to",
        ),
        (
            "<n><nodes><sink id='s'><flowMax unit='x'/></sink></nodes></n>",
            "missing s flowMax",
        ),
        (
            "<n><nodes><sink id='s'><flowMax value='x'/></sink></nodes></n>",
            "missing s flowMax",
        ),
        (
            "<n><nodes><sink id='s'><flowMax value='x' unit='bar'/></sink></nodes></n>",
            "bad unit s flowMax",
        ),
        (
            "<n><nodes><sink id='s'><flowMax value='x' unit='m_cube_per_hour'/></sink></nodes></n>",
            "bad value s flowMax",
        ),
        (
            "<n><nodes><sink id='s'><flowMax value='1e99' unit='m_cube_per_hour'/></sink></nodes></n>",
            "too large s flowMax",
        ),
        (
            "<n><nodes><sink id='s'><pressureMax value='-1' unit='Pa'/></sink></nodes></n>",
            "too large s pressureMax",
        ),
        (
            "<n><nodes><sink id='s'><pressureMin value='1000.00001' unit='bar'/></sink></nodes></n>",
            "too large s pressureMin",
        ),
        (
            "<n><nodes/><connections><controlValve id='c' from='a' to='b'><pressureOutMax unit='Pa' value='1'/>\
            <pressureLossOut unit='Pa' value='2'/></controlValve></connections></n>",
            "too large c pressureLossOut",
        ),
        (
            "<n><nodes/><connections><resistor id='r' from='a' to='b'><pressureLoss unit='Pa' value='-1'/></resistor></connections></n>",
            "too large r pressureLoss",
        ),
        ("<n><nodes>", "Outline(NotOutline { at: 10 })"),
    ] {
        assert_eq!(rt; read(rt.alloc(), text)?.as_str(), want, "{text}");
    }
    Ok(())
}

// The pipe's own flow of 1,000,000 thousand cubic metres is the limit, and a millionth more is past it.
#[test]
fn flow_past_ten_to_the_twelve_litres_is_too_large(rt: HostRuntime) -> Result<(), Fail> {
    let alloc = rt.alloc();
    for (value, want) in [
        (
            "1000000",
            "pipe_1 a b -1000000000000 1000000000000 100000000 Pipe\n",
        ),
        ("1000000.000001", "too large pipe_1 flowMax"),
    ] {
        let text = format!(in alloc;
            "<n><nodes/><connections><pipe id='pipe_1' from='a' to='b'>\
            <flowMax unit='1000m_cube_per_hour' value='{value}'/></pipe></connections></n>"
        )?;
        assert_eq!(rt; read(alloc, text.as_str())?.as_str(), want, "{value}");
    }
    Ok(())
}
