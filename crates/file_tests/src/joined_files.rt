use cdf_reader::read_cdf;
use gas_model::Problem;
use net_reader::read_net;
use network::{JoinFault, assemble};
use res_table::read_res;
use scn_reader::read_scn;
use std::alloc::{AllocError, Global};
use std::test::Fail;

// A source, a station between two inner nodes, and a sink.
const NODES: &str =
    "<source id='source_1'><pressureMin unit='bar' value='40'/><pressureMax unit='bar' value='60'/>\
    <flowMin unit='1000m_cube_per_hour' value='0'/><flowMax unit='1000m_cube_per_hour' value='1000'/></source>\
    <innode id='innode_1'><pressureMin unit='bar' value='30'/><pressureMax unit='bar' value='60'/></innode>\
    <innode id='innode_2'><pressureMin unit='bar' value='30'/><pressureMax unit='bar' value='90'/></innode>\
    <sink id='sink_1'><pressureMin unit='bar' value='30'/><flowMax unit='1000m_cube_per_hour' value='90.5'/></sink>";

const ARCS: &str = "<pipe id='pipe_1' from='source_1' to='innode_1'/>\
    <compressorStation id='station_1' from='innode_1' to='innode_2'/>\
    <pipe id='pipe_2' from='innode_2' to='sink_1'><pressureMax unit='bar' value='80'/></pipe>";

const NOMINATIONS: &str =
    "<node type='entry' id='source_1'><flow bound='both' value='100' unit='1000m_cube_per_hour'/></node>\
    <node type='exit' id='sink_1'><pressure bound='lower' value='45' unit='bar'/>\
    <flow bound='lower' value='80' unit='1000m_cube_per_hour'/></node>";

const GROUP: &str =
    "<decisionGroup id='group_1'><decision id='off'><compressorStation id='station_1' value='0'/></decision></decisionGroup>";

const TABLE: &str =
    "pipe,pipe_1,390,410,1000000\npipe,pipe_2,390,410,1000000\nstation,station_1,3,2,3000000\n";

// Both ends of pipe_2 have at most its 80 bar. The exit's flow, from 80,000,000 to 90,500,000 l/h, is a supply the other way.
const SMALL_ROWS: &str = "source_1 4000000 6000000 100000000 100000000\n\
    innode_1 3000000 6000000 0 0\n\
    innode_2 3000000 8000000 0 0\n\
    sink_1 4500000 8000000 -90500000 -80000000\n\
    pipe_1 0 1 Pipe { law: Drag { lo: 390, hi: 410, den: 1000000 } }\n\
    station_1 1 2 Station { in_min: 0, out_max: 100000000, ratio_num: 3, ratio_den: 2, rise_max: 3000000 }\n\
    pipe_2 2 3 Pipe { law: Drag { lo: 390, hi: 410, den: 1000000 } }\n";

// Each node and each arc in a line.
fn shown(alloc: Global, p: &Problem) -> Result<String, AllocError> {
    let mut text = String::new(alloc);
    for n in p.nodes() {
        let id = n.id.as_str();
        write!(
            text,
            "{id} {} {} {} {}\n",
            n.p_min, n.p_max, n.b_min, n.b_max
        )?;
    }
    for a in p.arcs() {
        let id = a.id.as_str();
        write!(text, "{id} {} {} {:?}\n", a.from, a.to, a.kind)?;
    }
    Ok(text)
}

fn told(alloc: Global, joined: Result<Problem, JoinFault>) -> Result<String, AllocError> {
    match joined {
        Ok(p) => shown(alloc, &p),
        Err(fault) => format!(in alloc; "{fault:?}"),
    }
}

// The problem of four files, or its fault, with these in place of connections, nominations, groups and the table.
fn joined(
    alloc: Global,
    arcs: &str,
    nominations: &str,
    groups: &str,
    table: &str,
) -> Result<String, AllocError> {
    let net = format!(in alloc;
        "<network><nodes>{NODES}</nodes><connections>{arcs}</connections></network>"
    )?;
    let scn = format!(in alloc;
        "<boundaryValue><scenario>{nominations}</scenario></boundaryValue>"
    )?;
    let cdf = format!(in alloc; "<combinedDecisions>{groups}</combinedDecisions>")?;
    let Ok(net) = read_net(alloc, net.as_bytes()) else {
        return String::from_str(alloc, "no network");
    };
    let Ok(scn) = read_scn(alloc, scn.as_bytes()) else {
        return String::from_str(alloc, "no scenario");
    };
    let Ok(cdf) = read_cdf(alloc, cdf.as_bytes()) else {
        return String::from_str(alloc, "no decisions");
    };
    let Ok(res) = read_res(alloc, table.as_bytes()) else {
        return String::from_str(alloc, "no table");
    };
    told(alloc, assemble(alloc, net, scn, cdf, res))
}

#[test]
fn four_files_make_one_problem(rt: HostRuntime) -> Result<(), Fail> {
    let alloc = rt.alloc();
    assert_eq!(rt;
        joined(alloc, ARCS, NOMINATIONS, GROUP, TABLE)?.as_str(),
        SMALL_ROWS
    );
    Ok(())
}

#[test]
fn first_offence_of_joining_is_named(rt: HostRuntime) -> Result<(), Fail> {
    for (arc, nomination, group, row, want) in [
        (
            "",
            "<node type='exit' id='x'/>",
            "",
            "",
            "NoSuchNode { id: Name { text: \"x\" } }",
        ),
        (
            "",
            "<node type='entry' id='sink_1'/>",
            "",
            "",
            "WrongType { id: Name { text: \"sink_1\" } }",
        ),
        (
            "",
            "<node type='exit' id='sink_1'/>",
            "",
            "",
            "TwiceNominated { id: Name { text: \"sink_1\" } }",
        ),
        (
            "<resistor id='r' from='innode_1' to='innode_2'/>",
            "",
            "",
            "pipe,r,1,1,1",
            "NoResistance { arc: Name { text: \"r\" } }",
        ),
        (
            "<compressorStation id='c' from='innode_1' to='innode_2'/>",
            "",
            "",
            "",
            "NoStation { arc: Name { text: \"c\" } }",
        ),
        ("", "", "", "pipe,pipe_1,1,1,1", "TwiceRow { row: 4 }"),
        ("", "", "", "pipe,pipe_9,1,1,1", "UnusedRow { row: 4 }"),
        (
            "",
            "",
            "<decisionGroup id='h'><decision id='d'><valve id='pipe_1' value='0'/></decision></decisionGroup>",
            "",
            "WrongType { id: Name { text: \"pipe_1\" } }",
        ),
        (
            "<pipe id='pipe_2' from='innode_1' to='innode_2'/>",
            "",
            "",
            "",
            "Model(TwiceNamed { id: Name { text: \"pipe_2\" } })",
        ),
    ] {
        let alloc = rt.alloc();
        let arcs = format!(in alloc; "{ARCS}{arc}")?;
        let nominations = format!(in alloc; "{NOMINATIONS}{nomination}")?;
        let groups = format!(in alloc; "{GROUP}{group}")?;
        let table = format!(in alloc; "{TABLE}{row}")?;
        assert_eq!(rt;
            joined(
                alloc,
                arcs.as_str(),
                nominations.as_str(),
                groups.as_str(),
                table.as_str()
            )?
            .as_str(),
            want
        );
    }
    Ok(())
}
