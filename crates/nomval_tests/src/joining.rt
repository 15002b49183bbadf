// A problem of four files.
use crate::desks::{desk_with, ends, wrote, wrote_none};
use gas_desk::MemDesk;
use gas_model::{Bytes, List, Name, NoMemory};
use std::alloc::Global;
use std::test::Fail;

// What the four files hold.
#[derive(Clone, Copy)]
struct Four<'a> {
    net: &'a [u8],
    scn: &'a [u8],
    cdf: &'a [u8],
    res: &'a [u8],
}

// A node alone, no nomination, no group and no row.
const ALONE: Four<'static> = Four {
    net: b"<network><nodes><innode id=\"a\"/></nodes><connections/></network>",
    scn: b"<boundaryValue><scenario/></boundaryValue>",
    cdf: b"<combinedDecisions/>",
    res: b"",
};

// A source, a sink and a pipe between them.
const ONE_PIPE: &[u8] =
    b"<n><nodes><source id='a'/><sink id='b'/></nodes><connections><pipe id='p' from='a' to='b'/></connections></n>";

// One file more.
fn put(
    files: &mut List<(Name, Bytes)>,
    alloc: Global,
    name: &str,
    text: &[u8],
) -> Result<(), NoMemory> {
    let mut bytes = Bytes::new(alloc);
    bytes.append(text)?;
    files.push((Name::of(alloc, name)?, bytes))
}

// A desk with these files and with the file `t`, which fails at these calls.
fn four_files(
    alloc: Global,
    four: Four<'_>,
    tree: &[u8],
    fails: &[u64],
) -> Result<MemDesk, NoMemory> {
    let mut files = List::new(alloc);
    put(&mut files, alloc, "n", four.net)?;
    put(&mut files, alloc, "s", four.scn)?;
    put(&mut files, alloc, "c", four.cdf)?;
    put(&mut files, alloc, "r", four.res)?;
    put(&mut files, alloc, "t", tree)?;
    desk_with(alloc, files, fails)
}

// What a command writes for these files, without decisions.
fn writes(
    alloc: Global,
    command: &str,
    four: Four<'_>,
    said: &str,
    text: &str,
) -> Result<bool, NoMemory> {
    let mut desk = four_files(alloc, four, b"", &[])?;
    let words = [command, "n", "s", "none", "r", "o"];
    Ok(ends(alloc, &mut desk, &words, 0, said) && wrote(&desk, text))
}

// Whether the flat text of these files isn't written, for this reason.
fn refuses(alloc: Global, four: Four<'_>, said: &str) -> Result<bool, NoMemory> {
    let mut desk = four_files(alloc, four, b"", &[])?;
    let words = ["flat", "n", "s", "c", "r", "o"];
    Ok(ends(alloc, &mut desk, &words, 65, said) && wrote_none(&desk))
}

const FLAT_ALONE: &str = "gasflat 1\nnode a 0 100000000 0 0\nend\n";

// Without bounds a pressure lies from 0 to 10^8 Pa, and the middle of its square is 5 * 10^15.
#[test]
fn four_files_make_a_problem(rt: HostRuntime) -> Result<(), Fail> {
    let alloc = rt.alloc();
    assert!(rt; writes(alloc, "flat", ALONE, "written\n", FLAT_ALONE)?);
    let setting = "{\"arcs\":[],\"decisions\":[],\"nodes\":[[\"a\",5000000000000000]]}\n";
    assert!(rt; writes(alloc, "solve", ALONE, "accepted\n", setting)?);
    Ok(())
}

#[test]
fn a_byte_order_mark_is_passed_over(rt: HostRuntime) -> Result<(), Fail> {
    let alloc = rt.alloc();
    let mut marked = ALONE;
    marked.net = b"\xef\xbb\xbf<network><nodes><innode id=\"a\"/></nodes></network>";
    marked.scn = b"\xef\xbb\xbf<boundaryValue><scenario/></boundaryValue>";
    assert!(rt; writes(alloc, "flat", marked, "written\n", FLAT_ALONE)?);
    Ok(())
}

#[test]
fn the_first_bad_file_is_named(rt: HostRuntime) -> Result<(), Fail> {
    let alloc = rt.alloc();
    let mut four = Four {
        net: b"<n/>",
        scn: b"<x/>",
        cdf: b"<x/>",
        res: b"pipe,p,2,1,1\n",
    };
    assert!(rt; refuses(alloc, four, "bad net missing n nodes\n")?);
    four.net = ALONE.net;
    assert!(rt; refuses(alloc, four, "bad scn wrong root\n")?);
    four.scn = ALONE.scn;
    assert!(rt; refuses(alloc, four, "bad cdf wrong root\n")?);
    four.cdf = ALONE.cdf;
    assert!(rt; refuses(alloc, four, "bad res row 1\n")?);
    four.res = b"pipe,p,1,1,1\n";
    assert!(rt; refuses(alloc, four, "bad join unused row 1\n")?);
    Ok(())
}

#[test]
fn each_offence_of_a_network_is_said(rt: HostRuntime) -> Result<(), Fail> {
    let alloc = rt.alloc();
    let cases: [(&[u8], &str); 11] = [
        (b"<n>\xff</n>", "bad net not utf8 at 3\n"),
        (b"<n></m>", "bad net not outline at 3\n"),
        (b"<!DOCTYPE n><n/>", "bad net doctype at 0\n"),
        (b"<n><![CDATA[x]]></n>", "bad net cdata at 3\n"),
        (b"<n/>", "bad net missing n nodes\n"),
        (
            b"<n><nodes><innode/></nodes></n>",
            "bad net missing innode id\n",
        ),
        (
            b"<n><nodes><innode id=''/></nodes></n>",
            "bad net bad value innode id\n",
        ),
        (
            b"<n><nodes><innode id='a'><pressureMin value='x' unit='bar'/></innode></nodes></n>",
            "bad net bad value a pressureMin\n",
        ),
        (
            b"<n><nodes><innode id='a'><pressureMin value='1' unit='psi'/></innode></nodes></n>",
            "bad net bad unit a pressureMin\n",
        ),
        // 1,001 bar are more than 10^8 Pa.
        (
            b"<n><nodes><innode id='a'><pressureMin value='1001' unit='bar'/></innode></nodes></n>",
            "bad net too large a pressureMin\n",
        ),
        (
            b"<n><nodes><x id='a'/></nodes></n>",
            "bad net bad word nodes x\n",
        ),
    ];
    for (net, said) in cases {
        let mut four = ALONE;
        four.net = net;
        assert!(rt; refuses(alloc, four, said)?);
    }
    Ok(())
}

// The 65th element stands within 64 open ones.
#[test]
fn an_element_within_64_others_is_too_deep(rt: HostRuntime) -> Result<(), Fail> {
    let alloc = rt.alloc();
    let mut net = Bytes::new(alloc);
    for _ in 0..65 {
        net.append(b"<a>")?;
    }
    let mut four = ALONE;
    four.net = net.as_slice();
    assert!(rt; refuses(alloc, four, "bad net too deep at 192\n")?);
    Ok(())
}

#[test]
fn each_offence_of_a_scenario_is_said(rt: HostRuntime) -> Result<(), Fail> {
    let alloc = rt.alloc();
    let cases: [(&[u8], &str); 7] = [
        (b"<x/>", "bad scn wrong root\n"),
        (
            b"<boundaryValue/>",
            "bad scn missing boundaryValue scenario\n",
        ),
        (
            b"<boundaryValue><scenario><node type='entry'/></scenario></boundaryValue>",
            "bad scn missing node id\n",
        ),
        (
            b"<boundaryValue><scenario><node id='a' type='in'/></scenario></boundaryValue>",
            "bad scn bad word a type\n",
        ),
        (
            b"<boundaryValue><scenario><node id='a' type='entry'><flow bound='both' value='1' unit='x'/></node></scenario></boundaryValue>",
            "bad scn bad unit a flow\n",
        ),
        (
            b"<boundaryValue><scenario><node id='a' type='entry'><flow bound='both' value='-' unit='m_cube_per_hour'/></node></scenario></boundaryValue>",
            "bad scn bad value a flow\n",
        ),
        // 10^10 m^3 are 10^13 litres.
        (
            b"<boundaryValue><scenario><node id='a' type='entry'><flow bound='both' value='1e10' unit='m_cube_per_hour'/></node></scenario></boundaryValue>",
            "bad scn too large a flow\n",
        ),
    ];
    for (scn, said) in cases {
        let mut four = ALONE;
        four.scn = scn;
        assert!(rt; refuses(alloc, four, said)?);
    }
    Ok(())
}

#[test]
fn each_offence_of_a_decision_file_is_said(rt: HostRuntime) -> Result<(), Fail> {
    let alloc = rt.alloc();
    let cases: [(&[u8], &str); 5] = [
        (b"<x/>", "bad cdf wrong root\n"),
        (
            b"<combinedDecisions><x/></combinedDecisions>",
            "bad cdf bad word combinedDecisions x\n",
        ),
        (
            b"<combinedDecisions><decisionGroup/></combinedDecisions>",
            "bad cdf missing decisionGroup id\n",
        ),
        (
            b"<combinedDecisions><decisionGroup id='&amp;'/></combinedDecisions>",
            "bad cdf bad value decisionGroup id\n",
        ),
        (
            b"<combinedDecisions><decisionGroup id='g'><decision id='d'><valve id='v' value='1' x='2'/></decision></decisionGroup></combinedDecisions>",
            "bad cdf unknown attribute v x\n",
        ),
    ];
    for (cdf, said) in cases {
        let mut four = ALONE;
        four.cdf = cdf;
        assert!(rt; refuses(alloc, four, said)?);
    }
    Ok(())
}

#[test]
fn the_first_bad_record_of_a_table_is_counted(rt: HostRuntime) -> Result<(), Fail> {
    let alloc = rt.alloc();
    let mut four = ALONE;
    four.res = b"pipe,p,1,1,1\npipe,q,1\n";
    assert!(rt; refuses(alloc, four, "bad res row 2\n")?);
    Ok(())
}

#[test]
fn each_offence_of_joining_is_said(rt: HostRuntime) -> Result<(), Fail> {
    let alloc = rt.alloc();
    let entry: &[u8] =
        b"<boundaryValue><scenario><node id='a' type='entry'/></scenario></boundaryValue>";
    let cases: [(&[u8], &[u8], &[u8], &str); 8] = [
        (
            ONE_PIPE,
            b"<boundaryValue><scenario><node id='z' type='entry'/></scenario></boundaryValue>",
            b"",
            "bad join no such node z\n",
        ),
        (ALONE.net, entry, b"", "bad join wrong type a\n"),
        (
            ONE_PIPE,
            b"<boundaryValue><scenario><node id='a' type='entry'/><node id='a' type='entry'/></scenario></boundaryValue>",
            b"",
            "bad join twice nominated a\n",
        ),
        (ONE_PIPE, entry, b"", "bad join no resistance p\n"),
        (
            b"<n><nodes><source id='a'/><sink id='b'/></nodes><connections><compressorStation id='c' from='a' to='b'/></connections></n>",
            entry,
            b"",
            "bad join no station c\n",
        ),
        (
            ONE_PIPE,
            entry,
            b"pipe,p,1,1,1\npipe,p,1,1,1\n",
            "bad join twice row 2\n",
        ),
        (
            ONE_PIPE,
            entry,
            b"pipe,p,1,1,1\npipe,q,1,1,1\n",
            "bad join unused row 2\n",
        ),
        (
            b"<n><nodes><innode id='a'/><innode id='a'/></nodes></n>",
            ALONE.scn,
            b"",
            "bad join twice named a\n",
        ),
    ];
    for (net, scn, res, said) in cases {
        let four = Four {
            net,
            scn,
            cdf: ALONE.cdf,
            res,
        };
        assert!(rt; refuses(alloc, four, said)?);
    }
    Ok(())
}

// A pressure of at least 6 Pa and at most 5 Pa leaves nothing; without bounds there is something.
#[test]
fn trees_are_checked_over_four_files(rt: HostRuntime) -> Result<(), Fail> {
    let alloc = rt.alloc();
    let tree = b"gastree 1\nclose empty s0\nend\n";
    let words = ["check", "n", "s", "c", "r", "t"];
    let mut desk = four_files(alloc, ALONE, tree, &[])?;
    let said = "not refutation bad step line 2\n";
    assert!(rt; ends(alloc, &mut desk, &words, 3, said));
    let mut four = ALONE;
    four.net =
        b"<n><nodes><innode id='a'><pressureMin value='6' unit='Pa'/><pressureMax value='5' unit='Pa'/></innode></nodes></n>";
    let mut desk = four_files(alloc, four, tree, &[])?;
    assert!(rt; ends(alloc, &mut desk, &words, 0, "passes\n"));
    assert!(rt; wrote_none(&desk));
    Ok(())
}

// Each file is started, read and found at its end by a call each: calls 3 to 5 are those of the second, 9 to 11 of the fourth.
#[test]
fn a_fault_of_reading_any_file_is_said(rt: HostRuntime) -> Result<(), Fail> {
    let alloc = rt.alloc();
    for call in [3, 4, 9, 10] {
        let mut desk = four_files(alloc, ALONE, b"", &[call])?;
        let words = ["solve", "n", "s", "c", "r", "o"];
        assert!(rt; ends(alloc, &mut desk, &words, 66, "read fault\n"));
        assert!(rt; wrote_none(&desk));
    }
    Ok(())
}
