use cdf_reader::{CdfRows, read_cdf};
use std::alloc::{AllocError, Global};
use std::test::Fail;
use tag_outline::FileFault;

const SMALL_DECISIONS: &str = "<combinedDecisions><decisionGroup id=\"group_1\">\n\
    <decision id=\"on\"><compressorStation id=\"compressorStation_1\" value=\"1\" mode=\"active\"/></decision>\n\
    <decision id=\"off\"><compressorStation id=\"compressorStation_1\" value=\"0\"/></decision>\n\
    </decisionGroup></combinedDecisions>\n";

const SMALL_ROWS: &str = "group group_1\n\
    decision on\n\
    Station compressorStation_1 Active\n\
    decision off\n\
    Station compressorStation_1 Shut\n";

// Each group, each decision and what it says, in lines.
fn shown(alloc: Global, rows: &CdfRows) -> Result<String, AllocError> {
    let mut text = String::new(alloc);
    for group in rows.groups.as_slice() {
        write!(text, "group {}\n", group.id.as_str())?;
        for decision in group.decisions.as_slice() {
            write!(text, "decision {}\n", decision.id.as_str())?;
            for set in decision.sets.as_slice() {
                write!(
                    text,
                    "{:?} {} {:?}\n",
                    set.word,
                    set.arc.as_str(),
                    set.allow
                )?;
            }
        }
    }
    Ok(text)
}

// A fault, what it calls the element, and the name in it.
fn told(alloc: Global, fault: FileFault) -> Result<String, AllocError> {
    let (what, element, name) = match fault {
        FileFault::Missing { element, name } => ("missing", element, name),
        FileFault::BadValue { element, name } => ("bad value", element, name),
        FileFault::BadWord { element, name } => ("bad word", element, name),
        FileFault::UnknownAttribute { element, name } => ("unknown attribute", element, name),
        other => return format!(in alloc; "{other:?}"),
    };
    format!(in alloc; "{what} {} {}", element.as_str(), name.as_str())
}

// The rows of a file, or its fault.
fn read(alloc: Global, text: &str) -> Result<String, AllocError> {
    match read_cdf(alloc, text.as_bytes()) {
        Ok(rows) => shown(alloc, &rows),
        Err(fault) => told(alloc, fault),
    }
}

#[test]
fn station_is_on_or_off(rt: HostRuntime) -> Result<(), Fail> {
    assert_eq!(rt; read(rt.alloc(), SMALL_DECISIONS)?.as_str(), SMALL_ROWS);
    Ok(())
}

#[test]
fn value_and_mode_say_what_is_allowed(rt: HostRuntime) -> Result<(), Fail> {
    for (set, want) in [
        (
            "<valve id='v' value='1' mode='?'/>",
            "group g\ndecision d\nValve v Opened\n",
        ),
        (
            "<valve id='v' value='0'/>",
            "group g\ndecision d\nValve v Shut\n",
        ),
        (
            "<controlValve id='c' value='1' xmlns='x' a:b=''/>",
            "group g\ndecision d\nControl c On\n",
        ),
        (
            "<controlValve id='c' value='1' mode='bypass' alias=''/>",
            "group g\ndecision d\nControl c Bypass\n",
        ),
        (
            "<controlValve id='c' value='0' mode='?'/>",
            "group g\ndecision d\nControl c Shut\n",
        ),
        (
            "<valve value='1' from='a' to='b'/>",
            "unknown attribute valve from",
        ),
        (
            "<valve id='v' value='?' unit='' />",
            "unknown attribute v unit",
        ),
        ("<valve value='?'/>", "missing valve id"),
        ("<valve id='v' mode='?'/>", "missing v value"),
        ("<valve id='v' value='01'><x/></valve>", "bad word v value"),
        (
            "<controlValve id='c' value='1' mode='on'><x/></controlValve>",
            "bad word c mode",
        ),
        ("<valve id='v' value='1'>text<x/></valve>", "bad word v x"),
        ("<pipe/>", "bad word d pipe"),
    ] {
        let text = format!(in rt.alloc();
            "<combinedDecisions><decisionGroup id='g'><decision id='d'>{set}</decision></decisionGroup></combinedDecisions>"
        )?;
        assert_eq!(rt; read(rt.alloc(), text.as_str())?.as_str(), want, "{set}");
    }
    Ok(())
}

#[test]
fn first_offence_is_named_with_its_element(rt: HostRuntime) -> Result<(), Fail> {
    for (text, want) in [
        ("<decisions/>", "WrongRoot"),
        ("<combinedDecisions/>", ""),
        (
            "<combinedDecisions id='x'><decision/></combinedDecisions>",
            "bad word combinedDecisions decision",
        ),
        (
            "<combinedDecisions><decisionGroup><valve/></decisionGroup></combinedDecisions>",
            "missing decisionGroup id",
        ),
        (
            "<combinedDecisions><decisionGroup id='g'><valve/></decisionGroup></combinedDecisions>",
            "bad word g valve",
        ),
        (
            "<combinedDecisions><decisionGroup id='g'><decision id='&lt;'/></decisionGroup></combinedDecisions>",
            "bad value decision id",
        ),
    ] {
        assert_eq!(rt; read(rt.alloc(), text)?.as_str(), want, "{text}");
    }
    Ok(())
}
