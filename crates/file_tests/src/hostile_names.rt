// Names that strangers choose so that a hash with a known seed is the same for all of them. A look-up that compares a
// name with all others of its hash takes more than half a minute for so many; the bound here leaves it a seventh.
use cdf_reader::read_cdf;
use gas_model::{Many, ModelFault};
use net_reader::read_net;
use network::{JoinFault, assemble};
use res_table::read_res;
use scn_reader::read_scn;
use std::alloc::{AllocError, Global};
use std::test::Fail;
use std::time::{CpuClock, Duration};
use tag_outline::read_outline;

const COUNT: u32 = 100_000;

const BOUND_SECONDS: u64 = 5;

// The hash of std's and indexmap's maps, with their seed, is the same for this and any eight bytes more.
const FRONT: &str = "2iebam06274dwt247n1-OgrT";

// A tag with so many attributes.
fn wide_tag(alloc: Global) -> Result<String, AllocError> {
    let mut text = String::from_str(alloc, "<a")?;
    for i in 0..COUNT {
        write!(text, " {FRONT}{i:08}=\"\"")?;
    }
    text.push_str("/>")?;
    Ok(text)
}

#[test]
fn attributes_of_one_hash_are_read_as_fast_as_others(rt: HostRuntime) -> Result<(), Fail> {
    let text = wide_tag(rt.alloc())?;
    let before = rt.thread_cpu_time()?;
    let outline = read_outline(rt.alloc(), text.as_bytes()).map_err(|_| "no outline")?;
    let after = rt.thread_cpu_time()?;
    let [tag] = outline.as_slice() else {
        return Err("one element")?;
    };
    assert_eq!(rt; tag.attributes.as_slice().len(), COUNT as usize);
    assert!(rt; after.saturating_sub(before) < Duration::from_secs(BOUND_SECONDS));
    Ok(())
}

// A network of so many nodes.
fn wide_network(alloc: Global) -> Result<String, AllocError> {
    let mut text = String::from_str(alloc, "<network><nodes>")?;
    for i in 0..COUNT {
        write!(text, "<innode id='{FRONT}{i:08}'/>")?;
    }
    text.push_str("</nodes></network>")?;
    Ok(text)
}

#[test]
fn nodes_of_one_hash_are_joined_as_fast_as_others(rt: HostRuntime) -> Result<(), Fail> {
    let alloc = rt.alloc();
    let text = wide_network(alloc)?;
    let net = read_net(alloc, text.as_bytes()).map_err(|_| "no network")?;
    let scn = read_scn(
        alloc,
        b"<boundaryValue><scenario></scenario></boundaryValue>",
    )
    .map_err(|_| "no scenario")?;
    let cdf = read_cdf(alloc, b"<combinedDecisions></combinedDecisions>").map_err(
        |_| "no decisions",
    )?;
    let res = read_res(alloc, b"").map_err(|_| "no table")?;
    let before = rt.thread_cpu_time()?;
    let joined = assemble(alloc, net, scn, cdf, res);
    let after = rt.thread_cpu_time()?;
    assert!(rt;
        matches!(
            joined,
            Err(JoinFault::Model(ModelFault::TooMany { what: Many::Nodes }))
        )
    );
    assert!(rt; after.saturating_sub(before) < Duration::from_secs(BOUND_SECONDS));
    Ok(())
}
