// The problem that the rows of four files stand for.
ghost use Rattle.std.specs.Prelude.{◌≡◌, None, IfOk, IfErr, OnOk, map};
ghost use Rattle.network.specs.Faults.{Gives, Tells};
ghost use Rattle.network.specs.Nodes.{node_word, nominations_fault, nomination, pipe_limit, node_row};
ghost use Rattle.network.specs.Table.{in_table, arcs_fault, arc_text, is_taken, table_fault};
ghost use Rattle.network.specs.Decisions.{arc_word, groups_fault};
ghost use Rattle.network.specs.Joined.{join_fault, joined_rows, joined_problem};

use crate::arcs::arc_texts;
use crate::decisions::{arc_words, check_groups, group_texts};
use crate::limits::pipe_limits;
use crate::nodes::node_rows;
use crate::nominations::{check_nominations, node_words, nominations_of};
use crate::table::{check_table, table_of};
use cdf_reader::{CdfGroup, CdfRows};
use gas_model::{ArcText, List, NoMemory, NodeRow, Problem, Rows};
use net_reader::{NetArc, NetNode, NetRows};
use problem_faults::JoinFault;
use res_table::{ResRow, ResRows};
use scn_reader::{ScnNode, ScnRows};
use std::alloc::Global;

fn nominations_are_right(alloc: Global, nodes: &[NetNode], scn: &[ScnNode]) -> Result<(), JoinFault>
    ensures clean { OnOk result (nominations_fault (node_word nodes.now) scn.now ≡ None) }
    ensures err { IfErr result (λ e. Tells e (nominations_fault (node_word nodes.now) scn.now)) }
{
    let words = node_words(alloc, nodes)?;
    check_nominations(alloc, &words, scn)
}

fn arcs_with_rows(
    alloc: Global,
    arcs: &[NetArc],
    rows: &[ResRow],
) -> Result<List<ArcText>, JoinFault>
    ensures texts { IfOk result (λ texts. texts ≡ map (arc_text (in_table rows.now)) arcs.now) }
    ensures clean { OnOk result (arcs_fault (in_table rows.now) arcs.now ≡ None) }
    ensures err { IfErr result (λ e. Tells e (arcs_fault (in_table rows.now) arcs.now)) }
{
    let table = table_of(alloc, rows)?;
    arc_texts(alloc, &table, arcs)
}

fn decisions_are_right(alloc: Global, arcs: &[NetArc], groups: &[CdfGroup]) -> Result<(), JoinFault>
    ensures clean { OnOk result (groups_fault (arc_word arcs.now) groups.now ≡ None) }
    ensures err { IfErr result (λ e. Tells e (groups_fault (arc_word arcs.now) groups.now)) }
{
    let words = arc_words(alloc, arcs)?;
    check_groups(alloc, &words, groups)
}

fn bounded_nodes(alloc: Global, net: &NetRows, scn: &[ScnNode]) -> Result<List<NodeRow>, NoMemory>
    ensures { IfOk result (λ rows. rows ≡ map (node_row (nomination scn.now) (pipe_limit net.now.arcs)) net.now.nodes) }
{
    let nominations = nominations_of(alloc, scn)?;
    let limits = pipe_limits(alloc, net.arcs.as_slice())?;
    node_rows(alloc, &nominations, &limits, net.nodes.as_slice())
}

// The rows of the joined problem, or the first offence of joining.
fn joined_rows(
    alloc: Global,
    net: &NetRows,
    scn: &ScnRows,
    cdf: &CdfRows,
    res: &ResRows,
) -> Result<Rows, JoinFault>
    ensures rows { IfOk result (λ rows. rows ≡ joined_rows net.now scn.now cdf.now res.now) }
    ensures clean { OnOk result (join_fault net.now scn.now cdf.now res.now ≡ None) }
    ensures err { IfErr result (λ e. Tells e (join_fault net.now scn.now cdf.now res.now)) }
{
    nominations_are_right(alloc, net.nodes.as_slice(), scn.nodes.as_slice())?;
    let arcs = arcs_with_rows(alloc, net.arcs.as_slice(), res.rows.as_slice())?;
    check_table(alloc, net.arcs.as_slice(), res.rows.as_slice())?;
    decisions_are_right(alloc, net.arcs.as_slice(), cdf.groups.as_slice())?;
    let nodes = bounded_nodes(alloc, net, scn.nodes.as_slice())?;
    let groups = group_texts(alloc, cdf.groups.as_slice())?;
    Ok(Rows {
        nodes,
        arcs,
        groups,
    })
}

/// The problem that the rows of a network, a scenario, decisions and a table of resistances stand for, or the first
/// offence.
///
/// The pressure bounds of a node are the tightest of its own, of its nomination and, above, of the pipes at it. Its
/// supply is 0 without a nomination. For an entry it lies within the flow bounds of both the node and the nomination,
/// for an exit within these the other way. Pipes, and resistors without a loss, take the resistance of their row,
/// stations their ratio and rise.
///
/// Offences come in this order: nominations (of no node, of a node of another type, of a node once more), connections
/// without their row, rows of the table (the second of its word and id, one that no connection takes), decisions on
/// a connection of another word, then those of the joined rows as a problem. Each goes by its file's order. Where two
/// nodes or two connections have one id, the first counts for its word.
pub fn assemble(
    alloc: Global,
    net: NetRows,
    scn: ScnRows,
    cdf: CdfRows,
    res: ResRows,
) -> Result<Problem, JoinFault>
    ensures exact { Gives result (joined_problem net scn cdf res) }
{
    let rows = joined_rows(alloc, &net, &scn, &cdf, &res)?;
    let problem = Problem::make(alloc, rows)?;
    Ok(problem)
}
