// Two nodes a and b, and arcs from a to b.
ghost use Rattle.std.specs.Prelude.{◌≡◌, IfOk};
ghost use Rattle.gas_model.specs.Choices.{PartFits};

use gas_model::{
    ArcKind, ArcState, ArcText, GroupText, List, NoMemory, NodeRow, PartState, Problem, Rows,
    has_state,
};
use std::alloc::Global;
use std::test::Fail;

/// An arc of this kind from a to b with bounds of its flow in l/h.
pub fn arc(alloc: Global, id: &str, flow: (i64, i64), kind: ArcKind) -> Result<ArcText, NoMemory> {
    small_problems::arc(alloc, id, ("a", "b"), flow, kind)
}

/// The problem of two nodes with these arcs and groups.
pub fn problem(
    alloc: Global,
    a: NodeRow,
    b: NodeRow,
    arcs: List<ArcText>,
    groups: List<GroupText>,
) -> Result<Problem, Fail> {
    let mut nodes = List::new(alloc);
    nodes.push(a)?;
    nodes.push(b)?;
    let rows = Rows {
        nodes,
        arcs,
        groups,
    };
    Ok(Problem::make(alloc, rows)?)
}

/// The problem of two nodes that one arc joins.
pub fn joined(alloc: Global, a: NodeRow, b: NodeRow, arc: ArcText) -> Result<Problem, Fail> {
    let mut arcs = List::new(alloc);
    arcs.push(arc)?;
    problem(alloc, a, b, arcs, List::new(alloc))
}

/// The part state that names this state of the first arc, where that is one of its kind.
pub fn named(p: &Problem, state: Option<ArcState>) -> Result<PartState, Fail>
    ensures { IfOk result (λ part. PartFits p.now part) }
{
    let mut part = p.fresh()?;
    let Some(state) = state else {
        return Ok(part);
    };
    let Some(row) = p.arcs().first() else {
        return Err(Fail::from("no arc"));
    };
    if has_state(&row.kind, state) {
        part.states.put(0, Some(state));
    }
    Ok(part)
}
