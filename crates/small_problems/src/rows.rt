// Rows of small problems.
ghost use Rattle.std.specs.Prelude.{◌≡◌, IfOk};

use gas_model::{
    Allow, ArcKind, ArcText, DecisionText, Drag, GroupText, List, Name, NoMemory, NodeRow, SetText,
};
use std::alloc::Global;

/// A resistance of 1 Pa^2 per (l/h)^2.
pub const ONE: Drag = Drag {
    lo: 1,
    hi: 1,
    den: 1,
};

/// A resistance between 1 and 2 Pa^2 per (l/h)^2.
pub const ONE_TO_TWO: Drag = Drag {
    lo: 1,
    hi: 2,
    den: 1,
};

/// A pipe of resistance 1.
pub const PIPE: ArcKind = ArcKind::Pipe { law: ONE };

/// A compressor station up to 9 Pa, that raises a pressure by at most 9 Pa and this ratio.
pub const fn station(ratio_num: i64, ratio_den: i64) -> ArcKind {
    ArcKind::Station {
        in_min: 0,
        out_max: 9,
        ratio_num,
        ratio_den,
        rise_max: 9,
    }
}

/// A node with bounds of its pressure in Pa, and of its supply in l/h.
pub fn loose_node(
    alloc: Global,
    id: &str,
    p: (i64, i64),
    supply: (i64, i64),
) -> Result<NodeRow, NoMemory>
    ensures { IfOk result (λ row. row.id ≡ id.now) }
{
    Ok(NodeRow {
        id: Name::of(alloc, id)?,
        p_min: p.0,
        p_max: p.1,
        b_min: supply.0,
        b_max: supply.1,
    })
}

/// A node with bounds of its pressure in Pa, and one supply in l/h.
pub fn node(alloc: Global, id: &str, p: (i64, i64), supply: i64) -> Result<NodeRow, NoMemory>
    ensures { IfOk result (λ row. row.id ≡ id.now) }
{
    loose_node(alloc, id, p, (supply, supply))
}

/// An arc between nodes of these ids, with bounds of its flow in l/h.
pub fn arc(
    alloc: Global,
    id: &str,
    ends: (&str, &str),
    flow: (i64, i64),
    kind: ArcKind,
) -> Result<ArcText, NoMemory>
    ensures { IfOk result (λ row. row.id ≡ id.now) }
{
    Ok(ArcText {
        id: Name::of(alloc, id)?,
        from: Name::of(alloc, ends.0)?,
        to: Name::of(alloc, ends.1)?,
        q_min: flow.0,
        q_max: flow.1,
        kind,
    })
}

/// A decision with a word for each of these arcs.
pub fn decision(
    alloc: Global,
    id: &str,
    words: &[(&str, Allow)],
) -> Result<DecisionText, NoMemory> {
    let mut sets = List::new(alloc);
    for (arc, allow) in words {
        sets.push(SetText {
            arc: Name::of(alloc, *arc)?,
            allow: *allow,
        })?;
    }
    Ok(DecisionText {
        id: Name::of(alloc, id)?,
        sets,
    })
}

/// A group of these two decisions.
pub fn group(
    alloc: Global,
    id: &str,
    first: DecisionText,
    second: DecisionText,
) -> Result<GroupText, NoMemory> {
    let mut decisions = List::new(alloc);
    decisions.push(first)?;
    decisions.push(second)?;
    Ok(GroupText {
        id: Name::of(alloc, id)?,
        decisions,
    })
}
