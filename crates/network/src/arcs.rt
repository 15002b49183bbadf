// Connections as arcs, with the numbers of their rows in the table.
ghost use Rattle.std.specs.Prelude.{◌≡◌, None, Some, IfOk, IfErr, OnOk, map};
ghost use Rattle.network.specs.Faults.{Tells};
ghost use Rattle.network.specs.Table.{row_of, drag, kind_with, kind_of, missing_row, arc_fault, arcs_fault, arc_text};
ghost use Rattle.network.specs.Tables.{look_row};

use crate::faults::{no_resistance, no_station};
use crate::table::{Numbers, Table, find_row, row_word};
use gas_model::{ArcKind, ArcText, Drag, List};
use net_reader::{ArcWord, NetArc};
use problem_faults::JoinFault;
use std::alloc::Global;

// The numbers of the row that a connection takes.
fn row_of(table: &Table<'_>, arc: &NetArc) -> Option<Numbers>
    ensures { result ≡ row_of (look_row table.now) arc.now }
{
    match row_word(arc.word) {
        Some(word) => find_row(table, word, arc.id.as_str()),
        None => None,
    }
}

fn drag(n: Numbers) -> Drag
    ensures { result ≡ drag n }
{
    Drag {
        lo: n.a,
        hi: n.b,
        den: n.c,
    }
}

// What a connection is, with the numbers of its row.
fn kind_with(word: ArcWord, row: Option<Numbers>) -> Option<ArcKind>
    ensures { result ≡ kind_with word row }
{
    match word {
        ArcWord::Pipe => row.map(|n| ArcKind::Pipe { law: drag(n) }),
        ArcWord::Short => Some(ArcKind::Short),
        ArcWord::Resistor { loss: None } => row.map(|n| ArcKind::Resist { law: drag(n) }),
        ArcWord::Resistor {
            loss: Some((low, high)),
        } => Some(ArcKind::Loss { low, high }),
        ArcWord::Valve => Some(ArcKind::Valve),
        ArcWord::Control {
            in_min,
            out_max,
            red_min,
            red_max,
        } => Some(ArcKind::Control {
            in_min,
            out_max,
            red_min,
            red_max,
        }),
        ArcWord::Station { in_min, out_max } => row.map(|n| ArcKind::Station {
            in_min,
            out_max,
            ratio_num: n.a,
            ratio_den: n.b,
            rise_max: n.c,
        }),
    }
}

fn missing_row(alloc: Global, arc: &NetArc) -> JoinFault
    ensures { Tells result (Some (missing_row arc.now.word arc.now.id)) }
{
    match arc.word {
        ArcWord::Station { .. } => no_station(alloc, &arc.id),
        _ => no_resistance(alloc, &arc.id),
    }
}

fn arc_text(alloc: Global, table: &Table<'_>, arc: &NetArc) -> Result<ArcText, JoinFault>
    ensures text { IfOk result (λ text. text ≡ arc_text (look_row table.now) arc.now) }
    ensures clean { OnOk result (arc_fault (look_row table.now) arc.now ≡ None) }
    ensures err { IfErr result (λ e. Tells e (arc_fault (look_row table.now) arc.now)) }
{
    let Some(kind) = kind_with(arc.word, row_of(table, arc)) else {
        return Err(missing_row(alloc, arc));
    };
    Ok(ArcText {
        id: arc.id.copy(alloc)?,
        from: arc.from.copy(alloc)?,
        to: arc.to.copy(alloc)?,
        q_min: arc.q_min,
        q_max: arc.q_max,
        kind,
    })
}

/// All connections as arcs, or the first that hasn't its row.
pub fn arc_texts(
    alloc: Global,
    table: &Table<'_>,
    arcs: &[NetArc],
) -> Result<List<ArcText>, JoinFault>
    ensures texts { IfOk result (λ texts. texts ≡ map (arc_text (look_row table.now)) arcs.now) }
    ensures clean { OnOk result (arcs_fault (look_row table.now) arcs.now ≡ None) }
    ensures err { IfErr result (λ e. Tells e (arcs_fault (look_row table.now) arcs.now)) }
{
    let mut texts = List::new(alloc);
    for arc in arcs {
        texts.push(arc_text(alloc, table, arc)?)?;
    }
    Ok(texts)
}
