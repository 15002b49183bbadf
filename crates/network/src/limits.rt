// The greatest pressures that pipes leave their nodes.
ghost use Rattle.std.specs.Prelude.{◌≡◌, ℕ, List, Some, IfOk, OnOk, if◌then◌else◌};
ghost use Rattle.name_places.specs.ByName.{look};
ghost use Rattle.std.specs.Str.{bytes_eq};
ghost use Rattle.network.specs.Nodes.{tighter, is_pipe, is_pipe_at, pipe_limit};

use gas_model::NoMemory;
use name_places::{ByName, no_values, set_value, value_of};
use net_reader::{ArcWord, NetArc};
use std::alloc::Global;

fn is_pipe(word: ArcWord) -> bool
    ensures { result ≡ is_pipe word }
{
    matches!(word, ArcWord::Pipe)
}

/// The lesser of a limit, if there is one, and a value.
pub fn tighter(limit: Option<i64>, value: i64) -> i64
    ensures { result ≡ tighter limit value }
{
    match limit {
        Some(limit) => limit.min(value),
        None => value,
    }
}

// Gives a name a value, where it has none or a greater one.
fn lower<'a>(limits: &mut ByName<'a, i64>, name: &'a str, value: i64) -> Result<(), NoMemory>
    ensures { OnOk result ((id : List ℕ) → look limits.new id ≡ (if bytes_eq id name.now then Some (tighter (look limits.old id) value) else look limits.old id)) }
{
    let lesser = tighter(value_of(limits, name), value);
    set_value(limits, name, lesser)
}

// Takes in the limit of a connection, if it is a pipe, at both of its ends.
fn add_limit<'a>(limits: &mut ByName<'a, i64>, arc: &'a NetArc) -> Result<(), NoMemory>
    ensures { OnOk result ((id : List ℕ) → look limits.new id ≡ (if is_pipe_at id arc.now then Some (tighter (look limits.old id) arc.now.p_max) else look limits.old id)) }
{
    if is_pipe(arc.word) {
        lower(limits, arc.from.as_str(), arc.p_max)?;
        lower(limits, arc.to.as_str(), arc.p_max)?;
    }
    Ok(())
}

/// The least of the limits of the pipes at each node that has any.
pub fn pipe_limits(alloc: Global, arcs: &[NetArc]) -> Result<ByName<'_, i64>, NoMemory>
    ensures { IfOk result (λ limits. look limits ≡ pipe_limit arcs.now) }
{
    let mut limits = no_values(alloc);
    for arc in arcs {
        add_limit(&mut limits, arc)?;
    }
    Ok(limits)
}
