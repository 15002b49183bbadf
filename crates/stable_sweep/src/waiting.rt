// The laws that a variable wakes.
ghost use Rattle.std.specs.Prelude.{◌≡◌, ◌<◌, ◌+◌, length, true, IsTrue, if◌then◌else◌};
ghost use Rattle.base_types.specs.declared.variables.Var.TheVariants as var;
ghost use Rattle.gas_model.specs.Boxes.{is_var};
ghost use Rattle.gas_model.specs.Choices.{PartFits};
ghost use Rattle.tree_rules.specs.declared.arc_vars.ArcVar.TheVariants.{OfFlow, OfFrom};
ghost use Rattle.link_queue.specs.Queue.{holds};
ghost use Rattle.tight_steps.specs.Moves.{is_law};
ghost use Rattle.tight_steps.specs.Mentions.{form_mentions};
ghost use Rattle.stable_sweep.specs.Waiting.{slot, arc_mentions, IsFew, KeepsHeld, PutsArc, PutsBack};

use crate::law_queue::LawQueue;
use box_rules::fixed_form;
use gas_model::{LawForm, PartState, Problem, Var};
use tight_steps::Law;

/// The law in a slot: the nodes' in order, and then the arcs'.
pub fn law_in(p: &Problem, place: u32) -> Law
    requires { place < length p.now.nodes + length p.now.arcs }
    ensures law { is_law (length p.now.nodes) (length p.now.arcs) result }
    ensures slot { slot (length p.now.nodes) result ≡ place }
{
    let nodes = p.nodes().len() as u32;
    if place < nodes {
        Law::AtNode(place)
    } else {
        Law::AtArc(place - nodes)
    }
}

// Puts a slot at the back, but for that of the law that is tried.
fn put(queue: &mut LawQueue, slot: u32, current: u32)
    requires slot { slot < queue.old.size }
    requires few { IsFew queue.old }
    ensures size { queue.new.size ≡ queue.old.size }
    ensures few { IsFew queue.new }
    ensures kept { KeepsHeld queue.old.held queue.new.held }
    ensures put { (slot ≡ current → ⊥) → holds slot queue.new.held ≡ true }
{
    if slot != current {
        queue.put(slot);
    }
}

// Whether the law of an arc mentions its flow, or else its squares.
fn form_mentions(form: &LawForm, flow: bool) -> bool
    ensures { result ≡ form_mentions form.now (if flow then OfFlow else OfFrom) }
{
    match form {
        LawForm::Equals => !flow,
        LawForm::Shuts => flow,
        LawForm::Never => false,
        LawForm::Drags(_)
        | LawForm::Loses { .. }
        | LawForm::Reduces { .. }
        | LawForm::Raises { .. } => true,
    }
}

// Whether the law of an arc, if its state is fixed, mentions its flow, or else its squares.
fn arc_mentions(p: &Problem, state: &PartState, arc: u32, flow: bool) -> bool
    requires part { PartFits p.now state.now }
    requires arc { arc < length p.now.arcs }
    ensures { result ≡ arc_mentions p.now state.now arc flow }
{
    match fixed_form(p, state, arc, &p.arcs()[arc as usize]) {
        None => false,
        Some(form) => form_mentions(&form, flow),
    }
}

// Puts back the law of an arc, unless it is the one that is tried, where it mentions the flow, or else the squares.
fn put_back_arc(
    p: &Problem,
    state: &PartState,
    queue: &mut LawQueue,
    arc: u32,
    flow: bool,
    current: u32,
)
    requires part { PartFits p.now state.now }
    requires arc { arc < length p.now.arcs }
    requires size { queue.old.size ≡ length p.now.nodes + length p.now.arcs }
    requires few { IsFew queue.old }
    ensures size { queue.new.size ≡ queue.old.size }
    ensures few { IsFew queue.new }
    ensures kept { KeepsHeld queue.old.held queue.new.held }
    ensures put { PutsArc p.now state.now flow current arc queue.new.held }
{
    if arc_mentions(p, state, arc, flow) {
        put(queue, p.nodes().len() as u32 + arc, current);
    }
}

// Puts back each other law that mentions the flow of an arc.
fn put_back_flow(p: &Problem, state: &PartState, queue: &mut LawQueue, arc: u32, current: u32)
    requires part { PartFits p.now state.now }
    requires arc { arc < length p.now.arcs }
    requires size { queue.old.size ≡ length p.now.nodes + length p.now.arcs }
    requires few { IsFew queue.old }
    ensures size { queue.new.size ≡ queue.old.size }
    ensures few { IsFew queue.new }
    ensures kept { KeepsHeld queue.old.held queue.new.held }
    ensures put { PutsBack p.now state.now (var.Flow arc) current queue.new.held }
{
    let row = &p.arcs()[arc as usize];
    let first = row.from.min(row.to);
    let second = row.from.max(row.to);
    put(queue, first, current);
    put(queue, second, current);
    put_back_arc(p, state, queue, arc, true, current);
}

// Puts back each other law that mentions the square of a node.
fn put_back_square(p: &Problem, state: &PartState, queue: &mut LawQueue, node: u32, current: u32)
    requires part { PartFits p.now state.now }
    requires node { node < length p.now.nodes }
    requires size { queue.old.size ≡ length p.now.nodes + length p.now.arcs }
    requires few { IsFew queue.old }
    ensures size { queue.new.size ≡ queue.old.size }
    ensures few { IsFew queue.new }
    ensures kept { KeepsHeld queue.old.held queue.new.held }
    ensures put { PutsBack p.now state.now (var.Square node) current queue.new.held }
{
    for arc in p.arcs_at(node) {
        put_back_arc(p, state, queue, *arc, false, current);
    }
}

/// Puts back each other law that mentions the variable, in the order of their slots.
pub fn put_back(p: &Problem, state: &PartState, queue: &mut LawQueue, var: Var, current: u32)
    requires part { PartFits p.now state.now }
    requires var { IsTrue (is_var p.now var) }
    requires size { queue.old.size ≡ length p.now.nodes + length p.now.arcs }
    requires few { IsFew queue.old }
    ensures size { queue.new.size ≡ queue.old.size }
    ensures few { IsFew queue.new }
    ensures kept { KeepsHeld queue.old.held queue.new.held }
    ensures put { PutsBack p.now state.now var current queue.new.held }
{
    match var {
        Var::Flow(arc) => put_back_flow(p, state, queue, arc, current),
        Var::Square(node) => put_back_square(p, state, queue, node, current),
    }
}
