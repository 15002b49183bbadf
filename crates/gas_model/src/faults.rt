// The faults that name a row. Each may be want of memory in place of itself.
ghost use Rattle.std.specs.Prelude.{Some};
ghost use Rattle.gas_model.specs.Rows.{Tells};
ghost use Rattle.gas_model.specs.declared.rows.ModelFault.TheVariants as fault;

use crate::rows::ModelFault;
use base_types::Name;
use std::alloc::Global;

pub fn over_limit(alloc: Global, id: &Name) -> ModelFault
    ensures { Tells result (Some (fault.OverLimit id.now)) }
{
    match id.copy(alloc) {
        Ok(id) => ModelFault::OverLimit { id },
        Err(_) => ModelFault::NoMemory,
    }
}

pub fn twice_named(alloc: Global, id: &Name) -> ModelFault
    ensures { Tells result (Some (fault.TwiceNamed id.now)) }
{
    match id.copy(alloc) {
        Ok(id) => ModelFault::TwiceNamed { id },
        Err(_) => ModelFault::NoMemory,
    }
}

pub fn no_such_node(alloc: Global, arc: &Name, id: &Name) -> ModelFault
    ensures { Tells result (Some (fault.NoSuchNode arc.now id.now)) }
{
    match (arc.copy(alloc), id.copy(alloc)) {
        (Ok(arc), Ok(id)) => ModelFault::NoSuchNode { arc, id },
        _ => ModelFault::NoMemory,
    }
}

pub fn same_ends(alloc: Global, arc: &Name) -> ModelFault
    ensures { Tells result (Some (fault.SameEnds arc.now)) }
{
    match arc.copy(alloc) {
        Ok(arc) => ModelFault::SameEnds { arc },
        Err(_) => ModelFault::NoMemory,
    }
}

pub fn empty_group(alloc: Global, group: &Name) -> ModelFault
    ensures { Tells result (Some (fault.EmptyGroup group.now)) }
{
    match group.copy(alloc) {
        Ok(group) => ModelFault::EmptyGroup { group },
        Err(_) => ModelFault::NoMemory,
    }
}

pub fn no_such_arc(alloc: Global, group: &Name, id: &Name) -> ModelFault
    ensures { Tells result (Some (fault.NoSuchArc group.now id.now)) }
{
    match (group.copy(alloc), id.copy(alloc)) {
        (Ok(group), Ok(id)) => ModelFault::NoSuchArc { group, id },
        _ => ModelFault::NoMemory,
    }
}

pub fn not_active(alloc: Global, group: &Name, arc: &Name) -> ModelFault
    ensures { Tells result (Some (fault.NotActive group.now arc.now)) }
{
    match (group.copy(alloc), arc.copy(alloc)) {
        (Ok(group), Ok(arc)) => ModelFault::NotActive { group, arc },
        _ => ModelFault::NoMemory,
    }
}

pub fn twice_decided(alloc: Global, arc: &Name) -> ModelFault
    ensures { Tells result (Some (fault.TwiceDecided arc.now)) }
{
    match arc.copy(alloc) {
        Ok(arc) => ModelFault::TwiceDecided { arc },
        Err(_) => ModelFault::NoMemory,
    }
}
