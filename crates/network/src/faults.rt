// The faults of joining that name a thing. Each may be want of memory in place of itself.
ghost use Rattle.std.specs.Prelude.{◌≡◌, Some};
ghost use Rattle.network.specs.Faults.{Tells};
ghost use Rattle.problem_faults.specs.declared.join.JoinFault.TheVariants as fault;

use gas_model::Name;
use problem_faults::JoinFault;
use std::alloc::Global;

pub fn no_such_node(alloc: Global, id: &Name) -> JoinFault
    ensures { Tells result (Some (fault.NoSuchNode id.now)) }
{
    match id.copy(alloc) {
        Ok(id) => JoinFault::NoSuchNode { id },
        Err(_) => JoinFault::NoMemory,
    }
}

pub fn wrong_type(alloc: Global, id: &Name) -> JoinFault
    ensures { Tells result (Some (fault.WrongType id.now)) }
{
    match id.copy(alloc) {
        Ok(id) => JoinFault::WrongType { id },
        Err(_) => JoinFault::NoMemory,
    }
}

pub fn twice_nominated(alloc: Global, id: &Name) -> JoinFault
    ensures { Tells result (Some (fault.TwiceNominated id.now)) }
{
    match id.copy(alloc) {
        Ok(id) => JoinFault::TwiceNominated { id },
        Err(_) => JoinFault::NoMemory,
    }
}

pub fn no_resistance(alloc: Global, arc: &Name) -> JoinFault
    ensures { Tells result (Some (fault.NoResistance arc.now)) }
{
    match arc.copy(alloc) {
        Ok(arc) => JoinFault::NoResistance { arc },
        Err(_) => JoinFault::NoMemory,
    }
}

pub fn no_station(alloc: Global, arc: &Name) -> JoinFault
    ensures { Tells result (Some (fault.NoStation arc.now)) }
{
    match arc.copy(alloc) {
        Ok(arc) => JoinFault::NoStation { arc },
        Err(_) => JoinFault::NoMemory,
    }
}
