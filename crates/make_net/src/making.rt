// The problem of a number.
ghost use Rattle.std.specs.Prelude.{◌≡◌, ◌<◌, IfOk, Ok, is_ok, true};
ghost use Rattle.gas_model.specs.Rows.{problem_of};
ghost use Rattle.gas_model.specs.declared.rows.ModelFault.TheVariants as model_fault;
ghost use Rattle.make_net.specs.Made.{made_rows};
ghost use Rattle.make_net.specs.Answer.{is_count, IsMade};
ghost use Rattle.make_net.specs.declared.making.MakeFault.TheVariants as fault;

use crate::arcs::made_arcs;
use crate::groups::made_groups;
use crate::nodes::made_nodes;
use gas_model::{ModelFault, NoMemory, Problem, Rows};
use std::alloc::Global;

/// The greatest number of nodes.
const MOST: u32 = 2000;

/// Why no problem is made.
#[derive(Clone, Copy, Debug, PartialEq, Eq)]
pub enum MakeFault {
    /// The number isn't from 1 to 2,000.
    OutOfRange,
    /// Memory could not be had.
    NoMemory,
}

impl From<NoMemory> for MakeFault {
    ghost from_gives = { λ _ e. e ≡ fault.NoMemory };

    fn from(_: NoMemory) -> MakeFault {
        MakeFault::NoMemory
    }
}

/// Whether there is a problem of so many nodes: of 1 to 2,000.
pub fn is_count(count: u32) -> bool
    ensures { result ≡ is_count count }
{
    1 <= count && count <= MOST
}

/// The rows of so many nodes.
fn made_rows(alloc: Global, count: u32) -> Result<Rows, NoMemory>
    requires { 0 < count }
    ensures { IfOk result (λ rows. rows ≡ made_rows count) }
{
    Ok(Rows {
        nodes: made_nodes(alloc, count)?,
        arcs: made_arcs(alloc, count)?,
        groups: made_groups(alloc, count)?,
    })
}

/// The want of memory that a fault of making is.
fn want_of(why: ModelFault) -> NoMemory
    requires { why ≡ model_fault.NoMemory }
{
    NoMemory
}

/// The problem of rows that make one, for which only memory may be wanting.
fn problem_of(alloc: Global, rows: Rows) -> Result<Problem, NoMemory>
    requires { is_ok (problem_of rows) ≡ true }
    ensures { IfOk result (λ p. problem_of rows ≡ Ok p) }
{
    match Problem::make(alloc, rows) {
        Ok(problem) => Ok(problem),
        Err(why) => Err(want_of(why)),
    }
}

/// A problem of `count` nodes in a line, from 1 to 2,000. A valve leads from the first node to the second, and a pipe
/// from each other one to the next, with a resistance between 1 and 2 Pa^2 per (l/h)^2. The first node brings in
/// what all the others take out, 1 l/h each. One group decides whether the valve is shut or open. A single node has
/// no arc and no group.
pub fn make(alloc: Global, count: u32) -> Result<Problem, MakeFault>
    ensures { IsMade count result }
{
    if !is_count(count) {
        return Err(MakeFault::OutOfRange);
    }
    let rows = made_rows(alloc, count)?;
    Ok(problem_of(alloc, rows)?)
}
