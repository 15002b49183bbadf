// The search of a whole problem.
ghost use Rattle.std.specs.Prelude.{pos, ◌≤◌, ◌^◌, IfOk};
ghost use Rattle.nom_search.specs.Halted.{IsAnswerOf};

use crate::searching::{Found, search};
use box_pool::Pool;
use gas_model::{NoMemory, Problem};
use std::alloc::Global;

/// Searches a problem from its root box: nothing is picked, no state is named, and all variables have their bounds. `tol` is
/// a tolerance in Pa^2, up to 10^16; at most `boxes` boxes are split, of which there are at most 16,384.
pub fn search_problem(alloc: Global, p: &Problem, tol: u64, boxes: u64) -> Result<Found, NoMemory>
    requires tol { tol ≤ 10 ^ 16 }
    requires boxes { boxes ≤ 16384 }
    ensures { IfOk result (IsAnswerOf p.now (pos tol) boxes) }
{
    let mut pool = Pool::new(alloc, p)?;
    search(alloc, p, &mut pool, tol, boxes)
}
