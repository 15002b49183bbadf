// What is tried, and in what order.
ghost use Rattle.std.specs.Prelude.{◌≡◌, ◌≤◌, ◌^◌, IfOk, IfSome};
ghost use Rattle.decide.specs.Decided.{IsDecided};

use gas_model::{NoMemory, Problem};
use look_ahead::look_ahead;
use nom_search::{Found, search_problem};
use proposer::propose;
use std::alloc::Global;

// So many boxes the first search may split.
const SHORT: u64 = 64;

// What is found beside the search of boxes.
fn found_beside(alloc: Global, p: &Problem, tol: u64, boxes: u64) -> Result<Option<Found>, NoMemory>
    requires { tol ≤ 10 ^ 16 }
    ensures { IfOk result (λ o. IfSome o (IsDecided p.now tol boxes)) }
{
    if let Some(setting) = propose(alloc, p, tol)? {
        return Ok(Some(Found::Carried(setting)));
    }
    match look_ahead(alloc, p, boxes)? {
        Some(text) => Ok(Some(Found::Refuted(text))),
        None => Ok(None),
    }
}

// What a search finds with this budget.
#[tactic(auto, using(crate::proofs::Decided::is_decided))]
fn searched(alloc: Global, p: &Problem, tol: u64, boxes: u64) -> Result<Found, NoMemory>
    requires tol { tol ≤ 10 ^ 16 }
    requires boxes { boxes ≤ 16384 }
    ensures { IfOk result (IsDecided p.now tol boxes) }
{
    search_problem(alloc, p, tol, boxes)
}

// What is found after the first search, which halted with this.
fn found_after(
    alloc: Global,
    p: &Problem,
    tol: u64,
    boxes: u64,
    first: Found,
) -> Result<Found, NoMemory>
    requires tol { tol ≤ 10 ^ 16 }
    requires boxes { boxes ≤ 16384 }
    requires first { boxes ≤ 64 → IsDecided p.now tol boxes first }
    ensures { IfOk result (IsDecided p.now tol boxes) }
{
    match found_beside(alloc, p, tol, boxes)? {
        Some(found) => Ok(found),
        None => {
            if boxes > SHORT {
                searched(alloc, p, tol, boxes)
            } else {
                Ok(first)
            }
        }
    }
}

/// Searches a problem for a setting that carries it within `tol`, in Pa^2, up to 10^16, or for a tree that refutes it. In this
/// order: the search of boxes with at most 64 splits; settings that are proposed whole; a freer tree that looks ahead, with at
/// most `boxes` splits, and never more than 1,024; the search of boxes with all of `boxes`, of which there are at most 16,384.
/// What is left undecided is as that last search leaves it.
pub fn decide(alloc: Global, p: &Problem, tol: u64, boxes: u64) -> Result<Found, NoMemory>
    requires tol { tol ≤ 10 ^ 16 }
    requires boxes { boxes ≤ 16384 }
    ensures { IfOk result (IsDecided p.now tol boxes) }
{
    match searched(alloc, p, tol, boxes.min(SHORT))? {
        Found::Carried(setting) => Ok(Found::Carried(setting)),
        Found::Refuted(text) => Ok(Found::Refuted(text)),
        Found::Left { why, tree, line } => {
            let first = Found::Left { why, tree, line };
            found_after(alloc, p, tol, boxes, first)
        }
    }
}
