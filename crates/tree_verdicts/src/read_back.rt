// Texts of trees, read back.
ghost use Rattle.std.specs.Prelude.{ℕ, IfOk};
ghost use Rattle.gas_model.specs.Points.{IsInfeasible};
ghost use Rattle.tree_cert.specs.Texts.{PassesPartText, PassesWholeText};
ghost use Rattle.tree_rules.specs.Branches.{rules_of};

use gas_model::{NoMemory, Problem};
use std::alloc::Global;
use tree_check::{TreeFault, Verdict, check_tree};

/// Reads the text of a tree that passes back. Only want of memory stops it: the checker finds that it refutes.
pub fn check_whole(alloc: Global, p: &Problem, text: &[u8]) -> Result<(), NoMemory>
    requires { PassesWholeText (rules_of p.now) text.now }
    ensures { IfOk result (λ _. IsInfeasible p.now) }
{
    match check_tree(alloc, p, text) {
        Ok(Verdict::Refutes) => Ok(()),
        Ok(Verdict::Partial { .. }) => unreachable!(),
        Err(TreeFault::NoMemory) => Err(NoMemory),
        Err(_) => unreachable!(),
    }
}

/// Reads the text of a tree that passes but for open boxes back. Only want of memory stops it: the checker finds it partial.
pub fn check_part(alloc: Global, p: &Problem, open_text: &[u8]) -> Result<(), NoMemory>
    requires { (first : ℕ) × PassesPartText (rules_of p.now) open_text.now first }
{
    match check_tree(alloc, p, open_text) {
        Ok(Verdict::Partial { .. }) => Ok(()),
        Ok(Verdict::Refutes) => unreachable!(),
        Err(TreeFault::NoMemory) => Err(NoMemory),
        Err(_) => unreachable!(),
    }
}
