// What the work on boxes takes along: the queue of laws, the text of the tree so far, and what is left of the budgets.
ghost use Rattle.std.specs.Prelude.{◌≡◌, ◌+◌, true, length, IfOk};
ghost use Rattle.tree_cert.specs.Spelling.{has_ordered_cut};
ghost use Rattle.tree_cert.specs.declared.line.Line.TheVariants as lines;

use box_pool::first_line;
use gas_model::{Bytes, NoMemory, Problem};
use stable_sweep::LawQueue;
use std::alloc::Global;
use tree_cert::{Closing, Line, Step, write_line};
use tree_pool::BranchBy;

// So many nodes and arcs of children are settled for trial, at most.
const MOST_TRIED: u64 = 20_000_000;

/// The tools: `splits` and `tried` are what may still be split, and what may still be settled for trial, in nodes and
/// arcs.
#[derive(Drop)]
pub struct Tools {
    pub queue: LawQueue,
    pub text: Bytes,
    pub splits: u64,
    pub tried: u64,
}

impl Tools {
    /// The tools for a problem, of which so many boxes may be split, with the first line of a tree.
    pub fn new(alloc: Global, p: &Problem, splits: u64) -> Result<Tools, NoMemory>
        ensures { IfOk result (λ t. t.queue.size ≡ length p.now.nodes + length p.now.arcs) }
    {
        let size = (p.nodes().len() + p.arcs().len()) as u32;
        let queue = LawQueue::new(alloc, size)?;
        let mut text = Bytes::new(alloc);
        write_line(&first_line(), &mut text)?;
        Ok(Tools {
            queue,
            text,
            splits,
            tried: MOST_TRIED,
        })
    }

    /// Takes one split; `false` where none is left.
    pub fn take_split(&mut self) -> bool
        ensures { self.new.queue ≡ self.old.queue }
    {
        let has = self.splits > 0;
        self.splits = self.splits.saturating_sub(1);
        has
    }

    /// Takes a trial over a problem; `false` where none is left.
    pub fn take_trial(&mut self, p: &Problem) -> bool
        ensures { self.new.queue ≡ self.old.queue }
    {
        let size = (p.nodes().len() as u64).saturating_add(p.arcs().len() as u64);
        let has = self.tried > 0;
        self.tried = self.tried.saturating_sub(size);
        has
    }

    /// Writes a line that is no cut.
    pub fn write(&mut self, line: &Line) -> Result<(), NoMemory>
        requires { has_ordered_cut line.now ≡ true }
        ensures { self.new.queue ≡ self.old.queue }
    {
        write_line(line, &mut self.text)
    }

    /// Writes steps.
    pub fn write_steps(&mut self, steps: &[Step]) -> Result<(), NoMemory>
        ensures { self.new.queue ≡ self.old.queue }
    {
        for step in steps {
            self.write(&Line::Step(*step))?;
        }
        Ok(())
    }

    /// Writes by what a box is split.
    pub fn write_branch(&mut self, by: BranchBy) -> Result<(), NoMemory>
        ensures { self.new.queue ≡ self.old.queue }
    {
        match by {
            BranchBy::Group(group) => self.write(&Line::Group(group)),
            BranchBy::Arc(arc) => self.write(&Line::Arc(arc)),
            BranchBy::Halves(var) => self.write(&Line::Halve(var)),
        }
    }

    /// Writes a closing.
    pub fn write_closing(&mut self, closing: Closing) -> Result<(), NoMemory>
        requires { has_ordered_cut (lines.Close closing) ≡ true }
        ensures { self.new.queue ≡ self.old.queue }
    {
        self.write(&Line::Close(closing))
    }
}
