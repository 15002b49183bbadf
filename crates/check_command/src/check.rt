// The command: a problem and a tree in, and whether the tree refutes it.
ghost use Rattle.std.specs.Prelude.{◌≡◌, ℕ, List, Err, IfOk};
ghost use Rattle.std.specs.Result.{result_map_both};
ghost use Rattle.gas_model.specs.Rows.{Network};
ghost use Rattle.tree_check.specs.Verdicts.{Answers};
ghost use Rattle.check_command.specs.Meaning.{IsVerdict, check_meaning, check_says};
ghost use Rattle.check_command.specs.Words.{check_flat_asks, check_asks, words_of};
ghost use Rattle.command_words.specs.Words.{texts};

use command_core::{Command, Done, InputFile, NotFault, Status, Stop, TEXT_LIMIT, read_input};
use command_words::{Form, Offer, Part, read_form};
use gas_desk::Desk;
use gas_model::{Bytes, NoMemory, Problem};
use problem_files::Source;
use std::alloc::Global;
use tree_cert::TreeFault;
use tree_check::{Verdict, check_tree};

/// The command, with its words.
#[derive(Clone, Copy, Debug)]
pub struct Check<'a> {
    pub source: Source<'a>,
    pub tree: &'a str,
}

// PROBLEM TREE
const FLAT_FORM: Form = Form {
    parts: &[Part::File, Part::File],
    options: Offer::NoOption,
};

// NET SCN CDF RES TREE
const JOINED_FORM: Form = Form {
    parts: &[Part::File, Part::File, Part::File, Part::File, Part::File],
    options: Offer::NoOption,
};

impl<'a> Check<'a> {
    /// By the words after `check-flat`, or the place where they leave its form.
    pub fn flat(words: &[&'a str]) -> Result<Check<'a>, u64>
        ensures { result_map_both words_of (λ at. at) result ≡ check_flat_asks (texts words.entry.now) }
    {
        let asked = read_form(FLAT_FORM, words)?;
        Ok(Check {
            source: Source::flat(asked),
            tree: asked.word(1),
        })
    }

    /// By the words after `check`.
    pub fn joined(words: &[&'a str]) -> Result<Check<'a>, u64>
        ensures { result_map_both words_of (λ at. at) result ≡ check_asks (texts words.entry.now) }
    {
        let asked = read_form(JOINED_FORM, words)?;
        Ok(Check {
            source: Source::joined(asked),
            tree: asked.word(4),
        })
    }
}

// What a fault that the checker finds says of the text.
fn refused(fault: TreeFault) -> Result<Status, NoMemory>
    ensures { (p : Network) (text : List ℕ) → Answers p text (Err fault) → IfOk result (IsVerdict p text) }
{
    match fault {
        TreeFault::NoMemory => Err(NoMemory),
        _ => Ok(Status::NotRefutation(NotFault::Tree(fault))),
    }
}

// What the checker finds.
fn verdict_of(alloc: Global, p: &Problem, text: &[u8]) -> Result<Status, NoMemory>
    ensures { IfOk result (IsVerdict p.now text.now) }
{
    match check_tree(alloc, p, text) {
        Ok(Verdict::Refutes) => Ok(Status::Passes),
        Ok(Verdict::Partial { first_open }) => Ok(Status::NotRefutation(NotFault::Left {
            line: first_open,
        })),
        Err(fault) => refused(fault),
    }
}

// Whether the text refutes the problem.
fn judge(alloc: Global, p: &Problem, text: &[u8]) -> Result<Done, NoMemory>
    ensures { IfOk result (λ done. check_says p.now text.now done.status done.note done.texts) }
{
    let status = verdict_of(alloc, p, text)?;
    Ok(Done::said(alloc, status, Bytes::new(alloc)))
}

impl<'a> Command for Check<'a> {
    ghost meaning = { λ check. check_meaning (words_of check) };

    fn outs(&self) -> &[&str] {
        &[]
    }

    fn work<D: Desk>(&self, alloc: Global, desk: &mut D) -> Result<Done, Stop> {
        let problem = self.source.read(alloc, desk)?;
        let tree = read_input(alloc, desk, self.tree, InputFile::TreeFile, TEXT_LIMIT)?;
        let done = judge(alloc, &problem, tree.as_slice())?;
        Ok(done)
    }
}
