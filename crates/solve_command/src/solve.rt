// The command: a problem in, a setting or a refutation tree out.
ghost use Rattle.std.specs.Prelude.{◌≡◌, ◌≤◌, IfOk};
ghost use Rattle.std.specs.Result.{result_map_both};
ghost use Rattle.command_words.specs.Budgets.{most_budget};
ghost use Rattle.command_words.specs.Tolerances.{most_tolerance};
ghost use Rattle.command_words.specs.Words.{texts};
ghost use Rattle.solve_command.specs.Meaning.{solve_meaning, solve_says};
ghost use Rattle.solve_command.specs.Words.{solve_flat_asks, solve_asks, words_of};

use command_core::{Command, Done, Status, Stop};
use command_words::{Budget, Form, Offer, Part, Tolerance, read_form};
use gas_desk::Desk;
use gas_model::{NoMemory, Problem};
use problem_answer::{Answer, answer_of};
use problem_files::Source;
use std::alloc::Global;
use std::slice;

/// The command, with its words.
#[derive(Clone, Copy, Debug)]
pub struct Solve<'a> {
    pub source: Source<'a>,
    pub out: &'a str,
    pub tol: Tolerance,
    pub boxes: Budget,
}

// PROBLEM OUT [--tol n] [--boxes n]
const FLAT_FORM: Form = Form {
    parts: &[Part::File, Part::File],
    options: Offer::TolAndBoxes,
};

// NET SCN CDF RES OUT [--tol n] [--boxes n]
const JOINED_FORM: Form = Form {
    parts: &[Part::File, Part::File, Part::File, Part::File, Part::File],
    options: Offer::TolAndBoxes,
};

impl<'a> Solve<'a> {
    /// By the words after `solve-flat`, or the place where they leave its form.
    pub fn flat(words: &[&'a str]) -> Result<Solve<'a>, u64>
        ensures { result_map_both words_of (λ at. at) result ≡ solve_flat_asks (texts words.entry.now) }
    {
        let asked = read_form(FLAT_FORM, words)?;
        Ok(Solve {
            source: Source::flat(asked),
            out: asked.word(1),
            tol: asked.tolerance(),
            boxes: asked.budget(),
        })
    }

    /// By the words after `solve`.
    pub fn joined(words: &[&'a str]) -> Result<Solve<'a>, u64>
        ensures { result_map_both words_of (λ at. at) result ≡ solve_asks (texts words.entry.now) }
    {
        let asked = read_form(JOINED_FORM, words)?;
        Ok(Solve {
            source: Source::joined(asked),
            out: asked.word(4),
            tol: asked.tolerance(),
            boxes: asked.budget(),
        })
    }
}

// What is found for the problem, as it is said and written.
fn decided(alloc: Global, p: &Problem, tol: u64, boxes: u64) -> Result<Done, NoMemory>
    requires tol { tol ≤ most_tolerance }
    requires boxes { boxes ≤ most_budget }
    ensures { IfOk result (λ done. solve_says tol boxes p.now done.status done.note done.texts) }
{
    match answer_of(alloc, p, tol, boxes)? {
        Answer::Carried(text) => Done::written(alloc, Status::Accepted, text),
        Answer::Refuted(text) => Done::written(alloc, Status::Rejected, text),
        Answer::Left { why, text, line } => {
            Done::counted(alloc, Status::Undecided(why), text, line)
        }
    }
}

impl<'a> Command for Solve<'a> {
    ghost meaning = { λ solve. solve_meaning (words_of solve) };

    fn outs(&self) -> &[&str] {
        slice::from_ref(&self.out)
    }

    fn work<D: Desk>(&self, alloc: Global, desk: &mut D) -> Result<Done, Stop> {
        let problem = self.source.read(alloc, desk)?;
        let done = decided(alloc, &problem, self.tol.get(), self.boxes.get())?;
        Ok(done)
    }
}
