// Where a problem comes from.
ghost use Rattle.std.specs.Prelude.{◌≡◌, [], ◌∷◌, IfOk, option_map};
ghost use Rattle.command_core.specs.Gates.{IsParsed, Reads, file_is, gate_of, stands, text_limit};
ghost use Rattle.command_core.specs.Stops.{stop_in};
ghost use Rattle.command_core.specs.declared.status.InputFile.TheVariants.{Flat};
ghost use Rattle.command_words.specs.Forms.{filled_of};
ghost use Rattle.problem_files.specs.SourceWords.{flat_origin, groups_file, joined_origin};
ghost use Rattle.problem_files.specs.Sources.{flat_problem, origin_of, problem_gates, problem_is};

use crate::four_files::FourFiles;
use command_core::{InputFault, InputFile, Stop, TEXT_LIMIT, read_input, refuse};
use command_words::Asked;
use flat_text::read_flat;
use gas_desk::Desk;
use gas_model::Problem;
use std::alloc::Global;

/// The files of a problem, by their names.
#[derive(Clone, Copy, Debug)]
pub enum Source<'a> {
    /// A flat problem.
    Flat(&'a str),
    /// Four files, which are joined.
    Joined(FourFiles<'a>),
}

// The problem that the bytes of a flat text stand for.
fn problem_in(alloc: Global, bytes: &[u8]) -> Result<Problem, Stop>
    ensures { IsParsed Flat (flat_problem bytes.now) result }
{
    match read_flat(alloc, bytes) {
        Ok(problem) => Ok(problem),
        Err(fault) => Err(refuse(InputFile::Flat, InputFault::OfFlat(fault))),
    }
}

// The problem that the flat file of this name stands for.
fn read_flat_file<D: Desk>(alloc: Global, desk: &mut D, name: &str) -> Result<Problem, Stop>
    ensures stands { D.tells → IfOk result (λ p. file_is text_limit flat_problem ((D.outside desk.old).files name.now) ≡ stands p) }
    ensures reads { Reads D.tells D.counts_exactly (gate_of Flat text_limit flat_problem name.now ∷ []) (D.outside desk.old) (D.outside desk.new) (stop_in result) }
{
    let bytes = read_input(alloc, desk, name, InputFile::Flat, TEXT_LIMIT)?;
    problem_in(alloc, bytes.as_slice())
}

// The decision file that a word names; `none` says that there is none.
fn groups_file(word: &str) -> Option<&str>
    ensures { option_map (λ name. name.now) result ≡ groups_file word.now }
{
    if word == "none" { None } else { Some(word) }
}

impl<'a> Source<'a> {
    /// The flat problem that the first word names.
    pub fn flat(asked: Asked<'a, '_>) -> Source<'a>
        ensures { origin_of result ≡ flat_origin (filled_of asked.entry) }
    {
        Source::Flat(asked.word(0))
    }

    /// The four files that the first four words name.
    pub fn joined(asked: Asked<'a, '_>) -> Source<'a>
        ensures { origin_of result ≡ joined_origin (filled_of asked.entry) }
    {
        Source::Joined(FourFiles {
            net: asked.word(0),
            scn: asked.word(1),
            cdf: groups_file(asked.word(2)),
            res: asked.word(3),
        })
    }

    /// The problem that its files stand for.
    pub fn read<D: Desk>(self, alloc: Global, desk: &mut D) -> Result<Problem, Stop>
        ensures stands { D.tells → IfOk result (λ p. problem_is (origin_of self.entry) (D.outside desk.old).files ≡ stands p) }
        ensures reads { Reads D.tells D.counts_exactly (problem_gates (origin_of self.entry)) (D.outside desk.old) (D.outside desk.new) (stop_in result) }
    {
        match self {
            Source::Flat(name) => read_flat_file(alloc, desk, name),
            Source::Joined(four) => four.read(alloc, desk),
        }
    }
}
