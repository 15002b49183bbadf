// The table of commands, and how the one that the words ask for is carried out.
ghost use Rattle.std.specs.Prelude.{◌≡◌, ◌++◌, [], Ok, Err};
ghost use Rattle.std.specs.Result.{result_map_both};
ghost use Rattle.command_core.specs.Meanings.{Concluded};
ghost use Rattle.command_words.specs.Words.{texts};
ghost use Rattle.nomval.specs.Commands.{Ran, meaning, plain, plain_of};

use check_command::Check;
use command_core::{Status, conclude, speak};
use flatten_command::Flatten;
use gas_desk::Desk;
use make_command::Make;
use replay_command::Replay;
use solve_command::Solve;
use std::alloc::Global;

/// A command, with its words.
#[derive(Clone, Copy, Debug)]
pub enum Request<'a> {
    Solve(Solve<'a>),
    Replay(Replay<'a>),
    Check(Check<'a>),
    Flatten(Flatten<'a>),
    Make(Make<'a>),
}

/// The command that the words are, or the place where the words leave the plain form.
pub fn read_words<'a>(words: &[&'a str]) -> Result<Request<'a>, u64>
    ensures { result_map_both plain_of (λ at. at) result ≡ plain (texts words.entry.now) }
{
    let Some((name, rest)) = words.split_first() else {
        return Err(0);
    };
    match *name {
        "solve-flat" => Ok(Request::Solve(Solve::flat(rest)?)),
        "replay-flat" => Ok(Request::Replay(Replay::flat(rest)?)),
        "check-flat" => Ok(Request::Check(Check::flat(rest)?)),
        "solve" => Ok(Request::Solve(Solve::joined(rest)?)),
        "replay" => Ok(Request::Replay(Replay::joined(rest)?)),
        "check" => Ok(Request::Check(Check::joined(rest)?)),
        "flat" => Ok(Request::Flatten(Flatten::joined(rest)?)),
        "make" => Ok(Request::Make(Make::of(rest)?)),
        _ => Err(0),
    }
}

// One arm for each command.
fn execute<D: Desk>(alloc: Global, desk: &mut D, request: &Request<'_>) -> Status
    ensures { Concluded D.tells D.counts_exactly (meaning (plain_of request.now)) (D.outside desk.old) (D.outside desk.new) result }
{
    match request {
        Request::Solve(solve) => conclude(alloc, desk, solve),
        Request::Replay(replay) => conclude(alloc, desk, replay),
        Request::Check(check) => conclude(alloc, desk, check),
        Request::Flatten(flatten) => conclude(alloc, desk, flatten),
        Request::Make(make) => conclude(alloc, desk, make),
    }
}

// Carries out the command that the words are, and refuses words that aren't plain.
pub fn carry_out<D: Desk>(alloc: Global, words: &[&str], desk: &mut D) -> Status
    ensures { Ran D.tells D.counts_exactly (texts words.now) (D.outside desk.old) (D.outside desk.new) result }
{
    match read_words(words) {
        Ok(request) => execute(alloc, desk, &request),
        Err(at) => speak(alloc, desk, Status::Usage { at }, b""),
    }
}
