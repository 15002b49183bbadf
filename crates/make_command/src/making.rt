// The command: a number in, the flat text of its problem out, and what is found for it.
ghost use Rattle.std.specs.Prelude.{◌≡◌, ◌++◌, true, IfOk, OnOk};
ghost use Rattle.std.specs.Result.{result_map_both};
ghost use Rattle.make_net.specs.Answer.{is_count};
ghost use Rattle.command_words.specs.Words.{texts};
ghost use Rattle.make_command.specs.Meaning.{IsMadeOf, found_word, made_line, make_meaning, make_says};
ghost use Rattle.make_command.specs.Words.{make_asks, words_of};

use command_core::{Command, Done, Status, Stop};
use command_words::{Budget, Count, Form, Offer, Part, Tolerance, read_form};
use flat_text::write_flat;
use gas_desk::Desk;
use gas_model::{Bytes, NoMemory, Problem};
use line_text::{put_long, put_position};
use make_net::{MakeFault, make};
use problem_answer::{Answer, answer_of};
use std::alloc::Global;
use std::slice;

/// The command, with its words.
#[derive(Clone, Copy, Debug)]
pub struct Make<'a> {
    pub count: Count,
    pub out: &'a str,
}

// N OUT
const FORM: Form = Form {
    parts: &[Part::Number, Part::File],
    options: Offer::NoOption,
};

impl<'a> Make<'a> {
    /// By the words after `make`, or the place where they leave its form.
    pub fn of(words: &[&'a str]) -> Result<Make<'a>, u64>
        ensures { result_map_both words_of (λ at. at) result ≡ make_asks (texts words.entry.now) }
    {
        let asked = read_form(FORM, words)?;
        Ok(Make {
            count: asked.count(),
            out: asked.word(1),
        })
    }
}

// The problem of so many nodes.
fn made_problem(alloc: Global, count: u32) -> Result<Problem, NoMemory>
    requires { is_count count ≡ true }
    ensures { IfOk result (λ p. IsMadeOf count p) }
{
    match make(alloc, count) {
        Ok(problem) => Ok(problem),
        Err(MakeFault::NoMemory) => Err(NoMemory),
        Err(MakeFault::OutOfRange) => unreachable!(),
    }
}

fn found_word(answer: &Answer) -> &'static [u8]
    ensures { result.now ≡ found_word answer.now }
{
    match answer {
        Answer::Carried(_) => b"accepted",
        Answer::Refuted(_) => b"rejected",
        Answer::Left { .. } => b"undecided",
    }
}

// How many nodes and arcs the problem has, and what was found for it.
fn put_line(line: &mut Bytes, count: u32, p: &Problem, answer: &Answer) -> Result<(), NoMemory>
    ensures { OnOk result (line.new ≡ line.old ++ made_line count p.now answer.now) }
{
    line.append(b"made nodes ")?;
    put_position(line, count)?;
    line.append(b" arcs ")?;
    put_long(line, p.arcs().len() as i128)?;
    line.append(b" ")?;
    line.append(found_word(answer))
}

// The flat text of a made problem, and what is found for it where nothing is said of a tolerance and of boxes.
fn put_made(alloc: Global, count: u32, p: &Problem) -> Result<Done, NoMemory>
    ensures { IfOk result (λ done. make_says count p.now done.status done.note done.texts) }
{
    let answer = answer_of(alloc, p, Tolerance::usual().get(), Budget::usual().get())?;
    let text = write_flat(alloc, p)?;
    let mut done = Done::written(alloc, Status::Written, text)?;
    put_line(&mut done.note, count, p, &answer)?;
    Ok(done)
}

impl<'a> Command for Make<'a> {
    ghost meaning = { λ make. make_meaning (words_of make) };

    fn outs(&self) -> &[&str] {
        slice::from_ref(&self.out)
    }

    fn work<D: Desk>(&self, alloc: Global, _desk: &mut D) -> Result<Done, Stop> {
        let count = self.count.get();
        let problem = made_problem(alloc, count)?;
        let done = put_made(alloc, count, &problem)?;
        Ok(done)
    }
}
