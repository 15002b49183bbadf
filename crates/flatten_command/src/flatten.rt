// The command: a problem in, and its flat text out.
ghost use Rattle.std.specs.Prelude.{◌≡◌, IfOk};
ghost use Rattle.std.specs.Result.{result_map_both};
ghost use Rattle.command_words.specs.Words.{texts};
ghost use Rattle.flatten_command.specs.Meaning.{flatten_meaning, flatten_says};
ghost use Rattle.flatten_command.specs.Words.{flatten_asks, words_of};

use command_core::{Command, Done, Status, Stop};
use command_words::{Form, Offer, Part, read_form};
use flat_text::write_flat;
use gas_desk::Desk;
use gas_model::{NoMemory, Problem};
use problem_files::Source;
use std::alloc::Global;
use std::slice;

/// The command, with its words.
#[derive(Clone, Copy, Debug)]
pub struct Flatten<'a> {
    pub source: Source<'a>,
    pub out: &'a str,
}

// NET SCN CDF RES OUT
const FORM: Form = Form {
    parts: &[Part::File, Part::File, Part::File, Part::File, Part::File],
    options: Offer::NoOption,
};

impl<'a> Flatten<'a> {
    /// By the words after `flat`, or the place where they leave its form.
    pub fn joined(words: &[&'a str]) -> Result<Flatten<'a>, u64>
        ensures { result_map_both words_of (λ at. at) result ≡ flatten_asks (texts words.entry.now) }
    {
        let asked = read_form(FORM, words)?;
        Ok(Flatten {
            source: Source::joined(asked),
            out: asked.word(4),
        })
    }
}

// The flat text, and that it was written.
fn put_flat(alloc: Global, p: &Problem) -> Result<Done, NoMemory>
    ensures { IfOk result (λ done. flatten_says p.now done.status done.note done.texts) }
{
    let text = write_flat(alloc, p)?;
    let mut done = Done::written(alloc, Status::Written, text)?;
    done.note.append(b"written")?;
    Ok(done)
}

impl<'a> Command for Flatten<'a> {
    ghost meaning = { λ flatten. flatten_meaning (words_of flatten) };

    fn outs(&self) -> &[&str] {
        slice::from_ref(&self.out)
    }

    fn work<D: Desk>(&self, alloc: Global, desk: &mut D) -> Result<Done, Stop> {
        let problem = self.source.read(alloc, desk)?;
        let done = put_flat(alloc, &problem)?;
        Ok(done)
    }
}
