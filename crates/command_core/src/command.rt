// What a command is.
ghost use Rattle.std.specs.Prelude.{◌≡◌, ◌∷◌, [], Some, IfOk, decimal};
ghost use Rattle.command_core.specs.Meanings.{Meaning, Does, names};
ghost use Rattle.command_core.specs.Gates.{Reads};
ghost use Rattle.command_core.specs.Stops.{stop_in};

use crate::words::put_numbered;
use crate::{Status, Stop};
use gas_desk::Desk;
use gas_model::{Bytes, List, NoMemory};
use std::alloc::Global;

/// What a command found: its status, what its line says beyond the status, and for each OUT in order the text that it is
/// to hold, or none where it isn't to be made.
#[derive(Debug, Drop)]
pub struct Done {
    pub status: Status,
    pub note: Bytes,
    pub texts: List<Option<Bytes>>,
}

impl Done {
    /// Of a command without an OUT, with this beside the status in its line.
    pub fn said(alloc: Global, status: Status, note: Bytes) -> Done
        ensures status { result.status ≡ status }
        ensures note { result.note ≡ note }
        ensures texts { result.texts ≡ [] }
    {
        Done {
            status,
            note,
            texts: List::new(alloc),
        }
    }

    /// Of a command with one OUT, which is to hold this text, with nothing beside the status in its line.
    pub fn written(alloc: Global, status: Status, text: Bytes) -> Result<Done, NoMemory>
        ensures status { IfOk result (λ done. done.status ≡ status) }
        ensures note { IfOk result (λ done. done.note ≡ []) }
        ensures texts { IfOk result (λ done. done.texts ≡ Some text ∷ []) }
    {
        let mut texts = List::new(alloc);
        texts.push(Some(text))?;
        Ok(Done {
            status,
            note: Bytes::new(alloc),
            texts,
        })
    }

    /// The same with this number beside the status in its line.
    pub fn counted(
        alloc: Global,
        status: Status,
        text: Bytes,
        number: u64,
    ) -> Result<Done, NoMemory>
        ensures status { IfOk result (λ done. done.status ≡ status) }
        ensures note { IfOk result (λ done. done.note ≡ decimal number) }
        ensures texts { IfOk result (λ done. done.texts ≡ Some text ∷ []) }
    {
        let mut done = Done::written(alloc, status, text)?;
        put_numbered(&mut done.note, b"", number)?;
        Ok(done)
    }
}

/// A command, with the words that it was given.
pub trait Command {
    /// Its input files in order, its OUTs, and what each status that it may answer says of the files before it.
    ghost meaning: { Self → Meaning };

    /// The names of its OUTs, in order.
    fn outs(&self) -> &[&str]
        ensures { names result.now ≡ (meaning self.now).outs };

    /// Reads the input files and does the work, and writes nothing.
    fn work<D: Desk>(&self, alloc: Global, desk: &mut D) -> Result<Done, Stop>
        ensures does { IfOk result (Does D.tells (meaning self.now) (D.outside desk.old).files) }
        ensures reads { Reads D.tells D.counts_exactly (meaning self.now).gates (D.outside desk.old) (D.outside desk.new) (stop_in result) };
}
