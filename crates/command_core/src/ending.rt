// How a command is concluded: its OUTs written, and its line said.
ghost use Rattle.std.specs.Prelude.{◌≡◌, ◌++◌, ◌∷◌, [], true, false, length, OnOk, OnErr, IsErrOf};
ghost use Rattle.gas_desk.specs.Outside.{CountsOn, Rose, SameBut, SameFiles, SameMarks, SameMarksBut, SameReads, SameWrites};
ghost use Rattle.command_core.specs.Lines.{line_of};
ghost use Rattle.command_core.specs.Meanings.{Concluded, IsPart, IsWritten, Puts, SaysLine, Speaks, fault_in, fault_status, has_text, names};

use crate::line::line_of;
use crate::{Command, Status, Stop};
use gas_desk::{Desk, DeskStop, WriteStop, write_file};
use gas_model::{Bytes, NoMemory};
use std::alloc::Global;

// SaysLine the line of a status.
fn say_line<D: Desk>(
    alloc: Global,
    desk: &mut D,
    status: &Status,
    note: &[u8],
) -> Result<(), DeskStop>
    ensures said { D.tells → OnOk result (SaysLine (line_of status.now ++ note.now) (D.outside desk.old) (D.outside desk.new)) }
    ensures unsaid { D.tells → OnErr result ((D.outside desk.new).said ≡ (D.outside desk.old).said) }
    ensures cause { IsErrOf result DeskStop.Failed → Rose (D.outside desk.old).write_faults (D.outside desk.new).write_faults }
    ensures writing { (D.outside desk.new).writing ≡ (D.outside desk.old).writing }
    ensures files { D.tells → SameFiles (D.outside desk.old) (D.outside desk.new) }
    ensures marks { D.tells → SameMarks (D.outside desk.old) (D.outside desk.new) }
    ensures unread { D.counts_exactly → SameReads (D.outside desk.old) (D.outside desk.new) }
    ensures unwritten { D.counts_exactly → (IsErrOf result DeskStop.Failed → ⊥) → SameWrites (D.outside desk.old) (D.outside desk.new) }
    ensures counts { CountsOn (D.outside desk.old) (D.outside desk.new) }
{
    match line_of(alloc, status, note) {
        Ok(line) => desk.say(line.as_slice()),
        Err(NoMemory) => Err(DeskStop::NoMemory),
    }
}

// This status in the place of another one.
fn instead(_status: Status, other: Status) -> Status
    ensures { result ≡ other }
{
    other
}

// SaysLine the line of a status, and answers it, or the status that says why the line isn't said.
pub fn speak<D: Desk>(alloc: Global, desk: &mut D, status: Status, note: &[u8]) -> Status
    ensures { Speaks D.tells D.counts_exactly (line_of status ++ note.now) status (D.outside desk.old) (D.outside desk.new) result }
{
    match say_line(alloc, desk, &status, note) {
        Ok(()) => status,
        Err(DeskStop::Failed) => instead(status, Status::WriteFault),
        Err(DeskStop::NoMemory) => instead(status, Status::NoMemory),
    }
}

// Makes an OUT hold its text, if there is one.
fn write_out<D: Desk>(desk: &mut D, out: &str, text: &Option<Bytes>) -> Result<(), WriteStop>
    ensures done { D.tells → OnOk result (IsWritten out.now text.now (D.outside desk.old) (D.outside desk.new)) }
    ensures stopped { D.tells → OnErr result (IsPart out.now text.now (D.outside desk.old) (D.outside desk.new)) }
    ensures others { D.tells → SameBut out.now (D.outside desk.old) (D.outside desk.new) }
    ensures marks { D.tells → SameMarksBut out.now (D.outside desk.old) (D.outside desk.new) }
    ensures finished { OnOk result (has_text (text.now ∷ []) ≡ true → (D.outside desk.new).writing ≡ false) }
    ensures idle { has_text (text.now ∷ []) ≡ false → (D.outside desk.new).writing ≡ (D.outside desk.old).writing }
    ensures untouched { D.tells → has_text (text.now ∷ []) ≡ false → SameFiles (D.outside desk.old) (D.outside desk.new) }
    ensures said { D.tells → (D.outside desk.new).said ≡ (D.outside desk.old).said }
    ensures cause { IsErrOf result WriteStop.Failed → Rose (D.outside desk.old).write_faults (D.outside desk.new).write_faults }
    ensures unread { D.counts_exactly → SameReads (D.outside desk.old) (D.outside desk.new) }
    ensures unwritten { D.counts_exactly → (IsErrOf result WriteStop.Failed → ⊥) → SameWrites (D.outside desk.old) (D.outside desk.new) }
    ensures counts { CountsOn (D.outside desk.old) (D.outside desk.new) }
{
    match text {
        Some(text) => write_file(desk, out, text.as_slice()),
        None => Ok(()),
    }
}

// Makes each OUT in order hold its text.
fn write_outs<D: Desk>(
    desk: &mut D,
    outs: &[&str],
    texts: &[Option<Bytes>],
) -> Result<(), WriteStop>
    requires { length (names outs.now) ≡ length texts.now }
    ensures { Puts D.tells D.counts_exactly (names outs.now) texts.now (D.outside desk.old) (D.outside desk.new) (fault_in result) }
{
    let Some((out, outs)) = outs.split_first() else {
        return Ok(());
    };
    let Some((text, texts)) = texts.split_first() else {
        return Ok(());
    };
    match write_out(desk, out, text) {
        Ok(()) => write_outs(desk, outs, texts),
        Err(stop) => Err(stop),
    }
}

fn fault_status(stop: WriteStop) -> Status
    ensures { result ≡ fault_status stop }
{
    match stop {
        WriteStop::Failed => Status::WriteFault,
        WriteStop::NoMemory => Status::NoMemory,
    }
}

/// Does all that a command does: reads, works, writes its OUTs, and says its line.
pub fn conclude<C: Command, D: Desk>(alloc: Global, desk: &mut D, command: &C) -> Status
    ensures { Concluded D.tells D.counts_exactly (C.meaning command.now) (D.outside desk.old) (D.outside desk.new) result }
{
    match command.work(alloc, desk) {
        Ok(done) => match write_outs(desk, command.outs(), done.texts.as_slice()) {
            Ok(()) => speak(alloc, desk, done.status, done.note.as_slice()),
            Err(stop) => fault_status(stop),
        },
        Err(Stop::BadInput { file, fault }) => {
            speak(alloc, desk, Status::BadInput { file, fault }, b"")
        }
        Err(Stop::TooLong { file }) => speak(alloc, desk, Status::TooLong { file }, b""),
        Err(Stop::ReadFault) => speak(alloc, desk, Status::ReadFault, b""),
        Err(Stop::NoMemory) => Status::NoMemory,
    }
}
