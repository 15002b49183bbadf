// The line that the program says of each status.
ghost use Rattle.std.specs.Prelude.{◌≡◌, ◌++◌, IfOk, OnOk, codes};
ghost use Rattle.command_core.specs.FaultTexts.{fault_text};
ghost use Rattle.command_core.specs.Lines.{file_word, law_word, line_of, not_text, open_word, tree_text};

use crate::fault_text::put_fault;
use crate::words::{put_both, put_numbered};
use crate::{InputFault, InputFile, NotFault, Status, UndecidedBy};
use element_laws::Broken;
use gas_model::{Bytes, NoMemory};
use std::alloc::Global;
use tree_cert::TreeFault;

fn file_word(file: InputFile) -> &'static [u8]
    ensures { result.now ≡ file_word file }
{
    match file {
        InputFile::Net => b"net",
        InputFile::Scn => b"scn",
        InputFile::Cdf => b"cdf",
        InputFile::Res => b"res",
        InputFile::Join => b"join",
        InputFile::Flat => b"problem",
        InputFile::SettingFile => b"setting",
        InputFile::TreeFile => b"tree",
    }
}

fn law_word(law: Broken) -> &'static [u8]
    ensures { result.now ≡ law_word law }
{
    match law {
        Broken::Choice { .. } => b"choice ",
        Broken::FlowBound { .. } => b"flow ",
        Broken::PressureBound { .. } => b"pressure ",
        Broken::Balance { .. } => b"balance ",
        Broken::Law { .. } => b"law ",
    }
}

// Why a box is left open; its line follows.
fn open_word(by: UndecidedBy) -> &'static [u8]
    ensures { result.now ≡ open_word by }
{
    match by {
        UndecidedBy::Budget => b"budget line ",
        UndecidedBy::Grid => b"grid line ",
    }
}

// The input file at fault, and what is wrong with it.
fn put_bad_input(line: &mut Bytes, file: InputFile, fault: &InputFault) -> Result<(), NoMemory>
    ensures { OnOk result (line.new ≡ line.old ++ (codes "bad " ++ file_word file ++ codes " " ++ fault_text fault.now)) }
{
    put_both(line, b"bad ", file_word(file))?;
    line.append(b" ")?;
    put_fault(line, fault)
}

// The first line of a tree that is at fault.
fn put_tree_fault(line: &mut Bytes, fault: &TreeFault) -> Result<(), NoMemory>
    ensures { OnOk result (line.new ≡ line.old ++ tree_text fault.now) }
{
    match fault {
        TreeFault::NotTree { line: number } => put_numbered(line, b"not tree line ", *number),
        TreeFault::WideNumber { line: number } => put_numbered(line, b"wide number line ", *number),
        TreeFault::BadStep { line: number } => put_numbered(line, b"bad step line ", *number),
        TreeFault::WrongBranch { line: number } => {
            put_numbered(line, b"wrong branch line ", *number)
        }
        TreeFault::WrongEnd { line: number } => put_numbered(line, b"wrong end line ", *number),
        TreeFault::NoMemory => Ok(()),
    }
}

// Why a text is no refutation.
fn put_not(line: &mut Bytes, fault: &NotFault) -> Result<(), NoMemory>
    ensures { OnOk result (line.new ≡ line.old ++ not_text fault.now) }
{
    match fault {
        NotFault::Tree(fault) => put_tree_fault(line, fault),
        NotFault::Left { line: number } => put_numbered(line, b"open line ", *number),
    }
}

// That a text is no refutation, and why.
fn put_no_refutation(line: &mut Bytes, fault: &NotFault) -> Result<(), NoMemory>
    ensures { OnOk result (line.new ≡ line.old ++ (codes "not refutation " ++ not_text fault.now)) }
{
    line.append(b"not refutation ")?;
    put_not(line, fault)
}

// The line of a status, without what the command adds to it.
fn put_line(line: &mut Bytes, status: &Status) -> Result<(), NoMemory>
    ensures { OnOk result (line.new ≡ line.old ++ line_of status.now) }
{
    match status {
        Status::Accepted => line.append(b"accepted"),
        Status::Rejected => line.append(b"rejected"),
        Status::Undecided(by) => put_both(line, b"undecided ", open_word(*by)),
        Status::Kept => line.append(b"kept"),
        Status::Broken(law) => put_both(line, b"broken ", law_word(*law)),
        Status::Passes => line.append(b"passes"),
        Status::NotRefutation(fault) => put_no_refutation(line, fault),
        Status::Usage { at } => put_numbered(line, b"usage word ", *at),
        Status::BadInput { file, fault } => put_bad_input(line, *file, fault),
        Status::TooLong { file } => put_both(line, b"too long ", file_word(*file)),
        Status::ReadFault => line.append(b"read fault"),
        Status::Written | Status::NoMemory | Status::WriteFault => Ok(()),
    }
}

// The line of a status with what the command adds to it, without its line feed.
pub fn line_of(alloc: Global, status: &Status, note: &[u8]) -> Result<Bytes, NoMemory>
    ensures { IfOk result (λ line. line ≡ line_of status.now ++ note.now) }
{
    let mut line = Bytes::new(alloc);
    put_line(&mut line, status)?;
    line.append(note)?;
    Ok(line)
}
