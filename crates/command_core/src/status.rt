// How a command ends.
ghost use Rattle.std.specs.Prelude.{◌≡◌};
ghost use Rattle.command_core.specs.Exits.{exit_of};
ghost use Rattle.command_core.specs.Stops.{is_want};
ghost use Rattle.command_core.specs.declared.status.Stop.{Stop};

use element_laws::Broken;
use file_faults::{FileFault, OutlineFault, ResFault, SettingFault};
use gas_model::{ModelFault, NoMemory};
use problem_faults::{FlatFault, JoinFault};
use tree_cert::TreeFault;

/// An input file of a command.
#[derive(Clone, Copy, Debug, PartialEq, Eq)]
pub enum InputFile {
    /// The network file.
    Net,
    /// The scenario file.
    Scn,
    /// The decision file.
    Cdf,
    /// The table of resistances.
    Res,
    /// No file of its own: what the four before it make together.
    Join,
    /// The flat problem.
    Flat,
    /// The setting.
    SettingFile,
    /// The refutation tree.
    TreeFile,
}

/// Why an input file stands for nothing. In a status or a stop none of these is want of memory.
#[derive(Debug, Drop)]
pub enum InputFault {
    OfFile(FileFault),
    OfRes(ResFault),
    OfJoin(JoinFault),
    OfFlat(FlatFault),
    OfSetting(SettingFault),
}

impl InputFault {
    // Whether it says only that memory ran out.
    pub fn is_want(&self) -> bool
        ensures { result ≡ is_want self.now }
    {
        matches!(
            self,
            InputFault::OfFile(FileFault::NoMemory | FileFault::Outline(OutlineFault::NoMemory))
                | InputFault::OfRes(ResFault::NoMemory)
                | InputFault::OfJoin(JoinFault::NoMemory | JoinFault::Model(ModelFault::NoMemory))
                | InputFault::OfFlat(FlatFault::NoMemory | FlatFault::Model(ModelFault::NoMemory))
                | InputFault::OfSetting(SettingFault::NoMemory)
        )
    }
}

/// Why a text is no refutation. None of these is want of memory.
#[derive(Clone, Copy, Debug, PartialEq, Eq)]
pub enum NotFault {
    /// The first line at fault.
    Tree(TreeFault),
    /// It passes, but leaves boxes open, the first at this line.
    Left { line: u64 },
}

/// Why neither a setting nor a refutation was found.
#[derive(Clone, Copy, Debug, PartialEq, Eq)]
pub enum UndecidedBy {
    /// As many boxes were split as were allowed, and another one would have been.
    Budget,
    /// Each box that is left open has no variable of which whole units lie between the ends.
    Grid,
}

/// How a command ended.
#[derive(Debug, Drop)]
pub enum Status {
    /// OUT holds a setting that carries the nomination within the tolerance.
    Accepted,
    /// OUT holds a refutation tree: nothing carries the nomination.
    Rejected,
    /// Neither was found. OUT holds a refutation tree with open boxes.
    Undecided(UndecidedBy),
    /// The setting carries the nomination within the tolerance.
    Kept,
    /// The setting doesn't. This is the first law that it breaks.
    Broken(Broken),
    /// The tree passes and leaves no box open: nothing carries the nomination.
    Passes,
    /// The text is no refutation of the problem.
    NotRefutation(NotFault),
    /// OUT holds what the command was asked to write.
    Written,
    /// The words aren't in plain form: no plain words begin as these do up to the word of this number, from 0.
    Usage { at: u64 },
    /// The first input file that stands for nothing, and why.
    BadInput { file: InputFile, fault: InputFault },
    /// The file is longer than 67,108,864 bytes.
    TooLong { file: InputFile },
    /// An input file could not be read.
    ReadFault,
    /// Memory could not be had.
    NoMemory,
    /// OUT or the line could not be written.
    WriteFault,
}

impl Status {
    /// The exit status of the program.
    pub fn exit(&self) -> u8
        ensures { result ≡ exit_of self.now }
    {
        match self {
            Status::Accepted | Status::Kept | Status::Passes | Status::Written => 0,
            Status::Rejected => 1,
            Status::Undecided(_) => 2,
            Status::Broken(_) | Status::NotRefutation(_) => 3,
            Status::Usage { .. } => 64,
            Status::BadInput { .. } | Status::TooLong { .. } => 65,
            Status::ReadFault => 66,
            Status::NoMemory => 71,
            Status::WriteFault => 74,
        }
    }
}

/// Why a command has no answer, before anything is written.
#[derive(Debug, Drop)]
pub enum Stop {
    BadInput { file: InputFile, fault: InputFault },
    TooLong { file: InputFile },
    ReadFault,
    NoMemory,
}

impl From<NoMemory> for Stop {
    ghost from_gives = { λ _ stop. stop ≡ Stop.NoMemory };

    fn from(_: NoMemory) -> Self {
        Stop::NoMemory
    }
}
