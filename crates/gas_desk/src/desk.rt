// What stands outside the program, by what was asked of it, with counts of its faults.
ghost use Rattle.std.specs.Prelude.{◌≡◌, ◌<◌, ℕ, List, true, false, [], ◌∷◌, ◌++◌, length, Result, Some, None, IsSome, IfOk, OnOk, OnErr, IsErrOf};
ghost use Rattle.std.specs.Io.{ReadsAtMost, WritesAtMost};
ghost use Rattle.gas_desk.specs.Outside.{Outside, CountsOn, ReadCause, WriteCause, SameBut, SameFiles, SameReading, SameMarks, SameMarksBut, SameReads, SameWrites, SameWriting, ReadTakes, WriteAdds};
ghost use Rattle.gas_desk.specs.Call.{Call, starts_read, reads, starts_write, writes, finishes, says, moving_none};
ghost use Rattle.gas_desk.specs.declared.desk.DeskStop.{DeskStop};

use base_types::NoMemory;

/// Why a call of a desk stopped.
#[derive(Clone, Copy, Debug, PartialEq, Eq)]
pub enum DeskStop {
    /// The outside failed. A count of the desk has risen.
    Failed,
    /// Memory could not be had. No count says so.
    NoMemory,
}

impl From<NoMemory> for DeskStop {
    ghost from_gives = { λ _ stop. stop ≡ DeskStop.NoMemory };

    fn from(_: NoMemory) -> Self {
        DeskStop::NoMemory
    }
}

/// Files by name, and the lines that the program says.
///
/// Always known are which file is being read, whether one is being written, and how often reading
/// and writing failed: a count for each name that is read, and one for all writing and saying. What
/// the files hold, which of them are finished, and what was said is known only of a desk that tells
/// it. Only `finish` marks a file as finished, and only a start to write it and `write` take that
/// away.
///
/// After a stop no content has changed. A start that stops leaves no file being read, or none being
/// written. After a stopped `write` or `finish` the file isn't finished, and still being written.
pub trait Desk {
    /// That the contents are told.
    ghost tells: { Type 0 };

    /// That counts are exact: a call that reads moves no count of writing, a call that writes or
    /// says none of reading, and a call that doesn't answer `Failed` moves none.
    ghost counts_exactly: { Type 0 };

    /// What stands outside.
    ghost outside: { Self → Outside };

    /// What this desk does at a call beyond what each desk does.
    ghost beyond: { Call → Self → Self → Result ℕ DeskStop → Type 0 } = { λ _ _ _ _. Unit {0} };

    /// Starts to read the named file from its beginning, and ends an earlier reading.
    fn start_read(&mut self, name: &str) -> Result<(), DeskStop>
        ensures started { OnOk result ((outside self.new).reading ≡ Some name.now) }
        ensures stopped { OnErr result ((outside self.new).reading ≡ None) }
        ensures left { tells
            → OnOk result ((outside self.old).files name.now ≡ Some (outside self.new).left) }
        ensures files { tells → SameFiles (outside self.old) (outside self.new) }
        ensures said { tells → (outside self.new).said ≡ (outside self.old).said }
        ensures writing { SameWriting (outside self.old) (outside self.new) }
        ensures unread { counts_exactly → (IsErrOf result DeskStop.Failed → ⊥)
            → SameReads (outside self.old) (outside self.new) }
        ensures unwritten { counts_exactly → SameWrites (outside self.old) (outside self.new) }
        ensures marks { tells → SameMarks (outside self.old) (outside self.new) }
        ensures counts { CountsOn (outside self.old) (outside self.new) }
        ensures cause { ReadCause name.now (outside self.old) (outside self.new) result }
        ensures beyond { beyond (starts_read name.now) self.old self.new (moving_none result) };

    /// Takes bytes of the file that is being read, and says how many. It takes none into a buffer
    /// that isn't empty only at the end of the file.
    fn read(&mut self, buf: &mut [u8]) -> Result<usize, DeskStop>
        requires { IsSome (outside self.old).reading }
        ensures bound { ReadsAtMost result buf.new }
        ensures left { tells → ReadTakes (outside self.old) (outside self.new) result buf.new }
        ensures reading { SameReading (outside self.old) (outside self.new) }
        ensures files { tells → SameFiles (outside self.old) (outside self.new) }
        ensures said { tells → (outside self.new).said ≡ (outside self.old).said }
        ensures writing { SameWriting (outside self.old) (outside self.new) }
        ensures unread { counts_exactly → (IsErrOf result DeskStop.Failed → ⊥)
            → SameReads (outside self.old) (outside self.new) }
        ensures unwritten { counts_exactly → SameWrites (outside self.old) (outside self.new) }
        ensures marks { tells → SameMarks (outside self.old) (outside self.new) }
        ensures counts { CountsOn (outside self.old) (outside self.new) }
        ensures cause { (n : List ℕ) → (outside self.old).reading ≡ Some n
            → ReadCause n (outside self.old) (outside self.new) result }
        ensures beyond { beyond reads self.old self.new result };

    /// Makes the named file empty, and starts to write it.
    fn start_write(&mut self, name: &str) -> Result<(), DeskStop>
        ensures started { OnOk result ((outside self.new).writing ≡ true) }
        ensures stopped { OnErr result ((outside self.new).writing ≡ false) }
        ensures target { tells → OnOk result ((outside self.new).target ≡ name.now) }
        ensures empty { tells → OnOk result ((outside self.new).files name.now ≡ Some []) }
        ensures kept { tells → OnErr result (SameFiles (outside self.old) (outside self.new)) }
        ensures kept_marks { tells
            → OnErr result (SameMarks (outside self.old) (outside self.new)) }
        ensures others { tells → SameBut name.now (outside self.old) (outside self.new) }
        ensures said { tells → (outside self.new).said ≡ (outside self.old).said }
        ensures reading { SameReading (outside self.old) (outside self.new) }
        ensures left { tells → (outside self.new).left ≡ (outside self.old).left }
        ensures unread { counts_exactly → SameReads (outside self.old) (outside self.new) }
        ensures unwritten { counts_exactly → (IsErrOf result DeskStop.Failed → ⊥)
            → SameWrites (outside self.old) (outside self.new) }
        ensures unmarked { tells → OnOk result ((outside self.new).finished name.now ≡ false) }
        ensures marks { tells → SameMarksBut name.now (outside self.old) (outside self.new) }
        ensures counts { CountsOn (outside self.old) (outside self.new) }
        ensures cause { WriteCause (outside self.old) (outside self.new) result }
        ensures beyond { beyond (starts_write name.now) self.old self.new (moving_none result) };

    /// Adds a front of the piece to the file that is being written, and says how many bytes: at
    /// least one of a piece that isn't empty.
    fn write(&mut self, piece: &[u8]) -> Result<usize, DeskStop>
        requires { (outside self.old).writing ≡ true }
        ensures bound { WritesAtMost result piece.now }
        ensures some { IfOk result (λ n. 0 < length piece.now → 0 < n) }
        ensures added { tells → WriteAdds (outside self.old) (outside self.new) result piece.now }
        ensures others { tells
            → SameBut (outside self.old).target (outside self.old) (outside self.new) }
        ensures said { tells → (outside self.new).said ≡ (outside self.old).said }
        ensures writing { SameWriting (outside self.old) (outside self.new) }
        ensures reading { SameReading (outside self.old) (outside self.new) }
        ensures left { tells → (outside self.new).left ≡ (outside self.old).left }
        ensures unread { counts_exactly → SameReads (outside self.old) (outside self.new) }
        ensures unwritten { counts_exactly → (IsErrOf result DeskStop.Failed → ⊥)
            → SameWrites (outside self.old) (outside self.new) }
        ensures unmarked { tells → (outside self.new).finished (outside self.old).target ≡ false }
        ensures marks { tells
            → SameMarksBut (outside self.old).target (outside self.old) (outside self.new) }
        ensures counts { CountsOn (outside self.old) (outside self.new) }
        ensures cause { WriteCause (outside self.old) (outside self.new) result }
        ensures beyond { beyond writes self.old self.new result };

    /// Ends the writing, and marks the file as finished.
    fn finish(&mut self) -> Result<(), DeskStop>
        requires { (outside self.old).writing ≡ true }
        ensures ended { OnOk result ((outside self.new).writing ≡ false) }
        ensures stopped { OnErr result ((outside self.new).writing ≡ true) }
        ensures files { tells → SameFiles (outside self.old) (outside self.new) }
        ensures said { tells → (outside self.new).said ≡ (outside self.old).said }
        ensures reading { SameReading (outside self.old) (outside self.new) }
        ensures left { tells → (outside self.new).left ≡ (outside self.old).left }
        ensures unread { counts_exactly → SameReads (outside self.old) (outside self.new) }
        ensures unwritten { counts_exactly → (IsErrOf result DeskStop.Failed → ⊥)
            → SameWrites (outside self.old) (outside self.new) }
        ensures marked { tells
            → OnOk result ((outside self.new).finished (outside self.old).target ≡ true) }
        ensures unmarked { tells
            → OnErr result ((outside self.new).finished (outside self.old).target ≡ false) }
        ensures marks { tells
            → SameMarksBut (outside self.old).target (outside self.old) (outside self.new) }
        ensures counts { CountsOn (outside self.old) (outside self.new) }
        ensures cause { WriteCause (outside self.old) (outside self.new) result }
        ensures beyond { beyond finishes self.old self.new (moving_none result) };

    /// Says a line, to which it adds a line feed.
    fn say(&mut self, line: &[u8]) -> Result<(), DeskStop>
        ensures ok { tells
            → OnOk result ((outside self.new).said ≡ (outside self.old).said ++ line.now ++ 10 ∷ []) }
        ensures err { tells → OnErr result ((outside self.new).said ≡ (outside self.old).said) }
        ensures files { tells → SameFiles (outside self.old) (outside self.new) }
        ensures reading { SameReading (outside self.old) (outside self.new) }
        ensures left { tells → (outside self.new).left ≡ (outside self.old).left }
        ensures writing { SameWriting (outside self.old) (outside self.new) }
        ensures unread { counts_exactly → SameReads (outside self.old) (outside self.new) }
        ensures unwritten { counts_exactly → (IsErrOf result DeskStop.Failed → ⊥)
            → SameWrites (outside self.old) (outside self.new) }
        ensures marks { tells → SameMarks (outside self.old) (outside self.new) }
        ensures counts { CountsOn (outside self.old) (outside self.new) }
        ensures cause { WriteCause (outside self.old) (outside self.new) result }
        ensures beyond { beyond says self.old self.new (moving_none result) };
}
