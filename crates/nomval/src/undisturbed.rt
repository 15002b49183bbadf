// The same over a desk on which nothing fails.
ghost use Rattle.std.specs.Prelude.{◌≡◌, ◌⊎◌, ℕ, Ok, Err};
ghost use Rattle.gas_desk.specs.Never.{never_failing};
ghost use Rattle.element_laws.specs.declared.broken.Broken.{Broken};
ghost use Rattle.command_core.specs.Gates.{all_fine, bad, found, long};
ghost use Rattle.command_core.specs.Lines.{line_of};
ghost use Rattle.command_core.specs.Meanings.{Answered, Due, SameButOuts, SaysLine};
ghost use Rattle.command_core.specs.Stops.{IsAnswer, IsRefusal};
ghost use Rattle.command_core.specs.declared.status.InputFile.{InputFile};
ghost use Rattle.command_core.specs.declared.status.InputFault.{InputFault};
ghost use Rattle.command_core.specs.declared.status.NotFault.{NotFault};
ghost use Rattle.command_core.specs.declared.status.Status.{Status};
ghost use Rattle.command_core.specs.declared.status.UndecidedBy.{UndecidedBy};
ghost use Rattle.command_words.specs.Words.{texts};
ghost use Rattle.nomval.specs.Commands.{ForCommand, IsPlace, OnCommand, Plain, Says, meaning, plain};
ghost use Rattle.nomval.specs.Headline.{HasCarried, HasMade, HasNotPassed, HasPassed, HasRefuted, HasWritten, IsBroken, IsKept, LeavesOpen};

use crate::{Status, run};
use gas_desk::NeverFails;
use std::alloc::Global;

/// `run` over a desk on which only want of memory stops a call: no fault is answered.
pub fn run_undisturbed(alloc: Global, words: &[&str], desk: &mut NeverFails) -> Status
    ensures no_read_fault { result ≡ Status.ReadFault → ⊥ }
    ensures no_write_fault { result ≡ Status.WriteFault → ⊥ }
    ensures complete { (c : Plain) → plain (texts words.now) ≡ Ok c → found (meaning c).gates (never_failing desk.old).files ≡ all_fine
        → IsAnswer result ⊎ (result ≡ Status.NoMemory) }
    ensures due { (c : Plain) (s : Status) → plain (texts words.now) ≡ Ok c → Due (meaning c) (never_failing desk.old).files s
        → (result ≡ s) ⊎ (result ≡ Status.NoMemory) }

    // Each answer says what it says of any desk.
    ensures accepted { result ≡ Status.Accepted → HasCarried (texts words.now) (never_failing desk.old) (never_failing desk.new) }
    ensures rejected { result ≡ Status.Rejected → HasRefuted (texts words.now) (never_failing desk.old) (never_failing desk.new) }
    ensures undecided { (why : UndecidedBy) → result ≡ Status.Undecided why → LeavesOpen why (texts words.now) (never_failing desk.old) (never_failing desk.new) }
    ensures kept { result ≡ Status.Kept → IsKept (texts words.now) (never_failing desk.old) (never_failing desk.new) }
    ensures broken { (law : Broken) → result ≡ Status.Broken law → IsBroken law (texts words.now) (never_failing desk.old) (never_failing desk.new) }
    ensures passes { result ≡ Status.Passes → HasPassed (texts words.now) (never_failing desk.old) (never_failing desk.new) }
    ensures not_refutation { (fault : NotFault) → result ≡ Status.NotRefutation fault → HasNotPassed fault (texts words.now) (never_failing desk.old) (never_failing desk.new) }
    ensures written { result ≡ Status.Written → HasWritten (texts words.now) (never_failing desk.old) (never_failing desk.new) ⊎ HasMade (texts words.now) (never_failing desk.old) (never_failing desk.new) }
    ensures says { IsAnswer result → ForCommand (texts words.now) (λ c. Says c (never_failing desk.old) (never_failing desk.new) result) }
    ensures usage { (at : ℕ) → result ≡ Status.Usage at → (plain (texts words.now) ≡ Err at) × IsPlace at (texts words.now) }
    ensures bad_input { (file : InputFile) (fault : InputFault) → result ≡ Status.BadInput file fault
        → ForCommand (texts words.now) (λ c. found (meaning c).gates (never_failing desk.old).files ≡ bad file fault) }
    ensures too_long { (file : InputFile) → result ≡ Status.TooLong file
        → ForCommand (texts words.now) (λ c. found (meaning c).gates (never_failing desk.old).files ≡ long file) }
    ensures refused { IsRefusal result → SaysLine (line_of result) (never_failing desk.old) (never_failing desk.new) }
    ensures others { OnCommand (texts words.now) (λ c. SameButOuts (meaning c).outs (never_failing desk.old) (never_failing desk.new)) }
{
    run(alloc, words, desk)
}
