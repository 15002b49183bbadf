// All that the program does.
ghost use Rattle.std.specs.Prelude.{◌≡◌, ◌⊎◌, ℕ, false, Ok, Err};
ghost use Rattle.gas_desk.specs.Outside.{CountsOn, Rose, SameFiles, SameReads, SameWrites};
ghost use Rattle.element_laws.specs.declared.broken.Broken.{Broken};
ghost use Rattle.command_core.specs.Gates.{AnyRose, RoseInOrder, all_fine, bad, found, long};
ghost use Rattle.command_core.specs.Lines.{line_of};
ghost use Rattle.command_core.specs.Meanings.{Answered, Due, Excused, Part, SameButOuts, SaysLine};
ghost use Rattle.command_core.specs.Stops.{HoldsNoWant, IsAnswer, IsFault, IsRefusal, MakesFile, MakesNoFile};
ghost use Rattle.command_core.specs.declared.status.InputFile.{InputFile};
ghost use Rattle.command_core.specs.declared.status.InputFault.{InputFault};
ghost use Rattle.command_core.specs.declared.status.NotFault.{NotFault};
ghost use Rattle.command_core.specs.declared.status.Status.{Status};
ghost use Rattle.command_core.specs.declared.status.UndecidedBy.{UndecidedBy};
ghost use Rattle.command_words.specs.Words.{texts};
ghost use Rattle.nomval.specs.Commands.{ForCommand, IsPlace, OnCommand, Plain, Says, meaning, plain};
ghost use Rattle.nomval.specs.Headline.{HasCarried, HasMade, HasNotPassed, HasPassed, HasRefuted, HasWritten, IsBroken, IsKept, LeavesOpen};

use crate::commands::carry_out;
use command_core::Status;
use gas_desk::Desk;
use std::alloc::Global;

/// Does all that the program does: answers the words of the command line, which come after the program's name, over a
/// desk.
///
/// `solve-flat PROBLEM OUT [--tol n] [--boxes n]` reads a flat problem and writes a setting or a refutation tree;
/// `replay-flat PROBLEM SETTING [--tol n]` tells whether a setting carries a problem;
/// `check-flat PROBLEM TREE` tells whether a tree refutes it. `solve`, `replay` and `check` are the same over the four
/// words NET SCN CDF RES in the place of PROBLEM: a network file, a scenario file, a decision file, or `none` where there
/// is none, and a table of resistances, which are joined. `flat NET SCN CDF RES OUT` writes the flat text of what they
/// make. `make N OUT` writes the flat text of the made problem of N nodes, from 1 to 2,000, and tells what is found for
/// it with the usual tolerance and number of boxes. The tolerance is in Pa^2, from 0 to 10^16, and 10^8 where none is
/// given; the boxes that may be split are 1 to 16,384, and 256 where none are given. The options come in either order.
/// The order is: the words; each file of the problem: whether it can be read, its length, what it stands for; what the
/// four make together; SETTING or TREE, if there is one, likewise, but that a tree may be any bytes; the work; OUT; the
/// line.
pub fn run<D: Desk>(alloc: Global, words: &[&str], desk: &mut D) -> Status
    // The answers, with what OUT then holds and the line said.
    ensures accepted { D.tells → result ≡ Status.Accepted → HasCarried (texts words.now) (D.outside desk.old) (D.outside desk.new) }
    ensures rejected { D.tells → result ≡ Status.Rejected → HasRefuted (texts words.now) (D.outside desk.old) (D.outside desk.new) }
    ensures undecided { D.tells → (why : UndecidedBy) → result ≡ Status.Undecided why → LeavesOpen why (texts words.now) (D.outside desk.old) (D.outside desk.new) }
    ensures kept { D.tells → result ≡ Status.Kept → IsKept (texts words.now) (D.outside desk.old) (D.outside desk.new) }
    ensures broken { D.tells → (law : Broken) → result ≡ Status.Broken law → IsBroken law (texts words.now) (D.outside desk.old) (D.outside desk.new) }
    ensures passes { D.tells → result ≡ Status.Passes → HasPassed (texts words.now) (D.outside desk.old) (D.outside desk.new) }
    ensures not_refutation { D.tells → (fault : NotFault) → result ≡ Status.NotRefutation fault → HasNotPassed fault (texts words.now) (D.outside desk.old) (D.outside desk.new) }
    ensures written { D.tells → result ≡ Status.Written → HasWritten (texts words.now) (D.outside desk.old) (D.outside desk.new) ⊎ HasMade (texts words.now) (D.outside desk.old) (D.outside desk.new) }
    ensures says { D.tells → IsAnswer result → ForCommand (texts words.now) (λ c. Says c (D.outside desk.old) (D.outside desk.new) result) }
    ensures answers { D.tells → IsAnswer result → ForCommand (texts words.now) (λ c. Answered (meaning c) (D.outside desk.old) (D.outside desk.new) result) }
    ensures own { IsAnswer result → ForCommand (texts words.now) (λ c. (meaning c).may result) }

    // The causes of each refusal and fault, and their order.
    ensures usage { (at : ℕ) → result ≡ Status.Usage at → (plain (texts words.now) ≡ Err at) × IsPlace at (texts words.now) }
    ensures bad_input { D.tells → (file : InputFile) (fault : InputFault) → result ≡ Status.BadInput file fault
        → ForCommand (texts words.now) (λ c. found (meaning c).gates (D.outside desk.old).files ≡ bad file fault) }
    ensures too_long { D.tells → (file : InputFile) → result ≡ Status.TooLong file
        → ForCommand (texts words.now) (λ c. found (meaning c).gates (D.outside desk.old).files ≡ long file) }
    ensures held { HoldsNoWant result }
    ensures read_fault { result ≡ Status.ReadFault → ForCommand (texts words.now) (λ c. AnyRose (meaning c).gates (D.outside desk.old) (D.outside desk.new)) }
    ensures read_order { D.tells → result ≡ Status.ReadFault → ForCommand (texts words.now) (λ c. RoseInOrder (meaning c).gates (D.outside desk.old) (D.outside desk.new)) }
    ensures write_fault { result ≡ Status.WriteFault → Rose (D.outside desk.old).write_faults (D.outside desk.new).write_faults }

    // No fault is hidden.
    ensures unwritten { D.counts_exactly → (result ≡ Status.WriteFault → ⊥) → SameWrites (D.outside desk.old) (D.outside desk.new) }
    ensures unread { D.counts_exactly → (result ≡ Status.ReadFault → ⊥) → (result ≡ Status.WriteFault → ⊥) → (result ≡ Status.NoMemory → ⊥)
        → SameReads (D.outside desk.old) (D.outside desk.new) }
    ensures no_retry { D.tells → D.counts_exactly → IsFault result → SameReads (D.outside desk.old) (D.outside desk.new) ⊎ SameFiles (D.outside desk.old) (D.outside desk.new) }

    // What stands after it.
    ensures finished { MakesFile result → (D.outside desk.new).writing ≡ false }
    ensures untouched { D.tells → MakesNoFile result → SameFiles (D.outside desk.old) (D.outside desk.new) }
    ensures refused { D.tells → IsRefusal result → SaysLine (line_of result) (D.outside desk.old) (D.outside desk.new) }
    ensures silent { D.tells → IsFault result → (D.outside desk.new).said ≡ (D.outside desk.old).said }
    ensures part { D.tells → IsFault result
        → OnCommand (texts words.now) (λ c. SameFiles (D.outside desk.old) (D.outside desk.new) ⊎ Part (meaning c) (D.outside desk.old) (D.outside desk.new)) }
    ensures others { D.tells → OnCommand (texts words.now) (λ c. SameButOuts (meaning c).outs (D.outside desk.old) (D.outside desk.new)) }
    ensures no_command { D.tells → (at : ℕ) → plain (texts words.now) ≡ Err at → SameFiles (D.outside desk.old) (D.outside desk.new) }
    ensures counts { CountsOn (D.outside desk.old) (D.outside desk.new) }

    // That each answer comes where it is due.
    ensures due { D.tells → (c : Plain) (s : Status) → plain (texts words.now) ≡ Ok c → Due (meaning c) (D.outside desk.old).files s
        → (result ≡ s) ⊎ Excused (meaning c) (D.outside desk.old) (D.outside desk.new) result }
    ensures due_usage { (at : ℕ) → plain (texts words.now) ≡ Err at
        → (result ≡ Status.Usage at) ⊎ ((result ≡ Status.NoMemory) ⊎ ((result ≡ Status.WriteFault) × Rose (D.outside desk.old).write_faults (D.outside desk.new).write_faults)) }
    ensures complete { D.tells → (c : Plain) → plain (texts words.now) ≡ Ok c → found (meaning c).gates (D.outside desk.old).files ≡ all_fine
        → IsAnswer result ⊎ Excused (meaning c) (D.outside desk.old) (D.outside desk.new) result }
{
    carry_out(alloc, words, desk)
}
