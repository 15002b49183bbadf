// The options of a command.
ghost use Rattle.std.specs.Prelude.{◌≡◌, ◌+◌, ◌<◌, ◌^◌, length, option_map};
ghost use Rattle.std.specs.Result.{result_map_both};
ghost use Rattle.line_text.specs.Numerals.{natural};
ghost use Rattle.command_words.specs.Options.{boxes_of, budget_in, give, has_boxes, has_tol, none_given, option_in, options_at, options_of, tolerance_in, tolerance_of};
ghost use Rattle.command_words.specs.Words.{texts};

use crate::budget::Budget;
use crate::tolerance::Tolerance;
use line_text::size_at;

/// An option.
#[derive(Clone, Copy, Debug, PartialEq, Eq)]
pub enum Choice {
    /// `--tol`, with a tolerance in Pa^2.
    Tol,
    /// `--boxes`, with how many boxes may be split.
    Boxes,
}

/// Which options a command has.
#[derive(Clone, Copy, Debug, PartialEq, Eq)]
pub enum Offer {
    /// None: the words end where they would begin.
    NoOption,
    /// `--tol` alone.
    TolAlone,
    /// `--tol` and `--boxes`.
    TolAndBoxes,
}

impl Offer {
    // Whether `--tol` is among them.
    fn has_tol(self) -> bool
        ensures { result ≡ has_tol self }
    {
        match self {
            Offer::NoOption => false,
            Offer::TolAlone | Offer::TolAndBoxes => true,
        }
    }

    // Whether `--boxes` is.
    fn has_boxes(self) -> bool
        ensures { result ≡ has_boxes self }
    {
        match self {
            Offer::NoOption | Offer::TolAlone => false,
            Offer::TolAndBoxes => true,
        }
    }
}

/// What the options gave.
#[derive(Clone, Copy, Debug)]
pub struct Given {
    pub tol: Option<Tolerance>,
    pub boxes: Option<Budget>,
}

impl Given {
    /// Before any option.
    pub fn none() -> Given
        ensures { options_of result ≡ none_given }
    {
        Given {
            tol: None,
            boxes: None,
        }
    }

    /// The tolerance that was given, or the usual one.
    pub fn tolerance(self) -> Tolerance
        ensures { result.value ≡ tolerance_of (options_of self) }
    {
        match self.tol {
            Some(tol) => tol,
            None => Tolerance::usual(),
        }
    }

    /// The number of boxes that was given, or the usual one.
    pub fn budget(self) -> Budget
        ensures { result.value ≡ boxes_of (options_of self) }
    {
        match self.boxes {
            Some(boxes) => boxes,
            None => Budget::usual(),
        }
    }
}

// The tolerance that the word at this place is.
fn tolerance_in(at: u64, word: &str) -> Result<Tolerance, u64>
    ensures { result_map_both (λ tol. tol.value) (λ e. e) result ≡ tolerance_in at (natural word.now) }
{
    match size_at(word) {
        Some(value) => match Tolerance::of(value) {
            Some(tol) => Ok(tol),
            None => Err(at),
        },
        None => Err(at),
    }
}

// The number of boxes that the word at this place is.
fn budget_in(at: u64, word: &str) -> Result<Budget, u64>
    ensures { result_map_both (λ boxes. boxes.value) (λ e. e) result ≡ budget_in at (natural word.now) }
{
    match size_at(word) {
        Some(value) => match Budget::of(value) {
            Some(boxes) => Ok(boxes),
            None => Err(at),
        },
        None => Err(at),
    }
}

// The option that the word at this place is, if the command has it and it wasn't given yet.
fn option_in(at: u64, offer: Offer, given: Given, word: &str) -> Result<Choice, u64>
    ensures { result ≡ option_in at offer (options_of given) word.now }
{
    if offer.has_tol() && given.tol.is_none() && word == "--tol" {
        return Ok(Choice::Tol);
    }
    if offer.has_boxes() && given.boxes.is_none() && word == "--boxes" {
        return Ok(Choice::Boxes);
    }
    Err(at)
}

// What is given with this option and its number, which is the word at this place.
fn give(at: u64, option: Choice, given: Given, number: &str) -> Result<Given, u64>
    ensures { result_map_both options_of (λ e. e) result ≡ give at option (options_of given) (natural number.now) }
{
    match option {
        Choice::Tol => {
            let tol = tolerance_in(at, number)?;
            Ok(Given {
                tol: Some(tol),
                boxes: given.boxes,
            })
        }
        Choice::Boxes => {
            let boxes = budget_in(at, number)?;
            Ok(Given {
                tol: given.tol,
                boxes: Some(boxes),
            })
        }
    }
}

/// What the options give, from the word at this place on.
pub fn options_at(at: u64, offer: Offer, given: Given, words: &[&str]) -> Result<Given, u64>
    requires { at + length words.now < 2 ^ 64 }
    ensures { result_map_both options_of (λ e. e) result ≡ options_at at offer (options_of given) (texts words.entry.now) }
{
    let Some((word, rest)) = words.split_first() else {
        return Ok(given);
    };
    let option = option_in(at, offer, given, word)?;
    let Some((number, rest)) = rest.split_first() else {
        return Err(at + 1);
    };
    let more = give(at + 1, option, given, number)?;
    options_at(at + 2, offer, more, rest)
}
