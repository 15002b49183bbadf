// The form of a command's words, and its reader.
ghost use Rattle.std.specs.Prelude.{◌≡◌, ◌+◌, ◌<◌, ◌^◌, length, option_map};
ghost use Rattle.std.specs.Result.{result_map_both};
ghost use Rattle.line_text.specs.Numerals.{natural};
ghost use Rattle.command_words.specs.Forms.{count_in, filled_of, form_of, number_in, part_in, parts_at, read_form, word_at};
ghost use Rattle.command_words.specs.Options.{boxes_of, options_of, tolerance_of};
ghost use Rattle.command_words.specs.Words.{is_file_word, texts};

use crate::budget::Budget;
use crate::count::Count;
use crate::options::{Given, Offer, options_at};
use crate::tolerance::Tolerance;
use line_text::size_at;

/// What a word of a command is.
#[derive(Clone, Copy, Debug, PartialEq, Eq)]
pub enum Part {
    /// The name of a file.
    File,
    /// How many nodes a made problem is to have.
    Number,
}

/// The form of a command's words: what each word after its name is, and which options may follow. No other word may.
#[derive(Clone, Copy, Debug)]
pub struct Form {
    pub parts: &'static [Part],
    pub options: Offer,
}

/// The words of a command after its name, which have its form.
#[derive(Clone, Copy, Debug)]
pub struct Asked<'a, 'b> {
    words: &'b [&'a str],
    count: Option<Count>,
    given: Given,
}

impl<'a, 'b> Asked<'a, 'b> {
    /// The word of this number after the name, from 0. Behind the last one there are empty words.
    pub fn word(self, number: usize) -> &'a str
        ensures { result.now ≡ word_at number (filled_of self.entry) }
    {
        match self.words.get(number) {
            Some(word) => *word,
            None => "",
        }
    }

    /// The number among the words; 1 where the form has none.
    pub fn count(self) -> Count
        ensures { result.value ≡ count_in (filled_of self.entry) }
    {
        match self.count {
            Some(count) => count,
            None => Count::one(),
        }
    }

    /// The tolerance that was given, or the usual one.
    pub fn tolerance(self) -> Tolerance
        ensures { result.value ≡ tolerance_of (filled_of self.entry).options }
    {
        self.given.tolerance()
    }

    /// The number of boxes that was given, or the usual one.
    pub fn budget(self) -> Budget
        ensures { result.value ≡ boxes_of (filled_of self.entry).options }
    {
        self.given.budget()
    }
}

fn is_file(word: &str) -> bool
    ensures { result ≡ is_file_word word.now }
{
    match word.as_bytes() {
        [] => false,
        [first, ..] => *first != b'-',
    }
}

// The number of nodes that the word at this place is.
fn number_in(at: u64, word: &str) -> Result<Count, u64>
    ensures { result_map_both (λ count. count.value) (λ e. e) result ≡ number_in at (natural word.now) }
{
    match size_at(word) {
        Some(value) => match Count::of(value) {
            Some(count) => Ok(count),
            None => Err(at),
        },
        None => Err(at),
    }
}

// The number among the words up to the one at this place, which is to be of this part.
fn part_in(at: u64, part: Part, count: Option<Count>, word: &str) -> Result<Option<Count>, u64>
    ensures { result_map_both (λ c. option_map (λ count. count.value) c) (λ e. e) result ≡ part_in at part (option_map (λ count. count.value) count) word.now }
{
    match part {
        Part::File => { if is_file(word) { Ok(count) } else { Err(at) } }
        Part::Number => {
            let number = number_in(at, word)?;
            Ok(Some(number))
        }
    }
}

// The number among the words and the options, from the word at this place on.
fn parts_at(
    at: u64,
    parts: &[Part],
    options: Offer,
    count: Option<Count>,
    words: &[&str],
) -> Result<(Option<Count>, Given), u64>
    requires { at + length words.now < 2 ^ 64 }
    ensures { result_map_both (λ x. (option_map (λ count. count.value) x.0, options_of x.1)) (λ e. e) result ≡ parts_at at parts.now options (option_map (λ count. count.value) count) (texts words.entry.now) }
{
    let Some((part, parts)) = parts.split_first() else {
        let given = options_at(at, options, Given::none(), words)?;
        return Ok((count, given));
    };
    let Some((word, words)) = words.split_first() else {
        return Err(at);
    };
    let count = part_in(at, *part, count, word)?;
    parts_at(at + 1, parts, options, count, words)
}

/// The words after a command's name, from word 1 on, in this form, or the place where they leave it.
pub fn read_form<'a, 'b>(form: Form, words: &'b [&'a str]) -> Result<Asked<'a, 'b>, u64>
    ensures { result_map_both filled_of (λ at. at) result ≡ read_form (form_of form) (texts words.entry.now) }
{
    let (count, given) = parts_at(1, form.parts, form.options, None, words)?;
    Ok(Asked {
        words,
        count,
        given,
    })
}
