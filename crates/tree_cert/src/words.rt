// The words of lines.
ghost use Rattle.std.specs.Prelude.{◌≡◌};
ghost use Rattle.tree_cert.specs.Fields.{rule_at, end_at};
ghost use Rattle.tree_cert.specs.Reading.{word_text, first_word_at};
ghost use Rattle.tree_cert.specs.Spelling.{rule_text, end_text};

use crate::line::Rule;

/// The word that a line begins with.
#[derive(Clone, Copy, Debug, PartialEq, Eq)]
pub enum LineWord {
    Lo,
    Hi,
    Close,
    Open,
    Group,
    Arc,
    Halve,
    Take,
    State,
    Half,
    End,
    Gastree,
}

const RULES: [Rule; 14] = [
    Rule::Balance,
    Rule::Pipe,
    Rule::Equal,
    Rule::Zero,
    Rule::Way,
    Rule::Inner,
    Rule::Fall,
    Rule::Order,
    Rule::Rise,
    Rule::Ratio,
    Rule::Sign,
    Rule::Reach,
    Rule::Along,
    Rule::Drop,
];

/// The name of a rule.
pub fn rule_word(rule: Rule) -> &'static str
    ensures { result.now ≡ rule_text rule }
{
    match rule {
        Rule::Balance => "balance",
        Rule::Pipe => "pipe",
        Rule::Equal => "equal",
        Rule::Zero => "zero",
        Rule::Way => "way",
        Rule::Inner => "inner",
        Rule::Fall => "fall",
        Rule::Order => "order",
        Rule::Rise => "rise",
        Rule::Ratio => "ratio",
        Rule::Sign => "sign",
        Rule::Reach => "reach",
        Rule::Along => "along",
        Rule::Drop => "drop",
    }
}

/// The rule of this name.
pub fn rule_at(word: &str) -> Option<Rule>
    ensures { result ≡ rule_at word.now }
{
    RULES.iter().copied().find(|rule| word == rule_word(*rule))
}

/// The word of the lower end, or of the upper one.
pub fn end_word(low: bool) -> &'static str
    ensures { result.now ≡ end_text low }
{
    if low { "lo" } else { "hi" }
}

/// Whether this is the word of the lower end.
pub fn end_at(word: &str) -> Option<bool>
    ensures { result ≡ end_at word.now }
{
    if word == "lo" {
        Some(true)
    } else if word == "hi" {
        Some(false)
    } else {
        None
    }
}

const FIRST_WORDS: [LineWord; 12] = [
    LineWord::Lo,
    LineWord::Hi,
    LineWord::Close,
    LineWord::Open,
    LineWord::Group,
    LineWord::Arc,
    LineWord::Halve,
    LineWord::Take,
    LineWord::State,
    LineWord::Half,
    LineWord::End,
    LineWord::Gastree,
];

fn text_of(word: LineWord) -> &'static str
    ensures { result.now ≡ word_text word }
{
    match word {
        LineWord::Lo => "lo",
        LineWord::Hi => "hi",
        LineWord::Close => "close",
        LineWord::Open => "open",
        LineWord::Group => "group",
        LineWord::Arc => "arc",
        LineWord::Halve => "halve",
        LineWord::Take => "take",
        LineWord::State => "state",
        LineWord::Half => "half",
        LineWord::End => "end",
        LineWord::Gastree => "gastree",
    }
}

/// The first word that the bytes are.
pub fn first_word_at(word: &[u8]) -> Option<LineWord>
    ensures { result ≡ first_word_at word.now }
{
    FIRST_WORDS
        .iter()
        .copied()
        .find(|first| word == text_of(*first).as_bytes())
}
