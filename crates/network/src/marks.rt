// Which words and ids of rows were seen.
ghost use Rattle.std.specs.Prelude.{◌≡◌, ℕ, List, not, ◌&&◌, ◌||◌, OnOk, IfOk};
ghost use Rattle.std.specs.Str.{bytes_eq};
ghost use Rattle.res_table.specs.declared.rows.ResWord.{ResWord};
ghost use Rattle.network.specs.Table.{is_word};
ghost use Rattle.network.specs.Marks.{is_marked, nothing_marked};

use gas_model::NoMemory;
use name_places::NamePlaces;
use res_table::ResWord;
use std::alloc::Global;

/// Ids by the words of their rows.
#[derive(Drop)]
pub struct Marks<'a> {
    pub pipes: NamePlaces<'a>,
    pub resistors: NamePlaces<'a>,
    pub stations: NamePlaces<'a>,
}

pub fn no_marks<'a>(alloc: Global) -> Marks<'a>
    ensures { is_marked result ≡ nothing_marked }
{
    Marks {
        pipes: NamePlaces::new(alloc),
        resistors: NamePlaces::new(alloc),
        stations: NamePlaces::new(alloc),
    }
}

/// Adds an id under a word, or answers `false` where it is there.
pub fn mark<'a>(marks: &mut Marks<'a>, word: ResWord, id: &'a str) -> Result<bool, NoMemory>
    ensures fresh { IfOk result (λ b. b ≡ not (is_marked marks.old word id.now)) }
    ensures marked { OnOk result ((w : ResWord) (q : List ℕ) → is_marked marks.new w q ≡ (is_marked marks.old w q || (is_word w word && bytes_eq q id.now))) }
{
    match word {
        ResWord::Pipe => marks.pipes.add(id),
        ResWord::Resistor => marks.resistors.add(id),
        ResWord::Station => marks.stations.add(id),
    }
}

/// Whether an id is there under a word.
pub fn is_marked(marks: &Marks<'_>, word: ResWord, id: &str) -> bool
    ensures { result ≡ is_marked marks.now word id.now }
{
    match word {
        ResWord::Pipe => marks.pipes.holds(id),
        ResWord::Resistor => marks.resistors.holds(id),
        ResWord::Station => marks.stations.holds(id),
    }
}
