// The table of resistances, by word and id.
ghost use Rattle.std.specs.Prelude.{◌≡◌, ℕ, ◌+◌, ◌^◌, ◌<◌, ◌||◌, List, None, OnOk, IfOk, IfErr};
ghost use Rattle.std.specs.Option.{option_or};
ghost use Rattle.res_table.specs.declared.rows.ResWord.{ResWord};
ghost use Rattle.network.specs.Faults.{Tells};
ghost use Rattle.network.specs.Table.{is_row, in_table, row_word, takes, is_taken, table_fault};
ghost use Rattle.network.specs.Marks.{is_marked};
ghost use Rattle.network.specs.Tables.{look_row, no_rows, only_row, row_offence};

use crate::marks::{Marks, is_marked, mark, no_marks};
use gas_model::NoMemory;
use name_places::{ByName, keep_first, no_values, value_of};
use net_reader::{ArcWord, NetArc};
use problem_faults::JoinFault;
use res_table::{ResRow, ResWord};
use std::alloc::Global;

/// The numbers of a row.
#[derive(Clone, Copy, Debug, PartialEq, Eq)]
pub struct Numbers {
    pub a: i64,
    pub b: i64,
    pub c: i64,
}

/// The numbers of rows by their ids, for each word.
#[derive(Drop)]
pub struct Table<'a> {
    pub pipes: ByName<'a, Numbers>,
    pub resistors: ByName<'a, Numbers>,
    pub stations: ByName<'a, Numbers>,
}

fn no_rows<'a>(alloc: Global) -> Table<'a>
    ensures { look_row result ≡ no_rows }
{
    Table {
        pipes: no_values(alloc),
        resistors: no_values(alloc),
        stations: no_values(alloc),
    }
}

// Adds a row, unless an earlier one has its word and id.
fn add_row<'a>(table: &mut Table<'a>, row: &'a ResRow) -> Result<(), NoMemory>
    ensures { OnOk result ((w : ResWord) (id : List ℕ) → look_row table.new w id ≡ option_or (look_row table.old w id) (only_row row.now w id)) }
{
    let numbers = Numbers {
        a: row.a,
        b: row.b,
        c: row.c,
    };
    let id = row.id.as_str();
    match row.word {
        ResWord::Pipe => keep_first(&mut table.pipes, id, numbers),
        ResWord::Resistor => keep_first(&mut table.resistors, id, numbers),
        ResWord::Station => keep_first(&mut table.stations, id, numbers),
    }
}

/// The rows by word and id; of two with the same, the first.
pub fn table_of(alloc: Global, rows: &[ResRow]) -> Result<Table<'_>, NoMemory>
    ensures { IfOk result (λ t. look_row t ≡ in_table rows.now) }
{
    let mut table = no_rows(alloc);
    for row in rows {
        add_row(&mut table, row)?;
    }
    Ok(table)
}

/// The numbers of the row of a word and an id.
pub fn find_row(table: &Table<'_>, word: ResWord, id: &str) -> Option<Numbers>
    ensures { result ≡ look_row table.now word id.now }
{
    match word {
        ResWord::Pipe => value_of(&table.pipes, id),
        ResWord::Resistor => value_of(&table.resistors, id),
        ResWord::Station => value_of(&table.stations, id),
    }
}

/// The word of the row that a connection takes.
pub fn row_word(word: ArcWord) -> Option<ResWord>
    ensures { result ≡ row_word word }
{
    match word {
        ArcWord::Pipe => Some(ResWord::Pipe),
        ArcWord::Resistor { loss: None } => Some(ResWord::Resistor),
        ArcWord::Station { .. } => Some(ResWord::Station),
        ArcWord::Resistor { loss: Some(_) } => None,
        ArcWord::Short | ArcWord::Valve | ArcWord::Control { .. } => None,
    }
}

// Marks the row that a connection takes.
fn mark_taken<'a>(taken: &mut Marks<'a>, arc: &'a NetArc) -> Result<(), NoMemory>
    ensures { OnOk result ((w : ResWord) (id : List ℕ) → is_marked taken.new w id ≡ (is_marked taken.old w id || takes w id arc.now)) }
{
    if let Some(word) = row_word(arc.word) {
        mark(taken, word, arc.id.as_str())?;
    }
    Ok(())
}

// The words and ids of all rows that connections take.
fn taken_rows(alloc: Global, arcs: &[NetArc]) -> Result<Marks<'_>, NoMemory>
    ensures { IfOk result (λ taken. is_marked taken ≡ is_taken arcs.now) }
{
    let mut taken = no_marks(alloc);
    for arc in arcs {
        mark_taken(&mut taken, arc)?;
    }
    Ok(taken)
}

// That a row, after so many others which are marked in `seen`, is the first of its word and id, and is taken.
fn check_row<'a>(
    taken: &Marks<'_>,
    seen: &mut Marks<'a>,
    before: usize,
    row: &'a ResRow,
) -> Result<(), JoinFault>
    requires { before + 1 < 2 ^ 64 }
    ensures seen { OnOk result ((w : ResWord) (id : List ℕ) → is_marked seen.new w id ≡ (is_marked seen.old w id || is_row w id row.now)) }
    ensures clean { OnOk result (row_offence (is_marked taken.now) (is_marked seen.old) before row.now ≡ None) }
    ensures err { IfErr result (λ e. Tells e (row_offence (is_marked taken.now) (is_marked seen.old) before row.now)) }
{
    let number = before as u64 + 1;
    let id = row.id.as_str();
    if !mark(seen, row.word, id)? {
        return Err(JoinFault::TwiceRow { row: number });
    }
    if !is_marked(taken, row.word, id) {
        return Err(JoinFault::UnusedRow { row: number });
    }
    Ok(())
}

// All rows against those that connections take.
fn check_rows(alloc: Global, taken: &Marks<'_>, rows: &[ResRow]) -> Result<(), JoinFault>
    ensures clean { OnOk result (table_fault (is_marked taken.now) rows.now ≡ None) }
    ensures err { IfErr result (λ e. Tells e (table_fault (is_marked taken.now) rows.now)) }
{
    let mut seen = no_marks(alloc);
    for (before, row) in rows.iter().enumerate() {
        check_row(taken, &mut seen, before, row)?;
    }
    Ok(())
}

/// That no row of the table stands twice, and that some connection takes each.
pub fn check_table(alloc: Global, arcs: &[NetArc], rows: &[ResRow]) -> Result<(), JoinFault>
    ensures clean { OnOk result (table_fault (is_taken arcs.now) rows.now ≡ None) }
    ensures err { IfErr result (λ e. Tells e (table_fault (is_taken arcs.now) rows.now)) }
{
    let taken = taken_rows(alloc, arcs)?;
    check_rows(alloc, &taken, rows)
}
