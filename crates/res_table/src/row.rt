// The row that a record is.
ghost use Rattle.std.specs.Prelude.{◌≡◌, IfOk, option_map, option_and_then};
ghost use Rattle.csv.specs.Records.{fields_of, field_at};
ghost use Rattle.gas_model.specs.Limits.{is_kind_within};
ghost use Rattle.res_table.specs.Fields.{word_named, id_named, number_named};
ghost use Rattle.res_table.specs.Row.{is_row_within, row_of, row_in};

use crate::fields::{id_named, number_named, word_named};
use crate::rows::{ResRow, ResWord};
use csv::ByteRecord;
use gas_model::{ArcKind, Drag, Name, NoMemory, is_kind_within};
use std::alloc::Global;

/// The word of a record.
fn word_in(fields: &ByteRecord) -> Option<ResWord>
    ensures { result ≡ option_and_then word_named (field_at (fields_of fields.now) 0) }
{
    word_named(fields.get(0)?)
}

/// The id in a record.
fn id_in(fields: &ByteRecord) -> Option<&str>
    ensures { option_map (λ id. id.now) result ≡ option_and_then id_named (field_at (fields_of fields.now) 1) }
{
    id_named(fields.get(1)?)
}

/// The number at a place of a record.
fn number_in(fields: &ByteRecord, place: usize) -> Option<i64>
    ensures { result ≡ option_and_then number_named (field_at (fields_of fields.now) place) }
{
    number_named(fields.get(place)?)
}

/// The row that the fields of a record are, whatever its numbers.
#[tactic(auto, unfolding(crate::specs::Row::row_of))]
fn row_of(alloc: Global, fields: &ByteRecord) -> Result<Option<ResRow>, NoMemory>
    ensures { IfOk result (λ row. row ≡ row_of (fields_of fields.now)) }
{
    let Some(word) = word_in(fields) else {
        return Ok(None);
    };
    let Some(id) = id_in(fields) else {
        return Ok(None);
    };
    let Some(a) = number_in(fields, 2) else {
        return Ok(None);
    };
    let Some(b) = number_in(fields, 3) else {
        return Ok(None);
    };
    let Some(c) = number_in(fields, 4) else {
        return Ok(None);
    };
    let id = Name::of(alloc, id)?;
    Ok(Some(ResRow { word, id, a, b, c }))
}

/// The kind of an arc that has the numbers of a row.
fn kind_of(row: &ResRow) -> ArcKind
    ensures { is_kind_within result ≡ is_row_within row.now }
{
    let law = Drag {
        lo: row.a,
        hi: row.b,
        den: row.c,
    };
    match row.word {
        ResWord::Pipe => ArcKind::Pipe { law },
        ResWord::Resistor => ArcKind::Resist { law },
        ResWord::Station => ArcKind::Station {
            in_min: 0,
            out_max: 0,
            ratio_num: row.a,
            ratio_den: row.b,
            rise_max: row.c,
        },
    }
}

/// The row that a record is, if it is one.
pub fn row_in(alloc: Global, fields: &ByteRecord) -> Result<Option<ResRow>, NoMemory>
    ensures { IfOk result (λ row. row ≡ row_in (fields_of fields.now)) }
{
    if fields.len() != 5 {
        return Ok(None);
    }
    let Some(row) = row_of(alloc, fields)? else {
        return Ok(None);
    };
    if is_kind_within(&kind_of(&row)) {
        Ok(Some(row))
    } else {
        Ok(None)
    }
}
