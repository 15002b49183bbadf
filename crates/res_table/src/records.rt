// Records, one after the other.
ghost use Rattle.std.specs.Prelude.{◌≡◌, [], List, ℕ, IfOk};
ghost use Rattle.csv.specs.Machine.{next_record};
ghost use Rattle.csv.specs.Reading.{default_config, error_kind, strip_bom};
ghost use Rattle.csv.specs.Records.{fields_of};
ghost use Rattle.csv.specs.declared.parser.State.TheVariants as st;
ghost use Rattle.csv.specs.declared.parser.State.{State};
ghost use Rattle.res_table.specs.Reading.{CanRead, IsWant, Stands, Took};

use csv::{ByteRecord, Error, ErrorKind, Reader, ReaderBuilder};
use gas_model::NoMemory;
use std::alloc::Global;

/// A reader at the start of a table, which has no header row and records of any length.
pub fn reader_of(alloc: Global, bytes: &[u8]) -> Reader<&[u8]>
    ensures { Stands result st.StartRecord (strip_bom bytes.now) }
{
    ReaderBuilder::new()
        .has_headers(false)
        .flexible(true)
        .from_reader(alloc, bytes)
}

/// What an error of reading is an answer to: want of memory, or a source that can't be read, which bytes in memory never
/// are. No other error comes, as a record may have any length and any bytes.
fn want_of(error: Error) -> NoMemory
    requires { IsWant (error_kind error) }
{
    match error.into_kind() {
        ErrorKind::OutOfMemory | ErrorKind::Io(_) => NoMemory,
        ErrorKind::Utf8 { .. }
        | ErrorKind::UnequalLengths { .. }
        | ErrorKind::Serialize(_)
        | ErrorKind::Deserialize { .. } => unreachable!(),
    }
}

/// The next record, and whether there was one.
pub fn next_record(reader: &mut Reader<&[u8]>, fields: &mut ByteRecord) -> Result<bool, NoMemory>
    requires { CanRead reader.old }
    ensures { IfOk result (λ found. (s : State) (text : List ℕ) → Stands reader.old s text → Took (next_record default_config s [] [] text) found (fields_of fields.new) reader.new) }
{
    match reader.read_byte_record(fields) {
        Ok(found) => Ok(found),
        Err(error) => Err(want_of(error)),
    }
}
