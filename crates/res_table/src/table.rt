// The rows of a table.
ghost use Rattle.std.specs.Prelude.{◌≡◌};
ghost use Rattle.res_table.specs.Table.{Gives, resistance_rows};

use crate::records::{next_record, reader_of};
use crate::row::row_in;
use crate::rows::ResRows;
use csv::ByteRecord;
use file_faults::ResFault;
use gas_model::List;
use std::alloc::Global;

/// The rows of a table of comma-separated fields without a header row, or the first bad record. Its five fields are
/// `pipe`, `resistor` or `station`, the id of an arc, and the three numbers of the row. A record of another form, a bad id,
/// a number outside its limits and a lower resistance above the upper one are bad.
///
/// Records are counted from 1, and blank lines are none. A byte order mark before the table is passed over.
pub fn read_res(alloc: Global, bytes: &[u8]) -> Result<ResRows, ResFault>
    ensures { Gives (λ table. table.rows) result (resistance_rows bytes.now) }
{
    let mut reader = reader_of(alloc, bytes);
    let mut fields = ByteRecord::new(alloc);
    let mut rows = List::new(alloc);
    for number in 1..u64::MAX {
        if !next_record(&mut reader, &mut fields)? {
            return Ok(ResRows { rows });
        }
        let Some(row) = row_in(alloc, &fields)? else {
            return Err(ResFault::BadRow { row: number });
        };
        rows.push(row)?;
    }
    Err(ResFault::NoMemory)
}
