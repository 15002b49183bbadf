// Lines of which some are left out.
ghost use Rattle.std.specs.Prelude.{◌≡◌, true, length, IfOk};
ghost use Rattle.std.specs.List.{list_all};
ghost use Rattle.tree_cert.specs.Spelling.{has_ordered_cut, AreLines};
ghost use Rattle.tree_trim.specs.Kept.{kept_of};

use gas_model::{Bytes, NoMemory};
use std::alloc::Global;
use tree_cert::{Line, write_line};

/// The text of the lines that aren't left out, in their order.
pub fn kept_text(alloc: Global, lines: &[Line], left_out: &[bool]) -> Result<Bytes, NoMemory>
    requires ordered { list_all has_ordered_cut lines.now ≡ true }
    requires marks { length left_out.now ≡ length lines.now }
    ensures { IfOk result (λ bytes. AreLines bytes (kept_of lines.now left_out.now)) }
{
    let mut out = Bytes::new(alloc);
    for (i, line) in lines.iter().enumerate() {
        if !left_out[i] {
            write_line(line, &mut out)?;
        }
    }
    Ok(out)
}
