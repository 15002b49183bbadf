// Names: a letter and a number.
ghost use Rattle.std.specs.Prelude.{◌≡◌, ◌++◌, IfOk};
ghost use Rattle.line_text.specs.Numerals.{numeral};
ghost use Rattle.make_net.specs.Made.{node_name, arc_letter, arc_name};

use gas_model::{Name, NoMemory};
use itoa::Buffer;
use std::alloc::Global;

/// A letter, and a number after it.
fn name_of(alloc: Global, letter: &str, number: u32) -> Result<Name, NoMemory>
    ensures { IfOk result (λ name. name ≡ letter.now ++ numeral number) }
{
    let mut name = Name::of(alloc, letter)?;
    name.push_text(Buffer::new().format(number))?;
    Ok(name)
}

/// The id of a node.
pub fn node_name(alloc: Global, node: u32) -> Result<Name, NoMemory>
    ensures { IfOk result (λ name. name ≡ node_name node) }
{
    name_of(alloc, "n", node)
}

/// The letter of the arc from a node to the next one: of a valve, or of a pipe.
fn arc_letter(node: u32) -> &'static str
    ensures { result.now ≡ arc_letter node }
{
    if node == 0 { "v" } else { "p" }
}

/// The id of the arc from a node to the next one.
pub fn arc_name(alloc: Global, node: u32) -> Result<Name, NoMemory>
    ensures { IfOk result (λ name. name ≡ arc_name node) }
{
    name_of(alloc, arc_letter(node), node)
}
