// The nodes of a cut.
ghost use Rattle.std.specs.Prelude.{◌≡◌, true, nat_lt, IfOk, option_map};
ghost use Rattle.std.specs.Str.Parse.{digits_value};
ghost use Rattle.line_text.specs.Numerals.{is_numeral};
ghost use Rattle.tree_cert.specs.Fields.{Gives, found};
ghost use Rattle.tree_cert.specs.Reading.{nodes_at};
ghost use Rattle.tree_cert.specs.Nodes.{with_node, node_field};

use crate::fault::LineFault;
use base_types::{List, NoMemory};
use line_text::{bytes_at, position_in};
use std::alloc::Global;

/// Whether a number is below another one, by their digits, however many there are.
fn is_below(number: &[u8], other: &[u8]) -> bool
    requires number { is_numeral number.now ≡ true }
    requires other { is_numeral other.now ≡ true }
    ensures { result ≡ nat_lt (digits_value 10 number.now) (digits_value 10 other.now) }
{
    number.len() < other.len() || number.len() == other.len() && number < other
}

/// The nodes and one more, where all of them fit.
fn with_node(nodes: Option<List<u32>>, node: Option<u32>) -> Result<Option<List<u32>>, NoMemory>
    ensures { IfOk result (λ x. x ≡ with_node nodes node) }
{
    match (nodes, node) {
        (Some(mut list), Some(n)) => {
            list.push(n)?;
            Ok(Some(list))
        }
        _ => Ok(None),
    }
}

/// The digits of a node, the node, and what comes after it.
#[tactic(auto, unfolding(crate::specs::Nodes::node_field))]
fn node_field(bytes: &[u8]) -> Option<(&[u8], Option<u32>, &[u8])>
    ensures { option_map (λ x. (x.0.now, x.1, x.2.now)) result ≡ node_field bytes.now }
{
    let (word, rest) = bytes_at(bytes)?;
    let node = position_in(word)?;
    Some((word, node, rest))
}

/// Nodes that ascend strictly, at least one. A node past 32 bits makes them none.
pub fn nodes_at(alloc: Global, bytes: &[u8]) -> Result<Option<List<u32>>, LineFault>
    ensures { Gives (λ x. x) result (found (nodes_at bytes.now)) }
{
    let Some((mut last, node, mut rest)) = node_field(bytes) else {
        return Err(LineFault::NotLine);
    };
    let mut nodes = with_node(Some(List::new(alloc)), node)?;
    while !rest.is_empty() {
        let Some((word, node, after)) = node_field(rest) else {
            return Err(LineFault::NotLine);
        };
        if !is_below(last, word) {
            return Err(LineFault::NotLine);
        }
        nodes = with_node(nodes, node)?;
        last = word;
        rest = after;
    }
    Ok(nodes)
}
