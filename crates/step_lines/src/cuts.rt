// The closing by a cut in front of bytes.
ghost use Rattle.std.specs.Prelude.{◌≡◌, ◌++◌, codes, IfSome};
ghost use Rattle.step_lines.specs.Fronts.{AreNodesBefore, IsCutBefore};

use crate::digits::number_front;
use base_types::List;
use std::alloc::Global;

// Nodes that ascend strictly, at least one, each with the space or the line feed behind it, and what comes after the line.
fn nodes_before(alloc: Global, bytes: &[u8]) -> Option<(List<u32>, &[u8])>
    ensures { IfSome result (λ x. AreNodesBefore bytes.now x.0 x.1.now) }
{
    let mut nodes = List::new(alloc);
    let mut least: u64 = 0;
    let mut rest = bytes;
    while let Some((number, stop, after)) = number_front(rest) {
        if number < least {
            return None;
        }
        let Ok(node) = u32::try_from(number) else {
            return None;
        };
        let Ok(()) = nodes.push(node) else {
            return None;
        };
        if stop == b'\n' {
            return Some((nodes, after));
        }
        if stop != b' ' {
            return None;
        }
        least = number + 1;
        rest = after;
    }
    None
}

// What comes after the words of a closing by a cut.
fn after_words(bytes: &[u8]) -> Option<&[u8]>
    ensures { IfSome result (λ rest. bytes.now ≡ codes "close cut " ++ rest.now) }
{
    match bytes {
        [
            b'c',
            b'l',
            b'o',
            b's',
            b'e',
            b' ',
            b'c',
            b'u',
            b't',
            b' ',
            rest @ ..,
        ] => Some(rest),
        _ => None,
    }
}

/// The nodes of the closing by a cut that the first line spells, and what comes after it. No answer where it spells none,
/// or a node has too many digits, or there is no memory for them.
pub fn cut_before(alloc: Global, bytes: &[u8]) -> Option<(List<u32>, &[u8])>
    ensures { IfSome result (λ x. IsCutBefore bytes.now x.0 x.1.now) }
{
    let tail = after_words(bytes)?;
    let (nodes, rest) = nodes_before(alloc, tail)?;
    Some((nodes, rest))
}
