// The bounds of a nominated node.
ghost use Rattle.std.specs.Prelude.{◌≡◌};
ghost use Rattle.element_fields.specs.Answers.{Gives};
ghost use Rattle.scn_reader.specs.Bounds.{bound_word, bounds_by, given_bounds, meet, widest, with_child, node_bounds};

use element_fields::{
    Sort, bad_word, bound_in, bounds_in, default_of, label, missing, next_child, value_of,
};
use gas_units::Side;
use std::alloc::Global;
use tag_outline::{Element, FileFault};

// Which bounds a quantity gives.
#[derive(Clone, Copy, Debug, PartialEq, Eq)]
pub enum BoundWord {
    Lower,
    Upper,
    Both,
}

/// The bounds of a node.
#[derive(Clone, Copy, Debug, PartialEq, Eq)]
pub struct NodeBounds {
    /// The least and the greatest flow.
    pub flow: (i64, i64),
    /// The least and the greatest pressure.
    pub pressure: (i64, i64),
}

fn bound_word(text: &str) -> Option<BoundWord>
    ensures { result ≡ bound_word text.now }
{
    if text == "lower" {
        Some(BoundWord::Lower)
    } else if text == "upper" {
        Some(BoundWord::Upper)
    } else if text == "both" {
        Some(BoundWord::Both)
    } else {
        None
    }
}

// The lower and the upper bound of a quantity, one of which may be the widest.
fn bounds_by(
    alloc: Global,
    word: BoundWord,
    sort: Sort,
    called: &str,
    q: &Element,
) -> Result<(i64, i64), FileFault>
    ensures { Gives result (bounds_by word sort called.now q.now) }
{
    match word {
        BoundWord::Lower => {
            let low = bound_in(alloc, sort, Side::Down, called, q)?;
            Ok((low, default_of(sort, Side::Up)))
        }
        BoundWord::Upper => {
            let high = bound_in(alloc, sort, Side::Up, called, q)?;
            Ok((default_of(sort, Side::Down), high))
        }
        BoundWord::Both => bounds_in(alloc, sort, called, q),
    }
}

// The checks of a quantity in their order: which bound, the value, the unit.
#[tactic(auto, unfolding(crate::specs::Bounds::given_bounds))]
fn given_bounds(
    alloc: Global,
    sort: Sort,
    called: &str,
    q: &Element,
) -> Result<(i64, i64), FileFault>
    ensures { Gives result (given_bounds sort called.now q.now) }
{
    let Some(text) = value_of("bound", q.attributes.as_slice()) else {
        return Err(missing(alloc, called, q.name.as_str()));
    };
    let Some(word) = bound_word(text) else {
        return Err(bad_word(alloc, called, q.name.as_str()));
    };
    bounds_by(alloc, word, sort, called, q)
}

fn meet(a: (i64, i64), b: (i64, i64)) -> (i64, i64)
    ensures { result ≡ meet a b }
{
    (a.0.max(b.0), a.1.min(b.1))
}

fn widest() -> NodeBounds
    ensures { result ≡ widest }
{
    NodeBounds {
        flow: (
            default_of(Sort::Flow, Side::Down),
            default_of(Sort::Flow, Side::Up),
        ),
        pressure: (
            default_of(Sort::Pressure, Side::Down),
            default_of(Sort::Pressure, Side::Up),
        ),
    }
}

// The bounds with those that a child of the node gives, if it is a flow or a pressure.
fn with_child(
    alloc: Global,
    called: &str,
    bounds: NodeBounds,
    q: &Element,
) -> Result<NodeBounds, FileFault>
    ensures { Gives result (with_child called.now bounds q.now) }
{
    if q.name.as_str() == "flow" {
        let given = given_bounds(alloc, Sort::Flow, called, q)?;
        return Ok(NodeBounds {
            flow: meet(bounds.flow, given),
            pressure: bounds.pressure,
        });
    }
    if q.name.as_str() == "pressure" {
        let given = given_bounds(alloc, Sort::Pressure, called, q)?;
        return Ok(NodeBounds {
            flow: bounds.flow,
            pressure: meet(bounds.pressure, given),
        });
    }
    Ok(bounds)
}

/// The tightest of all bounds that a node's children give, which `below` follow.
pub fn node_bounds(alloc: Global, e: &Element, below: &[Element]) -> Result<NodeBounds, FileFault>
    ensures { Gives result (node_bounds e.now below.now) }
{
    let called = label(e);
    let mut bounds = widest();
    let mut rest = below;
    while let Some((q, after)) = next_child(e.depth, rest) {
        let tighter = with_child(alloc, called, bounds, q)?;
        bounds = tighter;
        rest = after;
    }
    Ok(bounds)
}
