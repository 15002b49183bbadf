// The draws of a node, narrowed from both sides.
ghost use Rattle.std.specs.Prelude.{◌≡◌, ◌≤◌, ◌<◌, ◌^◌, ◌≤ℤ◌, ◌+ℤ◌, length, pos, IfOk, MatchResult};
ghost use Rattle.std.specs.Int.{int_div_euclid};
ghost use Rattle.gas_model.specs.Within.{IsWithin};
ghost use Rattle.decide.specs.Decided.{IsDecided};
ghost use Rattle.nom_range.specs.Draws.{drawn};
ghost use Rattle.nom_range.specs.Ranges.{CarriesDraw, IsMiddle, IsRange, IsRangeFault};
ghost use Rattle.nom_range.specs.Brackets.{IsBracket, IsTurn};

use crate::bracket::{Bracket, Turn};
use crate::draws::draw_at;
use crate::found::{RangeEnd, RangeFault, RangeFound, Refused};
use decide::{Found, decide};
use gas_model::{NoMemory, Problem, Setting};
use std::alloc::Global;

// What is asked: how much of `low` to `high` l/h a node may draw, by searches with this tolerance and this many boxes.
#[derive(Clone, Copy)]
struct Question<'a> {
    p: &'a Problem,
    node: u32,
    low: i64,
    high: i64,
    tol: u64,
    boxes: u64,
    ghost there: { node < length p.now.nodes },
    ghost from: { pos 0 ≤ℤ low },
    ghost order: { low ≤ℤ high },
    ghost to: { high ≤ℤ pos (10 ^ 12) },
    ghost tolerance: { tol ≤ 10 ^ 16 },
    ghost budget: { boxes ≤ 16384 },
}

// Half of both, rounded down.
fn middle(carried: i64, first: i64) -> i64
    requires from { pos 0 ≤ℤ carried }
    requires order { carried ≤ℤ first }
    requires to { first ≤ℤ pos (10 ^ 12) }
    ensures { result ≡ int_div_euclid (carried +ℤ first) (pos 2) }
{
    (carried + first).div_euclid(2)
}

// What is decided of a problem, which lies within its limits.
fn decided(alloc: Global, p: &Problem, tol: u64, boxes: u64) -> Result<Found, NoMemory>
    requires tol { tol ≤ 10 ^ 16 }
    requires boxes { boxes ≤ 16384 }
    ensures within { IsWithin p.now }
    ensures found { IfOk result (IsDecided p.now tol boxes) }
{
    let _nodes = p.nodes();
    decide(alloc, p, tol, boxes)
}

impl Question<'_> {
    // The problem in which the node draws from `least` to `most`.
    fn drawn(&self, least: i64, most: i64) -> Result<Problem, NoMemory>
        requires from { pos 0 ≤ℤ least }
        requires order { least ≤ℤ most }
        requires to { most ≤ℤ pos (10 ^ 12) }
        ensures { IfOk result (λ q. q ≡ drawn self.now.p.now self.now.node least most) }
    {
        self.p.with_supply(self.node, -most, -least)
    }

    // What is decided of it.
    fn find(&self, alloc: Global, least: i64, most: i64) -> Result<Found, NoMemory>
        requires from { pos 0 ≤ℤ least }
        requires order { least ≤ℤ most }
        requires to { most ≤ℤ pos (10 ^ 12) }
        ensures within { IfOk result (λ _. IsWithin (drawn self.now.p.now self.now.node least most)) }
        ensures found { IfOk result (IsDecided (drawn self.now.p.now self.now.node least most) self.now.tol self.now.boxes) }
    {
        let drawn = self.drawn(least, most)?;
        decided(alloc, &drawn, self.tol, self.boxes)
    }

    // What comes of a setting that the search from `mid` on found.
    fn raise(&self, known: Bracket, mid: i64, setting: Setting) -> Turn
        requires bracket { IsBracket self.now.p.now self.now.node self.now.low self.now.high self.now.tol known }
        requires middle { IsMiddle known.carried known.refused.first mid }
        requires found { IsDecided (drawn self.now.p.now self.now.node mid self.now.high) self.now.tol self.now.boxes (Found.Carried setting) }
        ensures { IsTurn self.now.p.now self.now.node self.now.low self.now.high self.now.tol self.now.boxes known result }
    {
        let draw = draw_at(self.p, &setting, self.node);
        if draw < known.refused.first {
            Turn::Narrower(known.raised(draw, setting))
        } else {
            Turn::Over(known.ended(RangeEnd::Overlap { mid, setting }))
        }
    }

    // The draws from the middle of a bracket on are searched.
    fn turn(&self, alloc: Global, known: Bracket) -> Result<Turn, NoMemory>
        requires bracket { IsBracket self.now.p.now self.now.node self.now.low self.now.high self.now.tol known }
        requires apart { (known.carried +ℤ pos 2) ≤ℤ known.refused.first }
        ensures { IfOk result (IsTurn self.now.p.now self.now.node self.now.low self.now.high self.now.tol self.now.boxes known) }
    {
        let mid = middle(known.carried, known.refused.first);
        match self.find(alloc, mid, self.high)? {
            Found::Carried(setting) => Ok(self.raise(known, mid, setting)),
            Found::Refuted(tree) => Ok(Turn::Narrower(known.lowered(Refused { first: mid, tree }))),
            Found::Left { why, tree, line } => {
                let end = RangeEnd::Left {
                    mid,
                    why,
                    tree,
                    line,
                };
                Ok(Turn::Over(known.ended(end)))
            }
        }
    }

    // The range, where a draw is carried and others above it are refused.
    fn narrow(&self, alloc: Global, mut known: Bracket) -> Result<RangeFound, NoMemory>
        requires { IsBracket self.now.p.now self.now.node self.now.low self.now.high self.now.tol known }
        ensures { IfOk result (IsRange self.now.p.now self.now.node self.now.low self.now.high self.now.tol self.now.boxes) }
    {
        while known.refused.first - known.carried >= 2 {
            match self.turn(alloc, known)? {
                Turn::Narrower(next) => known = next,
                Turn::Over(found) => return Ok(found),
            }
        }
        Ok(known.ended(RangeEnd::Narrow))
    }

    // The range, where the least draw is carried.
    fn from_low(&self, alloc: Global, setting: Setting) -> Result<RangeFound, NoMemory>
        requires { CarriesDraw self.now.p.now self.now.node self.now.tol self.now.low setting }
        ensures { IfOk result (IsRange self.now.p.now self.now.node self.now.low self.now.high self.now.tol self.now.boxes) }
    {
        if self.low == self.high {
            return Ok(whole(self.low, setting));
        }
        match self.find(alloc, self.high, self.high)? {
            Found::Carried(setting) => Ok(whole(self.high, setting)),
            Found::Refuted(tree) => {
                let refused = Refused {
                    first: self.high,
                    tree,
                };
                let known = Bracket {
                    carried: self.low,
                    setting,
                    refused,
                };
                self.narrow(alloc, known)
            }
            Found::Left { why, tree, line } => {
                let end = RangeEnd::Left {
                    mid: self.high,
                    why,
                    tree,
                    line,
                };
                Ok(unrefused(self.low, setting, end))
            }
        }
    }
}

// The range of which nothing is refused.
fn unrefused(carried: i64, setting: Setting, end: RangeEnd) -> RangeFound
    ensures { result ≡ record { carried = carried; setting = setting; refused = None; end = end } }
{
    RangeFound {
        carried,
        setting,
        refused: None,
        end,
    }
}

// The range that is carried whole.
fn whole(carried: i64, setting: Setting) -> RangeFound
    ensures { result ≡ record { carried = carried; setting = setting; refused = None; end = RangeEnd.Whole } }
{
    unrefused(carried, setting, RangeEnd::Whole)
}

/// Searches how much a node may draw, of at least `low` and at most `high` l/h, which are at most 10^12: the problem in which
/// it draws just `low`; the one in which it draws just `high`, where that is another draw; and then, while a whole draw lies
/// between what is carried and what is refused first, the one in which it draws at least the middle of both, rounded down,
/// and at most `high`. What refutes it makes the middle the first draw that is refused; a setting makes its own draw the one
/// that is carried, where it lies below the first that is refused. Anything else ends it. There are at most 42 searches, each
/// with this tolerance in Pa^2 and this many boxes.
pub fn range(
    alloc: Global,
    p: &Problem,
    node: u32,
    low: i64,
    high: i64,
    tol: u64,
    boxes: u64,
) -> Result<RangeFound, RangeFault>
    requires node { node < length p.now.nodes }
    requires from { pos 0 ≤ℤ low }
    requires order { low ≤ℤ high }
    requires to { high ≤ℤ pos (10 ^ 12) }
    requires tol { tol ≤ 10 ^ 16 }
    requires boxes { boxes ≤ 16384 }
    ensures { MatchResult result (IsRange p.now node low high tol boxes) (IsRangeFault p.now node low tol boxes) }
{
    let asked = Question {
        p,
        node,
        low,
        high,
        tol,
        boxes,
    };
    match asked.find(alloc, low, low)? {
        Found::Carried(setting) => {
            let found = asked.from_low(alloc, setting)?;
            Ok(found)
        }
        Found::Refuted(tree) => Err(RangeFault::Refuted { tree }),
        Found::Left { why, tree, line } => Err(RangeFault::Left { why, tree, line }),
    }
}
