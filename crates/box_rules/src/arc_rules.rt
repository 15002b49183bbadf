// The conditions of steps and closings by the law of one arc, in units of 1/scale.
ghost use Rattle.std.specs.Prelude.{◌≡◌, pos, negsuc, ◌&&◌, not, int_le, IsTrue};
ghost use Rattle.gas_model.specs.Curves.{at_least};
ghost use Rattle.base_types.specs.Numbers.{is_difference, is_ratio_part};
ghost use Rattle.gas_model.specs.Laws.{is_pipe_within};
ghost use Rattle.tree_rules.specs.ArcRules as rule;
ghost use Rattle.box_rules.specs.ArcLimits.{AreSafeSides, IsSafeAt};
ghost use Rattle.gas_model.specs.BoxLimits.{IsScale};

use box_ends::scaled_square;
use element_laws::{drop_gap, drop_high, drop_low, ratio_square, scaled_at_least, scaled_at_most};
use gas_model::PipeLaw;
use tree_rules::{ArcEnds, ArcVar};

// By the drop along a resistance.
pub fn pipe_step(
    law: &PipeLaw,
    scale: i128,
    e: ArcEnds,
    side: ArcVar,
    low: bool,
    value: i128,
) -> bool
    requires law { IsTrue (is_pipe_within law.now) }
    requires scale { IsScale scale }
    requires ends { AreSafeSides e }
    requires value { IsSafeAt side value }
    ensures { result ≡ rule.pipe_step law.now scale e side low value }
{
    match side {
        ArcVar::OfFlow => {
            if low {
                drop_high(&law.drag, value) <= drop_gap(law, scale, e.u.lo, e.v.hi)
            } else {
                drop_gap(law, scale, e.u.hi, e.v.lo) <= drop_low(&law.drag, value)
            }
        }
        ArcVar::OfFrom => {
            if low {
                drop_gap(law, scale, value, e.v.lo) <= drop_low(&law.drag, e.q.lo)
            } else {
                drop_high(&law.drag, e.q.hi) <= drop_gap(law, scale, value, e.v.hi)
            }
        }
        ArcVar::OfTo => {
            if low {
                drop_high(&law.drag, e.q.hi) <= drop_gap(law, scale, e.u.lo, value)
            } else {
                drop_gap(law, scale, e.u.hi, value) <= drop_low(&law.drag, e.q.lo)
            }
        }
    }
}

// By equal squares.
pub fn equal_step(e: ArcEnds, side: ArcVar, low: bool, value: i128) -> bool
    ensures { result ≡ rule.equal_step e side low value }
{
    match side {
        ArcVar::OfFlow => false,
        ArcVar::OfFrom => {
            if low {
                value <= e.v.lo
            } else {
                e.v.hi <= value
            }
        }
        ArcVar::OfTo => {
            if low {
                value <= e.u.lo
            } else {
                e.u.hi <= value
            }
        }
    }
}

// By a flow of 0.
pub fn zero_step(side: ArcVar, low: bool, value: i128) -> bool
    ensures { result ≡ rule.zero_step side low value }
{
    match side {
        ArcVar::OfFlow => { if low { value <= 0 } else { 0 <= value } }
        ArcVar::OfFrom | ArcVar::OfTo => false,
    }
}

// By a flow that goes forward.
pub fn way_step(side: ArcVar, low: bool, value: i128) -> bool
    ensures { result ≡ rule.way_step side low value }
{
    match side {
        ArcVar::OfFlow => low && value <= 0,
        ArcVar::OfFrom | ArcVar::OfTo => false,
    }
}

// By the least pressure before and the greatest pressure after an active arc.
pub fn inner_step(
    in_min: i64,
    out_max: i64,
    scale: i128,
    side: ArcVar,
    low: bool,
    value: i128,
) -> bool
    requires in_min { IsTrue (is_difference in_min) }
    requires out_max { IsTrue (is_difference out_max) }
    requires scale { IsScale scale }
    ensures { result ≡ rule.inner_step in_min out_max scale side low value }
{
    match side {
        ArcVar::OfFlow => false,
        ArcVar::OfFrom => low && value <= scaled_square(scale, in_min),
        ArcVar::OfTo => !low && scaled_square(scale, out_max) <= value,
    }
}

// By a pressure that falls by `red_min` to `red_max` Pa.
pub fn fall_step(
    red_min: i64,
    red_max: i64,
    scale: i128,
    e: ArcEnds,
    side: ArcVar,
    low: bool,
    value: i128,
) -> bool
    requires red_min { IsTrue (is_difference red_min) }
    requires red_max { IsTrue (is_difference red_max) }
    requires scale { IsScale scale }
    requires ends { AreSafeSides e }
    requires value { IsSafeAt side value }
    ensures { result ≡ rule.fall_step red_min red_max scale e side low value }
{
    match side {
        ArcVar::OfFlow => false,
        ArcVar::OfFrom => {
            if low {
                scaled_at_most(scale, value, e.v.lo, red_min)
            } else {
                scaled_at_least(scale, value, e.v.hi, red_max)
            }
        }
        ArcVar::OfTo => {
            if low {
                scaled_at_least(scale, e.u.lo, value, red_max)
            } else {
                scaled_at_most(scale, e.u.hi, value, red_min)
            }
        }
    }
}

// By a pressure that doesn't fall.
pub fn order_step(e: ArcEnds, side: ArcVar, low: bool, value: i128) -> bool
    ensures { result ≡ rule.order_step e side low value }
{
    match side {
        ArcVar::OfFlow => false,
        ArcVar::OfFrom => !low && e.v.hi <= value,
        ArcVar::OfTo => low && value <= e.u.lo,
    }
}

// By a pressure that rises by at most `rise_max` Pa.
pub fn rise_step(
    rise_max: i64,
    scale: i128,
    e: ArcEnds,
    side: ArcVar,
    low: bool,
    value: i128,
) -> bool
    requires rise_max { IsTrue (is_difference rise_max) }
    requires scale { IsScale scale }
    requires ends { AreSafeSides e }
    requires value { IsSafeAt side value }
    ensures { result ≡ rule.rise_step rise_max scale e side low value }
{
    match side {
        ArcVar::OfFlow => false,
        ArcVar::OfFrom => low && scaled_at_least(scale, e.v.lo, value, rise_max),
        ArcVar::OfTo => !low && scaled_at_least(scale, value, e.u.hi, rise_max),
    }
}

// By a pressure that rises at most to its `num / den`-fold.
pub fn ratio_step(num: i64, den: i64, e: ArcEnds, side: ArcVar, low: bool, value: i128) -> bool
    requires num { IsTrue (is_ratio_part num) }
    requires den { IsTrue (is_ratio_part den) }
    requires ends { AreSafeSides e }
    requires value { IsSafeAt side value }
    ensures { result ≡ rule.ratio_step num den e side low value }
{
    match side {
        ArcVar::OfFlow => false,
        ArcVar::OfFrom => low && ratio_square(num, value) <= ratio_square(den, e.v.lo),
        ArcVar::OfTo => !low && ratio_square(num, e.u.hi) <= ratio_square(den, value),
    }
}

// By a constant loss that the squares allow one way alone.
pub fn sign_step(
    low_loss: i64,
    scale: i128,
    e: ArcEnds,
    side: ArcVar,
    low: bool,
    value: i128,
) -> bool
    requires loss { IsTrue (is_difference low_loss) }
    requires scale { IsScale scale }
    requires ends { AreSafeSides e }
    ensures { result ≡ rule.sign_step low_loss scale e side low value }
{
    match side {
        ArcVar::OfFlow => {
            if low {
                value <= 0 && !scaled_at_least(scale, e.v.hi, e.u.lo, low_loss)
            } else {
                0 <= value && !scaled_at_least(scale, e.u.hi, e.v.lo, low_loss)
            }
        }
        ArcVar::OfFrom | ArcVar::OfTo => false,
    }
}

// By the greatest loss of pressure, which holds both ways.
pub fn reach_step(
    high_loss: i64,
    scale: i128,
    e: ArcEnds,
    side: ArcVar,
    low: bool,
    value: i128,
) -> bool
    requires loss { IsTrue (is_difference high_loss) }
    requires scale { IsScale scale }
    requires ends { AreSafeSides e }
    requires value { IsSafeAt side value }
    ensures { result ≡ rule.reach_step high_loss scale e side low value }
{
    match side {
        ArcVar::OfFlow => false,
        ArcVar::OfFrom => {
            if low {
                scaled_at_least(scale, e.v.lo, value, high_loss)
            } else {
                scaled_at_least(scale, value, e.v.hi, high_loss)
            }
        }
        ArcVar::OfTo => {
            if low {
                scaled_at_least(scale, e.u.lo, value, high_loss)
            } else {
                scaled_at_least(scale, value, e.u.hi, high_loss)
            }
        }
    }
}

// By a pressure that doesn't rise along the flow, whose direction is known.
pub fn along_step(e: ArcEnds, side: ArcVar, low: bool, value: i128) -> bool
    ensures { result ≡ rule.along_step e side low value }
{
    match side {
        ArcVar::OfFlow => false,
        ArcVar::OfFrom => {
            if low {
                0 <= e.q.lo && value <= e.v.lo
            } else {
                e.q.hi <= 0 && e.v.hi <= value
            }
        }
        ArcVar::OfTo => {
            if low {
                e.q.hi <= 0 && value <= e.u.lo
            } else {
                0 <= e.q.lo && e.u.hi <= value
            }
        }
    }
}

// By the least loss of pressure along the flow, which is at least a unit of the box one way.
pub fn drop_step(
    low_loss: i64,
    scale: i128,
    e: ArcEnds,
    side: ArcVar,
    low: bool,
    value: i128,
) -> bool
    requires loss { IsTrue (is_difference low_loss) }
    requires scale { IsScale scale }
    requires ends { AreSafeSides e }
    requires value { IsSafeAt side value }
    ensures { result ≡ rule.drop_step low_loss scale e side low value }
{
    match side {
        ArcVar::OfFlow => false,
        ArcVar::OfFrom => {
            if low {
                1 <= e.q.lo && scaled_at_most(scale, value, e.v.lo, low_loss)
            } else {
                e.q.hi <= -1 && scaled_at_most(scale, e.v.hi, value, low_loss)
            }
        }
        ArcVar::OfTo => {
            if low {
                e.q.hi <= -1 && scaled_at_most(scale, value, e.u.lo, low_loss)
            } else {
                1 <= e.q.lo && scaled_at_most(scale, e.u.hi, value, low_loss)
            }
        }
    }
}

// No flow and no squares between the ends meet the law of a resistance.
pub fn pipe_closing(law: &PipeLaw, scale: i128, e: ArcEnds) -> bool
    requires law { IsTrue (is_pipe_within law.now) }
    requires scale { IsScale scale }
    requires ends { AreSafeSides e }
    ensures { result ≡ rule.pipe_closing law.now scale e }
{
    drop_gap(law, scale, e.u.hi, e.v.lo) < drop_low(&law.drag, e.q.lo)
        || drop_high(&law.drag, e.q.hi) < drop_gap(law, scale, e.u.lo, e.v.hi)
}

// Nor that of a pressure that falls by `red_min` to `red_max` Pa.
pub fn fall_closing(red_min: i64, red_max: i64, scale: i128, e: ArcEnds) -> bool
    requires red_min { IsTrue (is_difference red_min) }
    requires red_max { IsTrue (is_difference red_max) }
    requires scale { IsScale scale }
    requires ends { AreSafeSides e }
    ensures { result ≡ rule.fall_closing red_min red_max scale e }
{
    !scaled_at_least(scale, e.u.hi, e.v.lo, red_min)
        || !scaled_at_most(scale, e.u.lo, e.v.hi, red_max)
}

// Nor that of a pressure that rises by at most `rise_max` Pa.
pub fn rise_closing(rise_max: i64, scale: i128, e: ArcEnds) -> bool
    requires rise_max { IsTrue (is_difference rise_max) }
    requires scale { IsScale scale }
    requires ends { AreSafeSides e }
    ensures { result ≡ rule.rise_closing rise_max scale e }
{
    !scaled_at_most(scale, e.v.lo, e.u.hi, rise_max)
}

// Nor that of a pressure that rises at most to its `num / den`-fold.
pub fn ratio_closing(num: i64, den: i64, e: ArcEnds) -> bool
    requires num { IsTrue (is_ratio_part num) }
    requires den { IsTrue (is_ratio_part den) }
    requires ends { AreSafeSides e }
    ensures { result ≡ rule.ratio_closing num den e }
{
    ratio_square(num, e.u.hi) < ratio_square(den, e.v.lo)
}

// Nor that of the greatest loss of pressure.
pub fn reach_closing(high_loss: i64, scale: i128, e: ArcEnds) -> bool
    requires loss { IsTrue (is_difference high_loss) }
    requires scale { IsScale scale }
    requires ends { AreSafeSides e }
    ensures { result ≡ rule.reach_closing high_loss scale e }
{
    !scaled_at_most(scale, e.u.lo, e.v.hi, high_loss)
        || !scaled_at_most(scale, e.v.lo, e.u.hi, high_loss)
}

// A flow of at least a unit goes forward, where the squares allow no such loss.
fn drops_forward(low_loss: i64, scale: i128, e: ArcEnds) -> bool
    requires loss { IsTrue (is_difference low_loss) }
    requires scale { IsScale scale }
    requires ends { AreSafeSides e }
    ensures { result ≡ (int_le (pos 1) e.q.lo && not (at_least scale e.u.hi e.v.lo low_loss)) }
{
    1 <= e.q.lo && !scaled_at_least(scale, e.u.hi, e.v.lo, low_loss)
}

// The same back.
fn drops_back(low_loss: i64, scale: i128, e: ArcEnds) -> bool
    requires loss { IsTrue (is_difference low_loss) }
    requires scale { IsScale scale }
    requires ends { AreSafeSides e }
    ensures { result ≡ (int_le e.q.hi (negsuc 0) && not (at_least scale e.v.hi e.u.lo low_loss)) }
{
    e.q.hi <= -1 && !scaled_at_least(scale, e.v.hi, e.u.lo, low_loss)
}

// Nor that of the least loss of pressure along a flow whose direction is known.
pub fn drop_closing(low_loss: i64, scale: i128, e: ArcEnds) -> bool
    requires loss { IsTrue (is_difference low_loss) }
    requires scale { IsScale scale }
    requires ends { AreSafeSides e }
    ensures { result ≡ rule.drop_closing low_loss scale e }
{
    drops_forward(low_loss, scale, e) || drops_back(low_loss, scale, e)
}
