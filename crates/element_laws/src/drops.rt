// What a flow drops by a resistance.
ghost use Rattle.std.specs.Prelude.{◌≡◌, IsTrue};
ghost use Rattle.integer_laws.specs.Sizes.{IsWithin};
ghost use Rattle.gas_model.specs.Limits.{is_drag_within};
ghost use Rattle.gas_model.specs.Curves.{drop_low, drop_high};
ghost use Rattle.element_laws.specs.Sizes.{most_flow};
ghost use Rattle.element_laws.specs.Weymouth.{MetHasResistance, ResistanceMeets};

use gas_model::Drag;

/// The least drop of the squares at the flow `q`, times the law's denominator: `lo * q^2` forward, and `-hi * q^2`
/// back. The law is within its limits, and the flow within 16 * (10^12 + 1) either way, in l/h or a part of it.
pub fn drop_low(law: &Drag, q: i128) -> i128
    requires law { IsTrue (is_drag_within law.now) }
    requires flow { IsWithin most_flow q }
    ensures { result ≡ drop_low law.now q }
{
    let square = q * q;
    if q >= 0 {
        law.lo as i128 * square
    } else {
        -(law.hi as i128 * square)
    }
}

/// The greatest drop of the squares at the flow `q`, times the law's denominator: `hi * q^2` forward, and `-lo * q^2`
/// back. The law is within its limits, and the flow within 16 * (10^12 + 1) either way, in l/h or a part of it.
pub fn drop_high(law: &Drag, q: i128) -> i128
    requires law { IsTrue (is_drag_within law.now) }
    requires flow { IsWithin most_flow q }
    ensures { result ≡ drop_high law.now q }
{
    let square = q * q;
    if q >= 0 {
        law.hi as i128 * square
    } else {
        -(law.lo as i128 * square)
    }
}

/// The interval form of a resistance's law, which speaks of whole numbers, is the Weymouth law: numerators over
/// one denominator meet it exactly where some fraction of the interval is a resistance by which the flow drops
/// the squares.
#[tactic(auto, using(crate::proofs::Weymouth::met_has_resistance, crate::proofs::Weymouth::resistance_meets))]
pub fn interval_is_weymouth()
    ensures met_has_resistance { MetHasResistance }
    ensures resistance_meets { ResistanceMeets }
{}
