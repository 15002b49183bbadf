// What the tolerance of settings means.
ghost use Rattle.gas_model.specs.Near.{NearWithoutTolerance};

/// Without a tolerance a setting is near exactly where it meets the problem as a point over the denominator 1.
#[tactic(auto, using(crate::proofs::Exactly::near_without_tolerance))]
pub fn near_without_tolerance_is_exact()
    ensures { NearWithoutTolerance }
{}
