ghost use Rattle.interval_core.specs.Isotony.{AreIsotone};

/// Smaller operands give a smaller or equal result, of every operation on intervals.
#[tactic(auto, using(crate::proofs::IsotonyLemmas::are_isotone))]
pub fn smaller_operands_give_smaller_results()
    ensures { AreIsotone }
{}
