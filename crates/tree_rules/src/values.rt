// What the rules give in small boxes, on functions that do nothing. The numbers are worked by hand.
ghost use Rattle.tree_rules.specs.Values.{BalanceClosesPastItsLaw, BalanceGivesItsValues, ClosingsHoldPastTheirLaw, ClosingsHoldPastTheirLawInSixteenths, RulesGiveNothingElse, RulesGiveTheirValues, RulesGiveTheirValuesInSixteenths};

/// Each rule of an arc gives each end that it speaks of a value worked by hand, and none that is tighter by one.
pub fn rules_give_their_values()
    ensures { RulesGiveTheirValues }
{}

/// The same in sixteenths.
pub fn rules_give_their_values_in_sixteenths()
    ensures { RulesGiveTheirValuesInSixteenths }
{}

/// A rule gives nothing to other ends, and nothing by another law.
pub fn rules_give_nothing_else()
    ensures { RulesGiveNothingElse }
{}

/// The balance of a node gives a flow what the others leave.
pub fn balance_gives_its_values()
    ensures { BalanceGivesItsValues }
{}

/// Closings hold just past what their law allows, and rules without a closing close nothing.
pub fn closings_hold_past_their_law()
    ensures { ClosingsHoldPastTheirLaw }
{}

/// So do they in sixteenths.
pub fn closings_hold_past_their_law_in_sixteenths()
    ensures { ClosingsHoldPastTheirLawInSixteenths }
{}

/// The balance closes just past the supply that the other flows leave, in sixteenths too.
pub fn balance_closes_past_its_law()
    ensures { BalanceClosesPastItsLaw }
{}
