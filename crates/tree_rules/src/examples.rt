// Trees of five small problems, on functions that do nothing.
ghost use Rattle.tree_rules.specs.Examples.{DropOfNineCannotCarryFour, EightIsOutOfReachOfFive, FlowOfFiveIsNotKnown, FourIsInReachOfFive, LossNeedsADirection, LossOfTwoCannotGiveFiveToFour, RatioOfThreeHalvesCannotRaiseFourToSeven, ReductionByTwoCannotGiveNineToEight, ShutValveCutsTheDemand, TheSameInSixteenths};

/// A pipe of resistance 1 from 5 Pa to at least 4 Pa carries at most 3, so the balance asks for too much with 4.
pub fn drop_of_nine_cannot_carry_four()
    ensures { DropOfNineCannotCarryFour }
{}

/// The balance gives a flow of 4, so a tree that begins with 5 doesn't pass.
pub fn flow_of_five_is_not_known()
    ensures { FlowOfFiveIsNotKnown }
{}

/// A station raises 4 Pa to 6 at most, its bypass joins 16 to 49 Pa^2, and shut it cuts the supply off.
pub fn ratio_of_three_halves_cannot_raise_four_to_seven()
    ensures { RatioOfThreeHalvesCannotRaiseFourToSeven }
{}

/// The same tree in sixteenths, where 257 is next above 16 whole units.
pub fn the_same_in_sixteenths()
    ensures { TheSameInSixteenths }
{}

/// The only decision shuts the valve, so a supply of 3 stays.
pub fn shut_valve_cuts_the_demand()
    ensures { ShutValveCutsTheDemand }
{}

/// A control valve that reduces by 2 Pa at least can't give 9 Pa to 8: 81 - 64 - 4 is 13, and 169 is less than 4 * 4 * 64.
pub fn reduction_by_two_cannot_give_nine_to_eight()
    ensures { ReductionByTwoCannotGiveNineToEight }
{}

/// A loss of 2 Pa along a flow of 1 leaves 3 Pa of 5, which is below 4.
pub fn loss_of_two_cannot_give_five_to_four()
    ensures { LossOfTwoCannotGiveFiveToFour }
{}

/// 4 Pa lies within 2 Pa of 5 Pa, so the reach closes nothing there.
pub fn four_is_in_reach_of_five()
    ensures { FourIsInReachOfFive }
{}

/// The loss along the flow closes nothing while the flow may still go back.
pub fn loss_needs_a_direction()
    ensures { LossNeedsADirection }
{}

/// 8 Pa aren't within 2 Pa of 5 Pa: 64 - 25 - 4 is 35, and 1225 is more than 4 * 4 * 25.
pub fn eight_is_out_of_reach_of_five()
    ensures { EightIsOutOfReachOfFive }
{}
