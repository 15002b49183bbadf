// What holds of all rows, on a function that does nothing.
ghost use Rattle.res_table.specs.Spelling.{RowsAreSpelled, SpellingsAreRead};

/// A record is a row exactly where its fields are the word, the id and the three numbers of one whose id and numbers lie
/// in their limits, each number by its digits with no needless zero in front.
pub fn rows_have_their_form()
    ensures spelled { RowsAreSpelled }
    ensures read { SpellingsAreRead }
{}
