// What holds of all trees and texts, by any rules, on functions that do nothing.
ghost use Rattle.tree_cert.specs.TreeRules.{TreeRules};
ghost use Rattle.tree_cert.specs.Laws.{WalksAreTexts, BoxesHaveOneTree, TextsHaveOneTree, FindingsExist, FindingsAreUnique, ClosedTreesHaveNoOpenLine, LinesAreRead};

/// Rules of trees, which only proofs know.
pub trait Rules {
    ghost rules: { TreeRules };
}

/// Lines are walked to the end exactly where they are the text of a tree that passes.
pub fn walks_are_texts<R: Rules>()
    ensures { WalksAreTexts R.rules }
{}

/// A text is that of at most one tree that passes: at any box, and so at the opening box of its first line.
pub fn texts_have_one_tree<R: Rules>()
    ensures at_any_box { BoxesHaveOneTree R.rules }
    ensures at_the_opening { TextsHaveOneTree R.rules }
{}

/// Bytes are the text of a tree that passes with no box left open, or of one that passes with an open box, or they have
/// a first fault.
pub fn findings_exist<R: Rules>()
    ensures { FindingsExist R.rules }
{}

/// And they are only one of these, with one first open line, or one faulty line and one fault.
pub fn findings_are_unique<R: Rules>()
    ensures { FindingsAreUnique R.rules }
{}

/// A tree has no box left open exactly where no line of its text leaves one open.
pub fn closed_trees_have_no_open_line()
    ensures { ClosedTreesHaveNoOpenLine }
{}

/// Bytes are read as lines exactly where they are these lines, each in its one spelling.
pub fn lines_are_read()
    ensures { LinesAreRead }
{}
