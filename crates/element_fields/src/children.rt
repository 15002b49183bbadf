// What holds of all outlines, on a function that does nothing.
ghost use Rattle.element_fields.specs.Children.{ChildIsTheFirst, ChildrenStandWithin};

/// The children of an element, which are found by the depths of the elements that follow it, are those that stand directly
/// within it in the document, and a child that is looked for by its name is the first of them that has it.
pub fn children_stand_within()
    ensures within { ChildrenStandWithin }
    ensures first { ChildIsTheFirst }
{}
