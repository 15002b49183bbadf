// The laws of a problem.

/// The law of a node, which is its balance, or the law of an arc. The law of an arc whose state isn't fixed has no step
/// and no closing.
#[derive(Clone, Copy, Debug, PartialEq, Eq)]
pub enum Law {
    AtNode(u32),
    AtArc(u32),
}
