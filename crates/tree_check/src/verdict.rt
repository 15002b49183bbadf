// What a text of a tree is found to be.
/// What a text shows: that the problem is infeasible, or that it is but for boxes that are left open, of which the
/// first ends in this line.
#[derive(Clone, Copy, Debug, PartialEq, Eq)]
pub enum Verdict {
    Refutes,
    Partial { first_open: u64 },
}
