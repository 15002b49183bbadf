// Sets of nodes that are joined: a forest in which each node points at an earlier one or at itself.
ghost use Rattle.std.specs.Prelude.{◌≡◌, ◌≤◌, ◌<◌, ℕ, length, slice_index};
ghost use Rattle.topo.specs.Forests.{PointsDown, Labels, merged};
ghost use Rattle.topo.specs.Roles.{IsUnited};

/// What an arc is to the arcs before it.
#[derive(Clone, Copy, Debug, PartialEq, Eq)]
pub enum Role {
    Away,
    Tree,
    Chord,
}

// The end of the way up from a node. The way is halved in passing.
fn find(up: &mut [u32], node: usize) -> usize
    requires node { node < length up.old }
    requires down { PointsDown up.old }
    ensures down { PointsDown up.new }
    ensures tops { (n : ℕ) → slice_index up.old n ≡ n → slice_index up.new n ≡ n }
    ensures end { (result ≤ node) × (slice_index up.new result ≡ result) }
    ensures labels { (label : ℕ → ℕ) → Labels up.old label → Labels up.new label × (label node ≡ result) }
{
    let mut at = node;
    while up[at] as usize != at {
        let over = up[up[at] as usize];
        up[at] = over;
        at = over as usize;
    }
    at
}

/// Joins the sets of two nodes. They were joined already where the answer is `Chord`.
pub fn unite(up: &mut [u32], m: usize, n: usize) -> Role
    requires m { m < length up.old }
    requires n { n < length up.old }
    requires down { PointsDown up.old }
    ensures down { PointsDown up.new }
    ensures labels { (label : ℕ → ℕ) → Labels up.old label → Labels up.new (merged label m n) × IsUnited label m n result }
{
    let first = find(up, m);
    let second = find(up, n);
    if first == second {
        return Role::Chord;
    }
    if first < second {
        up[second] = first as u32;
    } else {
        up[first] = second as u32;
    }
    Role::Tree
}

/// Makes each node point at the end of its way up.
pub fn flatten(up: &mut [u32])
    requires down { PointsDown up.old }
    ensures { (label : ℕ → ℕ) → Labels up.old label → (n : ℕ) → n < length up.new → slice_index up.new n ≡ label n }
{
    for n in 0..up.len() {
        up[n] = up[up[n] as usize];
    }
}
