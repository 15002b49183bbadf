// Places of a list, going round.
ghost use Rattle.std.specs.Prelude.{◌≡◌, ◌<◌, ◌≤◌};
ghost use Rattle.box_split.specs.Forks.{after, round, start};

// Where the search begins.
fn start(count: usize, turn: usize) -> usize
    ensures { result ≡ start count turn }
{
    if turn < count { turn } else { 0 }
}

/// The place `k` after the turn.
pub fn place_at(count: usize, turn: usize, k: usize) -> usize
    requires few { count ≤ 6000 }
    requires k { k < count }
    ensures place { result ≡ round count (start count turn) k }
    ensures within { result < count }
{
    let place = start(count, turn) + k;
    if place < count { place } else { place - count }
}

/// The place after this one, and 0 after the last one.
pub fn after(count: usize, place: usize) -> usize
    requires { place < count }
    ensures place { result ≡ after count place }
    ensures within { result < count }
{
    if place + 1 == count { 0 } else { place + 1 }
}
