// The words of the states of arcs.
ghost use Rattle.std.specs.Prelude.{◌≡◌};
ghost use Rattle.base_types.specs.StateWords.{state_word, state_named};

use crate::states::ArcState;

const STATES: [ArcState; 4] = [
    ArcState::Opened,
    ArcState::Shut,
    ArcState::Active,
    ArcState::Bypass,
];

/// The word of a state, as settings and trees have it: `open`, `closed`, `active` or `bypass`.
pub fn state_word(state: ArcState) -> &'static str
    ensures { result.now ≡ state_word state }
{
    match state {
        ArcState::Opened => "open",
        ArcState::Shut => "closed",
        ArcState::Active => "active",
        ArcState::Bypass => "bypass",
    }
}

/// The state of this word. `None` exactly where it is the word of no state.
pub fn state_named(word: &str) -> Option<ArcState>
    ensures { result ≡ state_named word.now }
{
    STATES
        .iter()
        .copied()
        .find(|state| word == state_word(*state))
}
