// The states of kinds, and the words of decisions that allow them.
ghost use Rattle.std.specs.Prelude.{◌≡◌, [], ◌∷◌, filter, find, map, Some, None, Bool, IfOk};
ghost use Rattle.gas_model.specs.Choices.{allows, has_state, states_of, only};
ghost use Rattle.gas_model.specs.Rows.{takes};
ghost use Rattle.gas_model.specs.Rulings.{leaves, all_leave, pick_in, word_allows};
ghost use Rattle.base_types.specs.declared.states.ArcState.{ArcState};

use crate::rows::{ArcKind, Ruling};
use base_types::{Allow, ArcState, NoMemory};
use std::alloc::Global;

/// Whether a kind of arc has the state.
pub fn has_state(kind: &ArcKind, state: ArcState) -> bool
    ensures { result ≡ has_state kind.now state }
{
    match kind {
        ArcKind::Pipe { .. } | ArcKind::Short | ArcKind::Resist { .. } | ArcKind::Loss { .. } =>
            state == ArcState::Opened,
        ArcKind::Valve => state == ArcState::Opened || state == ArcState::Shut,
        ArcKind::Control { .. } | ArcKind::Station { .. } => state != ArcState::Opened,
    }
}

/// Whether a word of a decision allows the state.
pub fn allows(word: Allow, state: ArcState) -> bool
    ensures { result ≡ allows word state }
{
    match word {
        Allow::Opened => state == ArcState::Opened,
        Allow::Shut => state == ArcState::Shut,
        Allow::Active => state == ArcState::Active,
        Allow::Bypass => state == ArcState::Bypass,
        Allow::On => state == ArcState::Active || state == ArcState::Bypass,
    }
}

/// Whether the word that the picked decisions have for an arc, if they have one, allows the state.
pub fn word_allows(word: Option<Allow>, state: ArcState) -> bool
    ensures { result ≡ word_allows word state }
{
    match word {
        None => true,
        Some(word) => allows(word, state),
    }
}

/// Whether a kind may be decided by the word.
pub fn takes(kind: &ArcKind, word: Allow) -> bool
    ensures { result ≡ takes kind.now word }
{
    match kind {
        ArcKind::Valve => word == Allow::Opened || word == Allow::Shut,
        ArcKind::Control { .. } | ArcKind::Station { .. } => word != Allow::Opened,
        ArcKind::Pipe { .. } | ArcKind::Short | ArcKind::Resist { .. } | ArcKind::Loss { .. } => {
            false
        }
    }
}

/// Whether a ruling leaves the state, under the pick of its group: another decision is picked or none, or the ruling's
/// word allows the state.
pub fn leaves(pick: Option<u32>, state: ArcState, ruling: &Ruling) -> bool
    ensures { result ≡ leaves pick state ruling.now }
{
    pick != Some(ruling.decision) || allows(ruling.allow, state)
}

/// The decision that is picked for a group, if one is.
pub fn pick_in(picks: &[Option<u32>], group: u32) -> Option<u32>
    ensures { result ≡ pick_in picks.now group }
{
    match picks.get(group as usize) {
        Some(pick) => *pick,
        None => None,
    }
}

/// The decision of these picks, one of each group, that is that of a group.
pub fn pick_of(picks: &[u32], group: u32) -> Option<u32>
    ensures { result ≡ pick_in (map Some picks.now) group }
{
    picks.get(group as usize).copied()
}

/// Whether all of the rulings of an arc leave it the state, under these picks.
pub fn all_leave(picks: &[Option<u32>], state: ArcState, rulings: &[Ruling]) -> bool
    ensures { result ≡ all_leave (pick_in picks.now) state rulings.now }
{
    rulings.iter().all(|ruling| leaves(pick_in(picks, ruling.group), state, ruling))
}

// The only state of a valve that a test leaves, from the answers of the test.
fn only_of_valve(opened: bool, shut: bool) -> Option<ArcState>
    ensures { (test : ArcState → Bool) → test ArcState.Opened ≡ opened → test ArcState.Shut ≡ shut
        → result ≡ only (filter test (ArcState.Opened ∷ ArcState.Shut ∷ [])) }
{
    match (opened, shut) {
        (true, false) => Some(ArcState::Opened),
        (false, true) => Some(ArcState::Shut),
        _ => None,
    }
}

// The only state of a control valve or a station that a test leaves, from the answers of the test.
fn only_of_active(active: bool, bypass: bool, shut: bool) -> Option<ArcState>
    ensures { (test : ArcState → Bool) → test ArcState.Active ≡ active → test ArcState.Bypass ≡ bypass → test ArcState.Shut ≡ shut
        → result ≡ only (filter test (ArcState.Active ∷ ArcState.Bypass ∷ ArcState.Shut ∷ [])) }
{
    match (active, bypass, shut) {
        (true, false, false) => Some(ArcState::Active),
        (false, true, false) => Some(ArcState::Bypass),
        (false, false, true) => Some(ArcState::Shut),
        _ => None,
    }
}

// The only state of a valve that the word leaves.
fn only_valve_left(word: Option<Allow>) -> Option<ArcState>
    ensures { result ≡ only (filter (word_allows word) (ArcState.Opened ∷ ArcState.Shut ∷ [])) }
{
    let opened = word_allows(word, ArcState::Opened);
    let shut = word_allows(word, ArcState::Shut);
    only_of_valve(opened, shut)
}

// The only state of a control valve or a station that the word leaves.
fn only_active_left(word: Option<Allow>) -> Option<ArcState>
    ensures { result ≡ only (filter (word_allows word) (ArcState.Active ∷ ArcState.Bypass ∷ ArcState.Shut ∷ [])) }
{
    let active = word_allows(word, ArcState::Active);
    let bypass = word_allows(word, ArcState::Bypass);
    let shut = word_allows(word, ArcState::Shut);
    only_of_active(active, bypass, shut)
}

/// The only state of a kind that has one.
pub fn only_state(kind: &ArcKind) -> Option<ArcState>
    ensures { result ≡ only (states_of kind.now) }
{
    match kind {
        ArcKind::Pipe { .. } | ArcKind::Short | ArcKind::Resist { .. } | ArcKind::Loss { .. } =>
            Some(ArcState::Opened),
        ArcKind::Valve | ArcKind::Control { .. } | ArcKind::Station { .. } => None,
    }
}

/// The only state of a kind of several states that the word of the picked decisions leaves, if they have one.
pub fn only_left(kind: &ArcKind, word: Option<Allow>) -> Option<ArcState>
    requires { only (states_of kind.now) ≡ None }
    ensures { result ≡ only (filter (word_allows word) (states_of kind.now)) }
{
    match kind {
        ArcKind::Pipe { .. } | ArcKind::Short | ArcKind::Resist { .. } | ArcKind::Loss { .. } => {
            None
        }
        ArcKind::Valve => only_valve_left(word),
        ArcKind::Control { .. } | ArcKind::Station { .. } => only_active_left(word),
    }
}

/// The states of a kind that the word leaves, in their order.
pub fn states_left(
    alloc: Global,
    kind: &ArcKind,
    word: Option<Allow>,
) -> Result<Vec<ArcState>, NoMemory>
    ensures { IfOk result (λ left. left.items ≡ filter (word_allows word) (states_of kind.now)) }
{
    Ok(
        states_of(kind)
            .iter()
            .copied()
            .filter(|state| word_allows(word, *state))
            .collect(alloc)?,
    )
}

/// The states of a kind, in their order.
pub fn states_of(kind: &ArcKind) -> &'static [ArcState]
    ensures { result.now ≡ states_of kind.now }
{
    match kind {
        ArcKind::Pipe { .. } | ArcKind::Short | ArcKind::Resist { .. } | ArcKind::Loss { .. } => &[
            ArcState::Opened,
        ],
        ArcKind::Valve => &[ArcState::Opened, ArcState::Shut],
        ArcKind::Control { .. } | ArcKind::Station { .. } => {
            &[ArcState::Active, ArcState::Bypass, ArcState::Shut]
        }
    }
}

/// The first state of a kind that the rulings leave under these picks.
pub fn first_left(kind: &ArcKind, picks: &[Option<u32>], rulings: &[Ruling]) -> Option<ArcState>
    ensures { result ≡ find (λ state. all_leave (pick_in picks.now) state rulings.now) (states_of kind.now) }
{
    states_of(kind)
        .iter()
        .copied()
        .find(|state| all_leave(picks, *state, rulings))
}
