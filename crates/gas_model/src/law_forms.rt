// What the law of an arc speaks of: its kind and its state collapse to a form of law.
ghost use Rattle.std.specs.Prelude.{◌≡◌};
ghost use Rattle.gas_model.specs.Laws.{is_shut, level};

use crate::rows::Drag;
use base_types::ArcState;

/// A factor on the square at the `to` end of a pipe, between `lo / den` and `hi / den`. It is 1 where the pipe lies level.
#[derive(Clone, Copy, Debug, PartialEq, Eq)]
pub struct Tilt {
    pub lo: i64,
    pub hi: i64,
    pub den: i64,
}

/// What the law of a resistance takes: the resistance, and the factor on the square at the `to` end.
#[derive(Clone, Copy, Debug, PartialEq, Eq)]
pub struct PipeLaw {
    pub drag: Drag,
    pub tilt: Tilt,
}

/// The law of an arc, with its numbers: pressures, losses and rises in Pa.
#[derive(Clone, Copy, Debug, PartialEq, Eq)]
pub enum LawForm {
    /// The drop of the squares follows a resistance.
    Drags(PipeLaw),
    /// The squares at both ends are equal.
    Equals,
    /// Nothing flows, and both squares are free.
    Shuts,
    /// The pressure falls by a constant loss in the direction of the flow.
    Loses {
        low: i64,
        high: i64,
    },
    /// The flow goes forward, and the pressure is reduced.
    Reduces {
        in_min: i64,
        out_max: i64,
        red_min: i64,
        red_max: i64,
    },
    /// The flow goes forward, and the pressure is raised.
    Raises {
        in_min: i64,
        out_max: i64,
        ratio_num: i64,
        ratio_den: i64,
        rise_max: i64,
    },
    /// Nothing meets it: a kind in a state that isn't its own.
    Never,
}

/// The law of a resistance along a level pipe, whose factor is 1.
pub fn level(drag: &Drag) -> PipeLaw
    ensures { result ≡ level drag.now }
{
    PipeLaw {
        drag: *drag,
        tilt: Tilt {
            lo: 1,
            hi: 1,
            den: 1,
        },
    }
}

/// Whether an arc is fixed to be shut, so that nothing flows through it.
pub fn is_shut(state: Option<ArcState>) -> bool
    ensures { result ≡ is_shut state }
{
    match state {
        Some(ArcState::Shut) => true,
        Some(ArcState::Opened) => false,
        Some(ArcState::Active) => false,
        Some(ArcState::Bypass) => false,
        None => false,
    }
}
