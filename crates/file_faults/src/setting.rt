// Why bytes are no setting.
ghost use Rattle.std.specs.Prelude.{◌≡◌};
ghost use Rattle.file_faults.specs.declared.setting.SettingFault.TheVariants as fault;

use base_types::NoMemory;

/// A list of a setting, or its whole.
#[derive(Clone, Copy, Debug, PartialEq, Eq)]
pub enum Key {
    Arcs,
    Decisions,
    Nodes,
    Whole,
}

/// Why bytes are no setting of a problem.
#[derive(Clone, Copy, Debug, PartialEq, Eq)]
pub enum SettingFault {
    /// They aren't UTF-8, or aren't JSON that nests at most 127 deep. A number whose nearest float isn't finite makes
    /// them no JSON.
    NotJson,
    /// They aren't an object with just the keys `arcs`, `decisions` and `nodes` (`Whole`), or the list under the key
    /// has another length than the problem's, or an entry of it another form, another id, a decision that isn't one of
    /// its group or a word that isn't one of the arc's kind.
    NotSetting { key: Key },
    /// A number under the key isn't read as a whole one, as 1.0, or is a flow beyond 10^12 l/h either way, or a square
    /// below 0 or above 10^16 Pa^2.
    WideNumber { key: Key },
    /// Memory could not be had.
    NoMemory,
}

impl From<NoMemory> for SettingFault {
    ghost from_gives = { λ _ e. e ≡ fault.NoMemory };

    fn from(_: NoMemory) -> SettingFault {
        SettingFault::NoMemory
    }
}
