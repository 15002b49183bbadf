// The first law that a setting breaks.
ghost use Rattle.std.specs.Prelude.{◌^◌, pos, IsTrue, IfNone, IfSome, OnSome};
ghost use Rattle.base_types.specs.Numbers.{between};
ghost use Rattle.gas_model.specs.Near.{SettingFits, IsNear};
ghost use Rattle.element_laws.specs.FirstBroken.{IsFirstBroken};

use crate::arcs::first_law;
use crate::balance::first_balance;
use crate::bounds::{first_flow_bound, first_pressure_bound};
use crate::choices::first_choice;
use gas_model::{Problem, Setting};

/// A law of a problem that a setting may break, by the position of its arc or node.
#[derive(Clone, Copy, Debug, PartialEq, Eq)]
pub enum Broken {
    /// The arc isn't in a state of its kind that the picked decisions allow.
    Choice { arc: u32 },
    /// The flow lies outside its bounds.
    FlowBound { arc: u32 },
    /// The square lies outside the squares of the pressure bounds.
    PressureBound { node: u32 },
    /// The flows that leave the node less those that enter it lie outside its supply bounds.
    Balance { node: u32 },
    /// The arc's law doesn't hold within the tolerance.
    Law { arc: u32 },
}

/// The first law that a setting breaks, and none exactly where the setting is listed and near. The laws come in the
/// order of the variants, each in the order of the problem. Choices, bounds and balances are kept exactly; an arc's
/// law may be off by `tol` in Pa^2, from 0 to 10^16.
pub fn first_broken(p: &Problem, setting: &Setting, tol: i128) -> Option<Broken>
    requires setting { SettingFits p.now setting.now }
    requires tol { IsTrue (between (pos 0) tol (pos (10 ^ 16))) }
    ensures near { IfNone result (IsNear p.now tol setting.now) }
    ensures not_near { OnSome result (IsNear p.now tol setting.now → ⊥) }
    ensures first { IfSome result (λ law. IsFirstBroken p.now tol setting.now law) }
{
    if let Some(arc) = first_choice(p, setting) {
        return Some(Broken::Choice { arc });
    }
    if let Some(arc) = first_flow_bound(p, setting) {
        return Some(Broken::FlowBound { arc });
    }
    if let Some(node) = first_pressure_bound(p, setting) {
        return Some(Broken::PressureBound { node });
    }
    if let Some(node) = first_balance(p, setting) {
        return Some(Broken::Balance { node });
    }
    if let Some(arc) = first_law(p, setting, tol) {
        return Some(Broken::Law { arc });
    }
    None
}
