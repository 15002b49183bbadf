// The box of all variables, with its scale.
ghost use Rattle.std.specs.Prelude.{◌≡◌, IfOk, IfNone, IfSome, OnOk, IsTrue};
ghost use Rattle.gas_model.specs.Boxes.{ends_of, is_in_box, width_of, first_empty, opening, tightened, with_ends, may_become, BoxFits};
ghost use Rattle.gas_model.specs.BoxLimits.{IsScale, AreLimited};
ghost use Rattle.gas_model.specs.Within.{IsWithin};
ghost use Rattle.box_ends.specs.Scaled.{with_bounds};
ghost use Rattle.box_ends.specs.Empty.{LeavesAll, LeavesNone};

use crate::ends::{all_flow_ends, all_square_ends, place_of_empty, with_end};
use gas_model::{Ends, NoMemory, Problem, Var};
use std::alloc::Global;
use std::marker::Model;

/// A lower and an upper end for the flow of each arc in l/h, and for the squared pressure of each node in Pa^2. Ends
/// count parts of `1 / scale`, which is 1 or 16. Flows lie within 10^12 either way and squares from 0 to 10^16; a lower
/// end may lie above its upper end, and may have passed it by one where it moved.
#[derive(Drop)]
pub struct ScaledBox {
    scale: i128,
    flows: Vec<Ends>,
    squares: Vec<Ends>,
}

impl Model for ScaledBox {
    ghost use Rattle.box_ends.specs.Scaled.{ScaledBounds, IsHeld};

    ghost Value = { ScaledBounds };

    ghost view = { λ a. record { scale = a.scale; bounds = record { flows = a.flows.items; squares = a.squares.items } } };

    ghost invariant = { λ a. IsHeld a.scale (record { flows = a.flows.items; squares = a.squares.items }) };
}

impl ScaledBox {
    /// The box of the bounds of a problem.
    pub fn opening(alloc: Global, scale: i128, p: &Problem) -> Result<ScaledBox, NoMemory>
        requires { IsScale scale }
        ensures scale { IfOk result (λ b. b.scale ≡ scale) }
        ensures bounds { IfOk result (λ b. b.bounds ≡ opening scale p.now) }
        ensures fits { IfOk result (λ b. BoxFits p.now b.bounds) }
        ensures within { OnOk result (IsWithin p.now) }
    {
        Ok(ScaledBox {
            scale,
            flows: all_flow_ends(alloc, scale, p)?,
            squares: all_square_ends(alloc, scale, p)?,
        })
    }

    /// The same box once more.
    pub fn copy(&self) -> Result<ScaledBox, NoMemory>
        ensures { IfOk result (λ b. b ≡ self.now) }
    {
        let alloc = *self.flows.allocator();
        Ok(ScaledBox {
            scale: self.scale,
            flows: Vec::from_slice(alloc, &self.flows)?,
            squares: Vec::from_slice(alloc, &self.squares)?,
        })
    }

    /// Into how many parts a unit is divided: 1 or 16.
    pub fn scale(&self) -> i128
        ensures value { result ≡ self.now.scale }
        ensures limits { IsScale result }
    {
        self.scale
    }

    /// The lower and the upper end of a variable of the box.
    pub fn ends(&self, var: Var) -> Ends
        requires { IsTrue (is_in_box self.now.bounds var) }
        ensures value { result ≡ ends_of self.now.bounds var }
        ensures limits { AreLimited self.now.scale var result }
        ensures scale { IsScale self.now.scale }
    {
        match var {
            Var::Flow(arc) => self.flows[arc as usize],
            Var::Square(node) => self.squares[node as usize],
        }
    }

    /// The upper end of a variable of the box less its lower end, which is below 0 where the variable is empty.
    pub fn width(&self, var: Var) -> i128
        requires { IsTrue (is_in_box self.now.bounds var) }
        ensures { result ≡ width_of (ends_of self.now.bounds var) }
    {
        let ends = self.ends(var);
        ends.hi - ends.lo
    }

    /// The first variable whose lower end is above its upper end, flows before squares. `None` exactly where there is
    /// no such variable.
    pub fn first_empty(&self) -> Option<Var>
        ensures first { result ≡ first_empty self.now.bounds }
        ensures none { IfNone result (LeavesAll self.now.bounds) }
        ensures some { IfSome result (λ v. LeavesNone self.now.bounds v) }
    {
        if let Some(arc) = place_of_empty(&self.flows) {
            return Some(Var::Flow(arc));
        }
        let node = place_of_empty(&self.squares)?;
        Some(Var::Square(node))
    }

    /// Gives a variable of the box these ends.
    pub fn put_ends(&mut self, var: Var, ends: Ends)
        requires var { IsTrue (is_in_box self.old.bounds var) }
        requires ends { AreLimited self.old.scale var ends }
        ensures { self.new ≡ with_bounds self.old (with_ends self.old.bounds var ends) }
    {
        match var {
            Var::Flow(arc) => {
                self.flows[arc as usize] = ends;
            }
            Var::Square(node) => {
                self.squares[node as usize] = ends;
            }
        }
    }

    /// Moves the lower (`low`) or the upper end of a variable of the box to `value`, inward, and at most one past the
    /// other end: from `lo + 1` to `hi + 1`, or from `lo - 1` to `hi - 1`.
    pub fn tighten(&mut self, var: Var, low: bool, value: i128)
        requires var { IsTrue (is_in_box self.old.bounds var) }
        requires value { IsTrue (may_become low value (ends_of self.old.bounds var)) }
        ensures { self.new ≡ with_bounds self.old (tightened self.old.bounds var low value) }
    {
        let ends = self.ends(var);
        self.put_ends(var, with_end(low, value, ends));
    }
}
