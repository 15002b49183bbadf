// The box of all variables, on a grid.
ghost use Rattle.std.specs.Prelude.{◌≡◌, IfOk, IfNone, IfSome, IsTrue};
ghost use Rattle.gas_model.specs.Boxes.{ends_of, is_in_box, width_of, first_empty, opening, tightened, may_become, BoxFits};
ghost use Rattle.gas_model.specs.BoxLimits.{AreLimited};
ghost use Rattle.box_ends.specs.Empty.{LeavesAll, LeavesNone};

use box_ends::ScaledBox;
use gas_model::{NoMemory, Problem, Var};
use interval_core::Grid;
use std::alloc::Global;
use std::marker::{Model, PhantomData};

/// A lower and an upper end for the flow of each arc in l/h, and for the squared pressure of each node in Pa^2. Ends
/// count units of `1 / G::SCALE`. Flows lie within 10^12 either way and squares from 0 to 10^16; a lower end may lie
/// above its upper end, and may have passed it by one where it moved.
#[derive(Drop)]
pub struct VarBox<G: Grid> {
    scaled: ScaledBox,
    grid: PhantomData<G>,
}

impl<G: Grid> Model for VarBox<G> {
    ghost use Rattle.std.specs.Prelude.{◌≡◌};
    ghost use Rattle.gas_model.specs.Boxes.{Bounds};

    ghost Value = { Bounds };

    ghost view = { λ a. a.scaled.bounds };

    ghost invariant = { λ a. a.scaled.scale ≡ G.SCALE };
}

impl<G: Grid> VarBox<G> {
    /// The box of the bounds of a problem.
    pub fn opening(alloc: Global, p: &Problem) -> Result<VarBox<G>, NoMemory>
        ensures bounds { IfOk result (λ b. b ≡ opening G.SCALE p.now) }
        ensures fits { IfOk result (λ b. BoxFits p.now b) }
    {
        Ok(VarBox {
            scaled: ScaledBox::opening(alloc, G::SCALE, p)?,
            grid: PhantomData,
        })
    }

    /// The same box once more.
    pub fn copy(&self) -> Result<VarBox<G>, NoMemory>
        ensures { IfOk result (λ b. b ≡ self.now) }
    {
        Ok(VarBox {
            scaled: self.scaled.copy()?,
            grid: PhantomData,
        })
    }

    /// The same box, with its scale as a number.
    pub fn scaled(&self) -> &ScaledBox
        ensures { result.now ≡ record { scale = G.SCALE; bounds = self.now } }
    {
        &self.scaled
    }

    /// The lower and the upper end of a variable of the box.
    pub fn ends(&self, var: Var) -> (i128, i128)
        requires { IsTrue (is_in_box self.now var) }
        ensures value { result ≡ ((ends_of self.now var).lo, (ends_of self.now var).hi) }
        ensures limits { AreLimited G.SCALE var (ends_of self.now var) }
    {
        let ends = self.scaled.ends(var);
        (ends.lo, ends.hi)
    }

    /// The upper end of a variable of the box less its lower end, which is below 0 where the variable is empty.
    pub fn width(&self, var: Var) -> i128
        requires { IsTrue (is_in_box self.now var) }
        ensures { result ≡ width_of (ends_of self.now var) }
    {
        self.scaled.width(var)
    }

    /// The first variable whose lower end is above its upper end, flows before squares. `None` exactly where there is
    /// no such variable.
    pub fn first_empty(&self) -> Option<Var>
        ensures first { result ≡ first_empty self.now }
        ensures none { IfNone result (LeavesAll self.now) }
        ensures some { IfSome result (λ v. LeavesNone self.now v) }
    {
        self.scaled.first_empty()
    }

    /// Moves the lower (`low`) or the upper end of a variable of the box to `value`, inward, and at most one past the
    /// other end: from `lo + 1` to `hi + 1`, or from `lo - 1` to `hi - 1`.
    pub fn tighten(&mut self, var: Var, low: bool, value: i128)
        requires var { IsTrue (is_in_box self.old var) }
        requires value { IsTrue (may_become low value (ends_of self.old var)) }
        ensures { self.new ≡ tightened self.old var low value }
    {
        self.scaled.tighten(var, low, value);
    }
}
