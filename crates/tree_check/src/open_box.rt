// The one box that is kept: that of the next line.
ghost use Rattle.std.specs.Prelude.{◌≡◌, ◌<◌, length, IfOk, IsTrue};
ghost use Rattle.gas_model.specs.Boxes.{ends_of, is_in_box, with_ends};
ghost use Rattle.gas_model.specs.BoxLimits.{IsScale, AreLimited};
ghost use Rattle.gas_model.specs.Choices.{named_state};
ghost use Rattle.gas_model.specs.Rulings.{pick_in};
ghost use Rattle.tree_rules.specs.Branches.{root_box};
ghost use Rattle.tree_check.specs.Held.{IsBoxAt};
ghost use Rattle.tree_check.specs.Undo.{with_bounds, with_part, put_pick, put_state};

use box_ends::ScaledBox;
use gas_model::{ArcState, Ends, NoMemory, PartState, Problem, Var};
use std::alloc::Global;
use std::marker::Model;

/// A picked decision of some groups, a state of some arcs, and a lower and an upper end of each flow in l/h and of each
/// squared pressure in Pa^2, in units of 1/scale.
#[derive(Drop)]
pub struct OpenBox {
    part: PartState,
    bounds: ScaledBox,
}

impl Model for OpenBox {
    ghost use Rattle.tree_rules.specs.Rules.{PartBox};

    ghost Value = { PartBox };

    ghost view = { λ a. record { scale = a.bounds.scale; part = a.part; bounds = a.bounds.bounds } };
}

impl OpenBox {
    /// The box of a problem: nothing is picked and no state is named, and all variables have their bounds.
    pub fn opening(alloc: Global, scale: i128, p: &Problem) -> Result<OpenBox, NoMemory>
        requires { IsScale scale }
        ensures value { IfOk result (λ b. b ≡ root_box scale p.now) }
        ensures fits { IfOk result (λ b. IsBoxAt p.now b) }
    {
        Ok(OpenBox {
            part: p.fresh()?,
            bounds: ScaledBox::opening(alloc, scale, p)?,
        })
    }

    /// In how many parts a unit is counted.
    pub fn scale(&self) -> i128
        ensures value { result ≡ self.now.scale }
        ensures limits { IsScale result }
    {
        self.bounds.scale()
    }

    /// The ends of all variables, with their scale.
    pub fn bounds(&self) -> &ScaledBox
        ensures scale { result.now.scale ≡ self.now.scale }
        ensures bounds { result.now.bounds ≡ self.now.bounds }
    {
        &self.bounds
    }

    /// The picked decisions and the named states.
    pub fn part(&self) -> &PartState
        ensures { result.now ≡ self.now.part }
    {
        &self.part
    }

    /// The decision that is picked for a group, if one is.
    pub fn pick(&self, group: u32) -> Option<u32>
        requires { group < length self.now.part.picks }
        ensures { result ≡ pick_in self.now.part.picks group }
    {
        self.part.picks.as_slice()[group as usize]
    }

    /// The state that is named for an arc.
    pub fn named(&self, arc: u32) -> Option<ArcState>
        requires { arc < length self.now.part.states }
        ensures { result ≡ named_state self.now.part.states arc }
    {
        self.part.states.as_slice()[arc as usize]
    }

    /// The ends of a variable of the box.
    pub fn ends(&self, var: Var) -> Ends
        requires { IsTrue (is_in_box self.now.bounds var) }
        ensures value { result ≡ ends_of self.now.bounds var }
        ensures limits { AreLimited self.now.scale var result }
        ensures scale { IsScale self.now.scale }
    {
        self.bounds.ends(var)
    }

    /// Gives a variable of the box these ends.
    pub fn put_ends(&mut self, var: Var, ends: Ends)
        requires var { IsTrue (is_in_box self.old.bounds var) }
        requires ends { AreLimited self.old.scale var ends }
        ensures { self.new ≡ with_bounds self.old (with_ends self.old.bounds var ends) }
    {
        self.bounds.put_ends(var, ends);
    }

    /// Picks a decision of a group, or none.
    pub fn put_pick(&mut self, group: u32, pick: Option<u32>)
        requires { group < length self.old.part.picks }
        ensures { self.new ≡ with_part self.old (put_pick self.old.part group pick) }
    {
        self.part.picks.put(group as usize, pick);
    }

    /// Names a state of an arc, or none.
    pub fn put_state(&mut self, arc: u32, state: Option<ArcState>)
        requires { arc < length self.old.part.states }
        ensures { self.new ≡ with_part self.old (put_state self.old.part arc state) }
    {
        self.part.states.put(arc as usize, state);
    }
}
