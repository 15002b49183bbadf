ghost use Rattle.std.specs.Prelude.{◌≡◌, ◌≢◌, ℕ, ◌+◌, ◌<◌, ◌^◌, ◌∷◌, ◌++◌, [], length, OnOk, OnErr, IfOk, slice_get, get_or, MatchOption, Some};
ghost use Rattle.tree_pool.specs.Order.{order, or_then};
ghost use Rattle.tree_pool.specs.Lineages.{children_from, places_of, paths_of, IsArena};

use base_types::NoMemory;
use std::alloc::Global;
use std::cmp::Ordering;
use std::marker::Model;

/// Where a node hangs.
#[derive(Clone, Copy)]
pub struct Place {
    pub parent: u32,
    pub nth: u32,
}

/// The places of a tree, by number; contracts see their paths.
#[derive(Drop)]
pub struct Lineage {
    places: Vec<Place>,
}

impl Model for Lineage {
    ghost use Rattle.std.specs.Prelude.{List, ℕ};

    ghost Value = { List (List ℕ) };

    ghost use Rattle.tree_pool.specs.Lineages.{paths_of, IsArena};

    ghost view = { λ a. paths_of a.places.items };

    ghost invariant = { λ a. IsArena a.places.items };
}

fn fresh_places(alloc: Global, parent: u32, count: u32) -> Result<Vec<Place>, NoMemory>
    ensures { IfOk result (λ fresh. fresh.items ≡ places_of parent 0 count) }
{
    let mut fresh = Vec::new(alloc);
    for nth in 0..count {
        let Ok(()) = fresh.push(Place { parent, nth }) else {
            return Err(NoMemory);
        };
    }
    Ok(fresh)
}

fn append_places(places: &mut Vec<Place>, mut fresh: Vec<Place>) -> Result<(), NoMemory>
    ensures ok { OnOk result (places.new.items ≡ places.old.items ++ fresh.items) }
    ensures err { OnErr result (places.new.items ≡ places.old.items) }
{
    match places.append(&mut fresh) {
        Ok(()) => Ok(()),
        Err(_) => Err(NoMemory),
    }
}

impl Lineage {
    pub fn new(alloc: Global) -> Result<Lineage, NoMemory>
        ensures { IfOk result (λ a. a ≡ [] ∷ []) }
    {
        let mut places = Vec::new(alloc);
        match places.push(Place { parent: 0, nth: 0 }) {
            Ok(()) => Ok(Lineage { places }),
            Err(_) => Err(NoMemory),
        }
    }

    /// Hangs children below a node; they get the next numbers in order.
    pub fn add_children(&mut self, alloc: Global, id: u32, count: u32) -> Result<(), NoMemory>
        requires within { id < length self.old }
        requires room { length self.old + count < 2 ^ 32 }
        ensures ok { OnOk result (self.new ≡ self.old ++ children_from (get_or self.old id []) 0 count) }
        ensures err { OnErr result (self.new ≡ self.old) }
    {
        let fresh = fresh_places(alloc, id, count)?;
        append_places(&mut self.places, fresh)?;
        Ok(())
    }

    /// Where a node hangs. What it says of the root, number 0, means nothing.
    pub fn at(&self, n: u32) -> Place
        requires { n < length self.now }
        ensures path { n ≢ 0 → get_or self.now n [] ≡ result.nth ∷ get_or self.now result.parent [] }
        ensures lower { n ≢ 0 → result.parent < n }
    {
        place_at(&self.places, n)
    }

    /// How deep a node is.
    pub fn depth(&self, n: u32) -> u32
        requires { n < length self.now }
        ensures { result ≡ length (get_or self.now n []) }
    {
        depth_in(&self.places, n)
    }

    /// Compares two nodes in breadth-first order.
    pub fn compare(&self, a: u32, b: u32) -> Ordering
        requires within { (a < length self.now) × (b < length self.now) }
        ensures { result ≡ order (get_or self.now a []) (get_or self.now b []) }
    {
        compare_places(&self.places, a, b)
    }
}

fn first_of(above: Ordering, below: Ordering) -> Ordering
    ensures { result ≡ or_then above below }
{
    match above {
        Ordering::Equal => below,
        unequal => unequal,
    }
}

/// Compares two nodes by the child numbers up to where both come together, or one is the root.
fn compare_places(places: &[Place], a: u32, b: u32) -> Ordering
    requires arena { IsArena places.now }
    requires within { (a < length places.now) × (b < length places.now) }
    ensures { result ≡ order (get_or (paths_of places.now) a []) (get_or (paths_of places.now) b []) }
{
    let mut a = a;
    let mut b = b;
    let mut below = Ordering::Equal;
    while a != b {
        if a == 0 {
            return Ordering::Less;
        }
        if b == 0 {
            return Ordering::Greater;
        }
        let x = places[a as usize];
        let y = places[b as usize];
        below = first_of(x.nth.cmp(&y.nth), below);
        a = x.parent;
        b = y.parent;
    }
    below
}

fn place_at(places: &[Place], n: u32) -> Place
    requires arena { IsArena places.now }
    requires within { n < length places.now }
    ensures path { n ≢ 0 → get_or (paths_of places.now) n [] ≡ result.nth ∷ get_or (paths_of places.now) result.parent [] }
    ensures lower { n ≢ 0 → result.parent < n }
{
    places[n as usize]
}

/// How many parents there are above a node.
fn depth_in(places: &[Place], n: u32) -> u32
    requires arena { IsArena places.now }
    requires within { n < length places.now }
    ensures { result ≡ length (get_or (paths_of places.now) n []) }
{
    let mut n = n;
    let mut depth = 0;
    while n != 0 {
        n = places[n as usize].parent;
        depth += 1;
    }
    depth
}
