// Names with their places.
ghost use Rattle.std.specs.Prelude.{◌≡◌, ◌∷◌, ◌++◌, [], not, position, IfOk, OnErr, if◌then◌else◌, IfSome, ◌<◌, length};
ghost use Rattle.std.specs.List.{list_any};
ghost use Rattle.std.specs.Str.{bytes_eq};

use base_types::NoMemory;
use std::alloc::Global;
use std::collections::BTreeMap;
use std::marker::Model;

/// Different names with their places, which are seen as the list of the names.
#[derive(Drop)]
pub struct NamePlaces<'a> {
    names: Vec<&'a str>,
    index: BTreeMap<&'a str, usize>,
}

impl<'a> Model for NamePlaces<'a> {
    ghost use Rattle.std.specs.Prelude.{List, ℕ};
    ghost use Rattle.name_places.specs.Index.{IsIndexOf};
    ghost use Rattle.base_types.specs.Names.{texts};

    ghost Value = { List (List ℕ) };

    ghost view = { λ a. texts a.names.items };

    ghost invariant = { λ a. IsIndexOf a.index (texts a.names.items) };
}

impl<'a> NamePlaces<'a> {
    /// No names, which take no memory.
    pub fn new(alloc: Global) -> NamePlaces<'a>
        ensures { result ≡ [] }
    {
        NamePlaces {
            names: Vec::new(alloc),
            index: BTreeMap::new(alloc),
        }
    }

    /// Adds a name at the end, or answers `false` where it is there. A growth that finds no memory leaves all as before.
    pub fn add(&mut self, name: &'a str) -> Result<bool, NoMemory>
        ensures fresh { IfOk result (λ b. b ≡ not (list_any (bytes_eq name.now) self.old)) }
        ensures added { IfOk result (λ b. self.new ≡ (if b then self.old ++ name.now ∷ [] else self.old)) }
        ensures err { OnErr result (self.new ≡ self.old) }
    {
        if self.index.contains_key(name) {
            return Ok(false);
        }
        let place = self.names.len();
        self.names.push(name)?;
        match self.index.insert(name, place) {
            Ok(_) => Ok(true),
            Err(_) => {
                self.names.pop();
                Err(NoMemory)
            }
        }
    }

    /// The place of a name.
    pub fn place(&self, name: &str) -> Option<usize>
        ensures place { result ≡ position (bytes_eq name.now) self.now }
        ensures within { IfSome result (λ i. i < length self.now) }
    {
        self.index.get(name).copied()
    }

    /// Whether a name is there.
    pub fn holds(&self, name: &str) -> bool
        ensures { result ≡ list_any (bytes_eq name.now) self.now }
    {
        self.index.contains_key(name)
    }
}
