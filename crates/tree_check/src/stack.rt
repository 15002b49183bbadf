// A stack, which contracts see as a list with the newest item first.
ghost use Rattle.std.specs.Prelude.{◌≡◌, [], ◌∷◌, reverse, OnOk, OnErr, MatchOption, length, ◌==◌};

use gas_model::NoMemory;
use std::alloc::Global;
use std::marker::Model;

/// Items of which the newest is taken first.
#[derive(Debug, Drop)]
pub struct Stack<T> {
    items: Vec<T>,
}

impl<T> Model for Stack<T> {
    ghost use Rattle.std.specs.Prelude.{List as ListOf, reverse};

    ghost Value = { ListOf T };

    ghost view = { λ it. reverse it.items.items };
}

impl<T: Drop> Stack<T> {
    /// An empty stack, which takes no memory.
    pub fn new(alloc: Global) -> Stack<T>
        ensures { result ≡ [] }
    {
        Stack {
            items: Vec::new(alloc),
        }
    }

    /// These items, of which the last is the newest.
    pub fn of(items: Vec<T>) -> Stack<T>
        ensures { result ≡ reverse items.items }
    {
        Stack { items }
    }

    /// Puts an item on top. A growth that finds no memory leaves all as before.
    pub fn push(&mut self, item: T) -> Result<(), NoMemory>
        ensures ok { OnOk result (self.new ≡ item ∷ self.old) }
        ensures err { OnErr result (self.new ≡ self.old) }
    {
        self.items.push(item)?;
        Ok(())
    }

    /// Whether there is no item.
    pub fn is_empty(&self) -> bool
        ensures { result ≡ (length self.now == 0) }
    {
        self.items.is_empty()
    }

    /// Takes the newest item away. `None` exactly where there is none.
    pub fn pop(&mut self) -> Option<T>
        ensures { MatchOption result ((self.old ≡ []) × (self.new ≡ [])) (λ x. self.old ≡ x ∷ self.new) }
    {
        self.items.pop()
    }
}
