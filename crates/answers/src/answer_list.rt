//! The lists in answers.
ghost use Rattle.std.specs.Prelude.{◌≡◌, [], ◌∷◌, ◌++◌, ◌<◌, ◌≤◌, length, Some, OnOk, OnErr};
ghost use Rattle.std.specs.List.{slice_get};
ghost use Rattle.std.specs.Cmp.Lexicographic.{pointwise, lists_per, lists_equiv};

use bounded_coords::OutOfMemory;
use std::alloc::Global;
use std::marker::Model;

/// At most 1000000 items, in the order in which they were pushed.
#[derive(Debug, Drop)]
pub struct AnswerList<T> {
    items: Vec<T>,
}

impl<T> Model for AnswerList<T> {
    ghost use Rattle.std.specs.Prelude.{List, ◌≤◌, length};

    ghost Value = { List T };

    ghost view = { λ l. l.items.items };

    ghost invariant = { λ l. length l.items.items ≤ 1000000 };
}

impl<T: Copy> AnswerList<T> {
    /// The empty list. It takes no memory.
    pub fn new(alloc: Global) -> AnswerList<T>
        ensures { result ≡ [] }
    {
        AnswerList {
            items: Vec::new(alloc),
        }
    }

    /// The empty list, with room for so many items, so that pushing them moves none. Where memory is refused it has no room,
    /// and the first item to be pushed wants memory.
    pub fn with_capacity(alloc: Global, capacity: u32) -> AnswerList<T>
        ensures { result ≡ [] }
    {
        let items = match Vec::with_capacity(alloc, capacity as usize) {
            Ok(items) => items,
            Err(_) => Vec::new(alloc),
        };
        AnswerList { items }
    }

    /// Adds an item at the end. Where memory is refused, the list stays as it was.
    pub fn push(&mut self, item: T) -> Result<(), OutOfMemory>
        requires { length self.old < 1000000 }
        ensures added { OnOk result (self.new ≡ self.old ++ item ∷ []) }
        ensures same { OnErr result (self.new ≡ self.old) }
    {
        match self.items.push(item) {
            Ok(()) => Ok(()),
            Err(_) => Err(OutOfMemory),
        }
    }

    /// How many items there are.
    pub fn len(&self) -> u32
        ensures count { result ≡ length self.now }
        ensures limit { result ≤ 1000000 }
    {
        self.items.len() as u32
    }

    /// The item of this index, counted from 0.
    pub fn at(&self, i: u32) -> T
        requires { i < length self.now }
        ensures { slice_get self.now i ≡ Some result }
    {
        self.items[i as usize]
    }

    /// All items.
    pub fn as_slice(&self) -> &[T]
        ensures items { result.now ≡ self.now }
        ensures within { length result.now ≤ 1000000 }
    {
        self.items.as_slice()
    }
}

impl<T: PartialEq> PartialEq for AnswerList<T> {
    ghost eq = { λ a b. pointwise T.eq a b };

    ghost laws = { lists_per T.laws };

    fn eq(&self, other: &AnswerList<T>) -> bool {
        self.items.as_slice() == other.items.as_slice()
    }
}

impl<T: Eq> Eq for AnswerList<T> {
    ghost laws = { lists_equiv T.Eq.laws };
}
