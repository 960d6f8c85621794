ghost use Rattle.std.specs.Prelude.{◌≡◌, [], ◌∷◌, ◌++◌, ◌<◌, ◌^◌, length, slice_get, ◌↔◌, IsTrue, IfOk, OnOk, OnErr, OnSome, MatchOption};
ghost use Rattle.std.specs.Option.{option_copied};

use crate::memory::OutOfMemory;
use std::alloc::Global;
use std::marker::Model;

/// A `Vec` that contracts see as the list of its elements.
#[derive(Debug, Drop)]
pub struct List<T> {
    elements: Vec<T>,
}

/// Bytes: of a text, a name or an encoding.
pub type ByteList = List<u8>;

/// The most elements that `push` makes a list hold.
pub const MOST_ELEMENTS: usize = 0xFFFF_FFFF;

impl<T> Model for List<T> {
    ghost use Rattle.std.specs.Coded.{coded_list};
    ghost use Rattle.std.specs.Prelude.{List as ListOf};

    ghost Value = { ListOf T };

    ghost coded = { coded_list T.code };

    ghost view = { λ l. l.elements.items };
}

impl<T> List<T> {
    /// The empty list.
    pub fn new(alloc: Global) -> List<T>
        ensures { result ≡ [] }
    {
        List {
            elements: Vec::new(alloc),
        }
    }

    /// The list of a `Vec`'s elements. It takes no memory.
    pub fn from_vec(elements: Vec<T>) -> List<T>
        ensures { result ≡ elements.items }
    {
        List { elements }
    }

    /// The elements as a `Vec`. It takes no memory.
    pub fn into_vec(self) -> Vec<T>
        ensures { result.items ≡ self }
    {
        let List { elements } = self;
        elements
    }

    /// All elements, in order.
    pub fn as_slice(&self) -> &[T]
        ensures { result.now ≡ self.now }
    {
        self.elements.as_slice()
    }

    /// The number of elements.
    pub fn len(&self) -> usize
        ensures { result ≡ length self.now }
    {
        self.elements.len()
    }

    /// Whether there is no element.
    pub fn is_empty(&self) -> bool
        ensures { IsTrue result ↔ (self.now ≡ []) }
    {
        self.elements.is_empty()
    }

    /// The element of that number, from 0.
    pub fn get(&self, at: usize) -> Option<&T>
        ensures value { option_copied result ≡ slice_get self.now at }
        ensures within { OnSome result (at < length self.now) }
    {
        self.elements.get(at)
    }

    /// Takes the last element away.
    pub fn pop(&mut self) -> Option<T>
        ensures { MatchOption result ((self.old ≡ []) × (self.new ≡ [])) (λ last. self.old ≡ self.new ++ last ∷ []) }
    {
        self.elements.pop()
    }
}

impl<T: Drop> List<T> {
    /// Puts an element last. A refusal drops it and changes nothing.
    ///
    /// # Errors
    ///
    /// `OutOfMemory` where a growth was refused, or the list has `MOST_ELEMENTS` already.
    pub fn push(&mut self, one: T) -> Result<(), OutOfMemory>
        ensures ok { OnOk result (self.new ≡ self.old ++ one ∷ []) }
        ensures counted { OnOk result (length self.new < 2 ^ 32) }
        ensures err { OnErr result (self.new ≡ self.old) }
    {
        if self.elements.len() >= MOST_ELEMENTS {
            return Err(OutOfMemory);
        }
        self.elements.push(one)?;
        Ok(())
    }
}

impl<T: Copy> List<T> {
    /// A list of these elements.
    pub fn from_slice(alloc: Global, elements: &[T]) -> Result<List<T>, OutOfMemory>
        ensures { IfOk result (λ l. l ≡ elements.now) }
    {
        let elements = Vec::from_slice(alloc, elements)?;
        Ok(List { elements })
    }
}
