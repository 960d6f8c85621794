//! The variables of the open blocks of a function.

ghost use Rattle.std.specs.Prelude.{◌≡◌, [], ◌∷◌, ◌++◌, OnOk, MatchOption};
ghost use Rattle.ecd_cast.specs.Expressions.{lookup, given};
ghost use Rattle.ecd_cast.specs.Meaning as meaning;
ghost use Rattle.ecd_ceval.specs.Outcomes.{outcome};
ghost use Rattle.ecd_ceval.specs.Scopes.{scopes_of, IsFree, IsLast};

use crate::reason::{Outcome, Reason};
use ecd_cast::value::Value;
use ecd_list::OutOfMemory;
use std::alloc::Global;
use std::marker::Model;

/// A block that was opened, or a variable.
#[derive(Clone, Copy, Debug)]
pub enum Slot<'a> {
    Opened,
    Variable { name: &'a [u8], value: Value },
}

/// The variables of the open blocks, which contracts see as scopes.
#[derive(Debug, Drop)]
pub struct Variables<'a> {
    slots: Vec<Slot<'a>>,
}

impl<'a> Model for Variables<'a> {
    ghost use Rattle.ecd_cast.specs.Expressions.{Scopes};

    ghost Value = { Scopes };

    ghost use Rattle.ecd_ceval.specs.Scopes.{scopes_of};

    ghost view = { λ v. scopes_of v.slots.items };
}

/// The place and the value of the last variable of a name.
fn last_of(slots: &[Slot<'_>], name: &[u8]) -> Option<(usize, Value)>
    ensures { MatchOption result (IsFree name.now slots.now) (λ last. IsLast name.now slots.now last.0 last.1) }
{
    let mut at = slots.len();
    while at > 0 {
        at -= 1;
        if let Slot::Variable { name: known, value } = slots[at] {
            if known == name {
                return Some((at, value));
            }
        }
    }
    None
}

impl<'a> Variables<'a> {
    /// No block and no variable. It takes no memory.
    pub fn new(alloc: Global) -> Variables<'a>
        ensures { result ≡ [] }
    {
        Variables {
            slots: Vec::new(alloc),
        }
    }

    /// The value of a variable.
    pub fn get(&self, name: &[u8]) -> Outcome
        ensures { outcome result ≡ given (lookup self.now name.now) }
    {
        match last_of(&self.slots, name) {
            Some((_, value)) => Ok(value),
            None => Err(Reason::Rule),
        }
    }

    /// Opens a block.
    pub fn enter(&mut self) -> Result<(), OutOfMemory>
        ensures { OnOk result (self.new ≡ [] ∷ self.old) }
    {
        self.slots.push(Slot::Opened)?;
        Ok(())
    }

    /// Closes the last block.
    pub fn leave(&mut self)
        ensures { self.new ≡ meaning.leave self.old }
    {
        while let Some(slot) = self.slots.pop() {
            if let Slot::Opened = slot {
                return;
            }
        }
    }

    /// Declares a variable in the last block.
    pub fn declare(&mut self, name: &'a [u8], value: Value) -> Result<(), OutOfMemory>
        ensures { OnOk result (self.new ≡ meaning.declare name.entry.now value self.old) }
    {
        self.slots.push(Slot::Variable { name, value })?;
        Ok(())
    }

    /// Gives the last variable of a name another value.
    pub fn assign(&mut self, name: &'a [u8], value: Value)
        ensures { self.new ≡ meaning.assign name.entry.now value self.old }
    {
        if let Some((at, _)) = last_of(&self.slots, name) {
            self.slots[at] = Slot::Variable { name, value };
        }
    }
}
