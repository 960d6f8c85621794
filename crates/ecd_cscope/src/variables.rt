//! The variables that are known at a statement, by their names.

ghost use Rattle.std.specs.Prelude.{◌≡◌, ◌-◌, [], ◌∷◌, IfOk, OnOk, OnErr, None, drop, length, if◌then◌else◌, bytes_eq};
ghost use Rattle.ecd_cast.specs.Memory.{Name};
ghost use Rattle.ecd_cast.specs.Kinds.{kind_in};
ghost use Rattle.ecd_cast.specs.Validity.{is_among};
ghost use Rattle.ecd_cscope.specs.Variables.{kind_as, kind_if, names_of};
ghost use Rattle.ecd_cast.specs.ByName.{named};

use crate::kind::Kind;
use ecd_list::OutOfMemory;
use std::alloc::Global;
use std::collections::BTreeMap;
use std::marker::Model;

/// Kinds under the names of variables.
type Kinds<'a> = BTreeMap<&'a [u8], Kind<'a>>;

/// A variable or parameter that is known.
#[derive(Clone, Copy)]
pub struct Declared<'a> {
    name: &'a [u8],
    kind: Kind<'a>,
    /// The kind that its name had before.
    before: Option<Kind<'a>>,
}

/// The variables and parameters that are known. Contracts see the list of their names and kinds, the last one first.
#[derive(Drop)]
pub struct Variables<'a> {
    /// In the order of their declarations.
    declared: Vec<Declared<'a>>,
    /// The kind of the variable of each name that was known last.
    kinds: Kinds<'a>,
}

impl<'a> Model for Variables<'a> {
    ghost use Rattle.ecd_cast.specs.Kinds.{Known};

    ghost Value = { Known };

    ghost use Rattle.ecd_cscope.specs.Variables.{known_in, IsKept};

    ghost view = { λ v. known_in v.declared.items };

    ghost invariant = { λ v. IsKept v.declared.items v.kinds };
}

impl<'a> Variables<'a> {
    /// No variables. It takes no memory.
    pub fn new(alloc: Global) -> Variables<'a>
        ensures { result ≡ [] }
    {
        Variables {
            declared: Vec::new(alloc),
            kinds: BTreeMap::new(alloc),
        }
    }

    /// How many there are. Those of one name count each.
    pub fn len(&self) -> usize
        ensures { result ≡ length self.now }
    {
        self.declared.len()
    }

    /// The kind of the variable of this name that was known last.
    pub fn kind_of(&self, name: &[u8]) -> Option<Kind<'a>>
        ensures { kind_if result ≡ kind_in self.now name.now }
    {
        self.kinds.get(name).copied()
    }

    /// Whether there is a variable of this name.
    pub fn has(&self, name: &[u8]) -> bool
        ensures { result ≡ is_among (names_of self.now) name.now }
    {
        self.kinds.contains_key(name)
    }

    /// A variable that is known from here on.
    pub fn declare(&mut self, name: &'a [u8], kind: Kind<'a>) -> Result<(), OutOfMemory>
        ensures { OnOk result (self.new ≡ (name.entry.now, kind_as kind.entry) ∷ self.old) }
    {
        self.declared.reserve(1)?;
        match self.kinds.insert(name, kind) {
            Ok(before) => {
                self.declared.push_reserved(Declared { name, kind, before });
                Ok(())
            }
            Err(_) => Err(OutOfMemory),
        }
    }

    /// Forgets the variable that was known last: its name has the kind that it had before.
    fn forget(&mut self) -> Result<(), OutOfMemory>
        ensures { OnOk result (self.new ≡ drop 1 self.old) }
    {
        if let Some(last) = self.declared.pop() {
            put_back(&mut self.kinds, last.name, last.before)?;
        }
        Ok(())
    }

    /// Forgets all variables but the first so many.
    pub fn leave(&mut self, outer: usize) -> Result<(), OutOfMemory>
        ensures { OnOk result (self.new ≡ drop (length self.old - outer) self.old) }
    {
        let inner = self.len().saturating_sub(outer);
        for _ in 0..inner {
            self.forget()?;
        }
        Ok(())
    }
}

/// Gives a name the kind that it had before, or none.
fn put_back<'a>(
    kinds: &mut Kinds<'a>,
    name: &'a [u8],
    before: Option<Kind<'a>>,
) -> Result<(), OutOfMemory>
    ensures ok { OnOk result ((x : Name) → named kinds.new x ≡ (if bytes_eq name.entry.now x then before.entry else named kinds.old x)) }
    ensures err { OnErr result (named kinds.old name.entry.now ≡ None) }
{
    match before {
        Some(kind) => match kinds.insert(name, kind) {
            Ok(_) => {}
            Err(_) => return Err(OutOfMemory),
        },
        None => {
            kinds.remove(name);
        }
    }
    Ok(())
}
