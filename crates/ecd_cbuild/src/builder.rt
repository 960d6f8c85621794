//! Valid programs, made item by item.

ghost use Rattle.std.specs.Prelude.{◌≡◌, [], ◌∷◌, ◌++◌, OnOk, OnErr, MatchOption, ◌↔◌, IsTrue, length, ◌<◌, ◌^◌};
ghost use Rattle.ecd_cast.specs.Validity.{IsValid, IsValidAfter, call_depth_of, spaces_of};
ghost use Rattle.ecd_cast.specs.Spelling.{IsSpelledProgram, IsSpelledItem, AreSpelledItems};
ghost use Rattle.ecd_cast.specs.Kept.{IsNew};
ghost use Rattle.ecd_cbuild.specs.Built.{IsFile, AreValidAfter, GrewByFirst};
ghost use Rattle.ecd_cbuild.specs.Lookup.{IsFunctionAt, IsReaderAt, AreReaderParams, is_function_of};
ghost use Rattle.ecd_cast.specs.declared.tree.CItem.TheVariants.{Function as AFunction};

use crate::chains::{Reach, Reaches, function_reach};
use ecd_cast::tree::{CItem, CItemList, Function, Param, ParamKind, Program};
use ecd_list::OutOfMemory;
use std::alloc::Global;
use std::collections::BTreeMap;
use std::marker::Model;

/// A program that breaks none of C1 to C7, and that has a spelling.
#[derive(Debug, Drop)]
pub struct Valid {
    program: Program,
    spaces: u32,
}

impl Model for Valid {
    ghost use Rattle.ecd_cast.specs.declared.tree.Program.{Program};
    ghost use Rattle.ecd_cast.specs.contracts.tree.Program as file;
    ghost use Rattle.ecd_cbuild.specs.Built.{IsFile};

    ghost Value = { Program };

    ghost coded = { file.the_row.coded };

    ghost view = { λ v. v.program };

    ghost invariant = { λ v. IsFile v.program v.spaces };
}

impl Valid {
    /// A program that is judged already, and the most variables and parameters of one chain of its calls. It takes no memory.
    pub fn of_judged(program: Program, spaces: u32) -> Valid
        requires { IsFile program spaces }
        ensures { result ≡ program }
    {
        Valid { program, spaces }
    }

    /// The program.
    pub fn program(&self) -> &Program
        ensures same { result.now ≡ self.now }
        ensures valid { IsValid self.now }
        ensures spelled { IsSpelledProgram self.now }
    {
        &self.program
    }

    /// The longest chain of calls.
    pub fn call_depth(&self) -> u32
        ensures { result ≡ call_depth_of self.now.items }
    {
        self.program.depth
    }

    /// The most variables and parameters that the functions of one chain of calls have together.
    pub fn spaces(&self) -> u32
        ensures { result ≡ spaces_of self.now.items }
    {
        self.spaces
    }

    /// The item number of the function of this name. None exactly where there is no such function.
    pub fn function(&self, name: &str) -> Option<u32>
        ensures { MatchOption result (IsNew name.now self.now.items) (λ at. IsFunctionAt self.now.items name.now at) }
    {
        function_at(self.program.items.as_slice(), name.as_bytes())
    }

    /// Whether the item of this number is a function whose parameters are a read pointer, a number and a struct, in this order.
    pub fn is_reader(&self, function: u32) -> bool
        ensures { IsTrue result ↔ IsReaderAt self.now.items function }
    {
        match self.program.items.get(function as usize) {
            Some(CItem::Function(function)) => has_reader_params(function.params.as_slice()),
            Some(CItem::Struct(_)) | None => false,
        }
    }
}

/// The number of the first function of this name.
fn function_at(items: &[CItem], name: &[u8]) -> Option<u32>
    requires { length items.now < 2 ^ 32 }
    ensures { MatchOption result (IsNew name.now items.now) (λ at. IsFunctionAt items.now name.now at) }
{
    let mut at = 0;
    for item in items {
        if is_function_named(item, name) {
            return Some(at);
        }
        at += 1;
    }
    None
}

fn is_function_named(item: &CItem, name: &[u8]) -> bool
    ensures { result ≡ is_function_of item.now name.now }
{
    match item {
        CItem::Struct(_) => false,
        CItem::Function(function) => function.name.as_slice() == name,
    }
}

fn has_reader_params(params: &[Param]) -> bool
    ensures { IsTrue result ↔ AreReaderParams params.now }
{
    match params {
        [buffer, length, cells] => {
            matches!(buffer.kind, ParamKind::ReadPointer)
                && matches!(length.kind, ParamKind::Number)
                && matches!(cells.kind, ParamKind::Struct(_))
        }
        _ => false,
    }
}

/// The structs and functions of a program so far, valid at every moment.
#[derive(Debug, Drop)]
pub struct Builder {
    items: CItemList,
    depth: u32,
    spaces: u32,
    reaches: Reaches,
    alloc: Global,
}

impl Model for Builder {
    ghost use Rattle.std.specs.Prelude.{List};
    ghost use Rattle.std.specs.Coded.{coded_list};
    ghost use Rattle.ecd_cast.specs.declared.tree.CItem.{CItem};
    ghost use Rattle.ecd_cast.specs.contracts.tree.CItem as item;
    ghost use Rattle.ecd_cbuild.specs.Built.{IsBuilt};

    ghost Value = { List CItem };

    ghost coded = { coded_list item.the_row.coded };

    ghost view = { λ b. b.items };

    ghost invariant = { λ b. IsBuilt b.items b.depth b.spaces b.reaches };
}

impl Builder {
    /// A program without items. It takes no memory.
    pub fn new(alloc: Global) -> Builder
        ensures { result ≡ [] }
    {
        Builder {
            items: CItemList::new(alloc),
            depth: 0,
            spaces: 0,
            reaches: BTreeMap::new(alloc),
            alloc,
        }
    }

    /// Puts an item behind those that are there. A refusal changes nothing.
    ///
    /// The item breaks none of C1 to C6 behind them, and has a spelling.
    ///
    /// # Errors
    ///
    /// `OutOfMemory` where memory is wanting. These count as that: blocks inside each other in more than `MOST_LEVELS` levels, a function's own block being the first; 2^32 or more items, or variables in one chain of calls.
    pub fn push(&mut self, item: CItem) -> Result<(), OutOfMemory>
        requires valid { IsValidAfter self.old item }
        requires spelled { IsSpelledItem item }
        ensures ok { OnOk result (self.new ≡ self.old ++ item ∷ []) }
        ensures err { OnErr result (self.new ≡ self.old) }
    {
        match item {
            CItem::Struct(declaration) => {
                self.items.push(CItem::Struct(declaration))?;
                Ok(())
            }
            CItem::Function(function) => self.push_function(function),
        }
    }

    /// Puts items behind those that are there, in order. A refusal leaves some first of them behind those.
    ///
    /// Each item breaks none of C1 to C6 behind those that are there and the ones before it, and has a spelling.
    ///
    /// # Errors
    ///
    /// `OutOfMemory` where `push` answers it.
    pub fn extend(&mut self, items: CItemList) -> Result<(), OutOfMemory>
        requires valid { AreValidAfter self.old items }
        requires spelled { AreSpelledItems items }
        ensures ok { OnOk result (self.new ≡ self.old ++ items) }
        ensures err { OnErr result (GrewByFirst self.old items self.new) }
    {
        for item in items.into_vec() {
            self.push(item)?;
        }
        Ok(())
    }

    fn push_function(&mut self, function: Function) -> Result<(), OutOfMemory>
        requires valid { IsValidAfter self.old (AFunction function) }
        requires spelled { IsSpelledItem (AFunction function) }
        ensures ok { OnOk result (self.new ≡ self.old ++ AFunction function ∷ []) }
        ensures err { OnErr result (self.new ≡ self.old) }
    {
        let reach = function_reach(&self.reaches, &function)?;
        let name = Vec::from_slice(self.alloc, function.name.as_slice())?;
        self.items.push(CItem::Function(function))?;
        if self.reaches.insert(name, reach).is_err() {
            self.items.pop();
            return Err(OutOfMemory);
        }
        self.depth = self.depth.max(reach.calls);
        self.spaces = self.spaces.max(reach.variables);
        Ok(())
    }

    /// The number of items so far.
    pub fn len(&self) -> usize
        ensures { result ≡ length self.now }
    {
        self.items.len()
    }

    /// The program of the items, with its call depth. It takes no memory.
    pub fn finish(self) -> Valid
        ensures items { result.items ≡ self }
        ensures depth { result.depth ≡ call_depth_of self }
        ensures valid { IsValid result }
        ensures spelled { IsSpelledProgram result }
    {
        let Builder {
            items,
            depth,
            spaces,
            reaches: _,
            alloc: _,
        } = self;
        Valid {
            program: Program { depth, items },
            spaces,
        }
    }
}
