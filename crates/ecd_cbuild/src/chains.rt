//! Chains of calls: how long they are, and how many variables their functions have together.

ghost use Rattle.std.specs.Prelude.{◌≡◌, ◌+◌, ◌≤◌, ◌<◌, ◌^◌, ◌∷◌, [], List, ℕ, max, length, IfOk};
ghost use Rattle.ecd_cast.specs.Validity.{source_chain, chain_of, block_chain, declared_by, block_declares, variables_of, call_depth_of, spaces_of};
ghost use Rattle.ecd_cast.specs.ByName.{under};
ghost use Rattle.ecd_cbuild.specs.Chains.{calls_in, variables_in};

use ecd_cast::tree::{CItem, Function, Source, Stmt};
use ecd_list::{MOST_LEVELS, OutOfMemory};
use std::alloc::Global;
use std::collections::BTreeMap;

/// The longest chain of calls that begins with a function, and the most variables and parameters that the functions of one such chain have together.
#[derive(Clone, Copy, Debug, Drop)]
pub struct Reach {
    pub calls: u32,
    pub variables: u32,
}

/// What stands under each function's name.
pub(crate) type Reaches = BTreeMap<Vec<u8>, Reach>;

impl Reach {
    const NONE: Reach = Reach {
        calls: 0,
        variables: 0,
    };

    /// The greater of each.
    fn max(self, other: Reach) -> Reach
        ensures calls { result.calls ≡ max self.calls other.calls }
        ensures variables { result.variables ≡ max self.variables other.variables }
    {
        Reach {
            calls: self.calls.max(other.calls),
            variables: self.variables.max(other.variables),
        }
    }

    /// The chains of a function with so many variables, whose calls reach this far.
    fn through(self, variables: u32) -> Result<Reach, OutOfMemory>
        ensures calls { IfOk result (λ r. r.calls ≡ 1 + self.calls) }
        ensures variables { IfOk result (λ r. r.variables ≡ variables + self.variables) }
    {
        Ok(Reach {
            calls: self.calls.checked_add(1).ok_or(OutOfMemory)?,
            variables: variables.checked_add(self.variables).ok_or(OutOfMemory)?,
        })
    }
}

/// The chains that begin with a value's call.
fn source_reach(reaches: &Reaches, from: &Source) -> Reach
    ensures calls { result.calls ≡ source_chain (λ g. calls_in (under reaches.now g)) from.now }
    ensures variables { result.variables ≡ source_chain (λ g. variables_in (under reaches.now g)) from.now }
{
    match from {
        Source::Value(_) => Reach::NONE,
        Source::Call { name, .. } => match reaches.get(name.as_slice()) {
            Some(reach) => *reach,
            None => Reach::NONE,
        },
    }
}

/// The chains that begin with the calls of some statements.
#[cycle(reach)]
fn block_reach(reaches: &Reaches, body: &[Stmt], levels: u32) -> Result<Reach, OutOfMemory>
    ensures calls { IfOk result (λ r. r.calls ≡ block_chain (λ g. calls_in (under reaches.now g)) body.now) }
    ensures variables { IfOk result (λ r. r.variables ≡ block_chain (λ g. variables_in (under reaches.now g)) body.now) }
{
    let deeper = levels.checked_sub(1).ok_or(OutOfMemory)?;
    let mut reach = Reach::NONE;
    for stmt in body {
        reach = reach.max(stmt_reach(reaches, stmt, deeper)?);
    }
    Ok(reach)
}

#[cycle(reach)]
fn stmt_reach(reaches: &Reaches, stmt: &Stmt, levels: u32) -> Result<Reach, OutOfMemory>
    ensures calls { IfOk result (λ r. r.calls ≡ chain_of (λ g. calls_in (under reaches.now g)) stmt.now) }
    ensures variables { IfOk result (λ r. r.variables ≡ chain_of (λ g. variables_in (under reaches.now g)) stmt.now) }
{
    match stmt {
        Stmt::Number { from, .. } => Ok(source_reach(reaches, from)),
        Stmt::Assign { from, .. } => Ok(source_reach(reaches, from)),
        Stmt::If { yes, no, .. } => {
            let first = block_reach(reaches, yes.as_slice(), levels)?;
            let second = block_reach(reaches, no.as_slice(), levels)?;
            Ok(first.max(second))
        }
        Stmt::For { body, .. } => {
            let reach = block_reach(reaches, body.as_slice(), levels)?;
            Ok(reach)
        }
        Stmt::Pointer { .. } | Stmt::Store { .. } | Stmt::SetCell { .. } | Stmt::Return(_) => {
            Ok(Reach::NONE)
        }
    }
}

/// How many variables some statements declare, those inside counted.
#[cycle(declared)]
fn block_declared(body: &[Stmt], levels: u32) -> Result<u32, OutOfMemory>
    ensures { IfOk result (λ n. n ≡ block_declares body.now) }
{
    let deeper = levels.checked_sub(1).ok_or(OutOfMemory)?;
    let mut count = 0u32;
    for stmt in body {
        let more = stmt_declared(stmt, deeper)?;
        count = count.checked_add(more).ok_or(OutOfMemory)?;
    }
    Ok(count)
}

#[cycle(declared)]
fn stmt_declared(stmt: &Stmt, levels: u32) -> Result<u32, OutOfMemory>
    ensures { IfOk result (λ n. n ≡ declared_by stmt.now) }
{
    match stmt {
        Stmt::Number { .. } | Stmt::Pointer { .. } => Ok(1),
        Stmt::Assign { .. } | Stmt::Store { .. } | Stmt::SetCell { .. } | Stmt::Return(_) => Ok(0),
        Stmt::If { yes, no, .. } => {
            let first = block_declared(yes.as_slice(), levels)?;
            let second = block_declared(no.as_slice(), levels)?;
            Ok(first.checked_add(second).ok_or(OutOfMemory)?)
        }
        Stmt::For { body, .. } => {
            let inside = block_declared(body.as_slice(), levels)?;
            Ok(inside.checked_add(1).ok_or(OutOfMemory)?)
        }
    }
}

/// The chains of calls that begin with a function, by those of the functions before it.
///
/// # Errors
///
/// `OutOfMemory` where blocks stand inside each other in more than `MOST_LEVELS` levels, or a number passes 2^32 - 1.
pub(crate) fn function_reach(reaches: &Reaches, function: &Function) -> Result<Reach, OutOfMemory>
    ensures calls { IfOk result (λ r. r.calls ≡ 1 + block_chain (λ g. calls_in (under reaches.now g)) function.now.body) }
    ensures variables { IfOk result (λ r. r.variables ≡ variables_of function.now + block_chain (λ g. variables_in (under reaches.now g)) function.now.body) }
{
    let params = u32::try_from(function.params.len()).map_err(|_| OutOfMemory)?;
    let declared = block_declared(function.body.as_slice(), MOST_LEVELS)?;
    let variables = params.checked_add(declared).ok_or(OutOfMemory)?;
    let reach = block_reach(reaches, function.body.as_slice(), MOST_LEVELS)?;
    reach.through(variables)
}

/// The longest chain of calls of some items, and the most variables of one chain.
///
/// # Errors
///
/// `OutOfMemory` where memory is wanting, blocks stand inside each other in more than `MOST_LEVELS` levels, or a number passes 2^32 - 1.
pub fn longest(alloc: Global, items: &[CItem]) -> Result<Reach, OutOfMemory>
    ensures calls { IfOk result (λ r. r.calls ≡ call_depth_of items.now) }
    ensures variables { IfOk result (λ r. r.variables ≡ spaces_of items.now) }
{
    let mut reaches = BTreeMap::new(alloc);
    let mut most = Reach::NONE;
    for item in items {
        match item {
            CItem::Struct(_) => {}
            CItem::Function(function) => {
                let reach = function_reach(&reaches, function)?;
                let name = Vec::from_slice(alloc, function.name.as_slice())?;
                most = most.max(reach);
                match reaches.insert(name, reach) {
                    Ok(_) => {}
                    Err(_) => return Err(OutOfMemory),
                }
            }
        }
    }
    Ok(most)
}
