//! Functions by name, and their arguments.

ghost use Rattle.std.specs.Prelude.{◌≡◌, [], ◌∷◌, take, IfOk, MatchOption};
ghost use Rattle.ecd_cast.specs.Meaning.{frame_of};
ghost use Rattle.ecd_ceval.specs.Blocks.{memory_of};
ghost use Rattle.ecd_ceval.specs.Functions.{IsUnknown, IsMeant, ArgumentsAre};

use crate::blocks::Held;
use crate::expressions::value_of;
use crate::reason::Reason;
use crate::variables::Variables;
use ecd_cast::tree::{CItem, Expr, Function, Param};
use ecd_cast::value::Value;
use ecd_list::{List, OutOfMemory};
use std::alloc::Global;

/// The function of a name among the items before a number: the last one, with its number.
pub fn find<'a>(items: &'a [CItem], before: u32, name: &[u8]) -> Option<(u32, &'a Function)>
    ensures { MatchOption result (IsUnknown (take before items.now) name.now) (λ found. IsMeant items.now before name.now found.0 found.1.now) }
{
    let mut at = before;
    if items.len() < before as usize {
        at = items.len() as u32;
    }
    while at > 0 {
        at -= 1;
        if let CItem::Function(function) = &items[at as usize] {
            if function.name.as_slice() == name {
                return Some((at, function));
            }
        }
    }
    None
}

/// The values of arguments, from left to right.
pub fn arguments(
    alloc: Global,
    args: &[Expr],
    variables: &Variables<'_>,
    blocks: &[Held<'_>],
) -> Result<Result<List<Value>, Reason>, OutOfMemory>
    ensures { IfOk result (λ values. ArgumentsAre values args.now variables.now (memory_of blocks.now)) }
{
    let mut values = List::new(alloc);
    for arg in args {
        match value_of(arg, variables, blocks) {
            Ok(value) => values.push(value)?,
            Err(reason) => return Ok(Err(reason)),
        }
    }
    Ok(Ok(values))
}

/// The variables of a function that is entered.
pub fn entered<'a>(
    alloc: Global,
    params: &'a [Param],
    values: &[Value],
) -> Result<Variables<'a>, OutOfMemory>
    ensures { IfOk result (λ variables. variables ≡ frame_of params.entry.now values.now ∷ []) }
{
    let mut variables = Variables::new(alloc);
    variables.enter()?;
    let mut at = params.len();
    if values.len() < at {
        at = values.len();
    }
    while at > 0 {
        at -= 1;
        variables.declare(params[at].name.as_slice(), values[at])?;
    }
    Ok(variables)
}
