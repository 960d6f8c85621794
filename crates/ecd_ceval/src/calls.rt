//! A call, from its arguments to its answer.

ghost use Rattle.std.specs.Prelude.{◌≡◌, map, IfOk};
ghost use Rattle.ecd_ceval.specs.Following.{memory_in};
ghost use Rattle.ecd_ceval.specs.Machines.{value_of_arg, meaning, Answers, started, taken_by, IsSmall, Runs};

use crate::context::Context;
use crate::machine::{Arg, Halt};
use crate::meter::Meter;
use crate::state::State;
use crate::statements::called;
use crate::stop::Stop;
use ecd_cast::tree::CItem;
use ecd_cast::value::Value;
use ecd_list::{List, MOST_LEVELS, OutOfMemory};
use std::alloc::Global;

/// The value of an argument.
fn value_of(arg: Arg) -> Value
    ensures { result ≡ value_of_arg arg }
{
    match arg {
        Arg::Number(number) => Value::Number(number),
        Arg::Bytes { block, offset } => Value::Bytes { block, offset },
        Arg::Struct { block } => Value::Struct { block },
    }
}

fn values_of(alloc: Global, args: &[Arg]) -> Result<List<Value>, OutOfMemory>
    ensures { IfOk result (λ values. values ≡ map value_of_arg args.now) }
{
    let mut values = List::new(alloc);
    for arg in args {
        values.push(value_of(*arg))?;
    }
    Ok(values)
}

/// The meter of a call that begins.
fn start(limit: Option<u64>) -> Meter
    ensures meter { result ≡ started limit }
    ensures small { IsSmall limit }
{
    match limit {
        Some(limit) => Meter::Left(limit),
        None => Meter::Taken(0),
    }
}

/// The steps that a meter has counted since then.
fn taken(limit: Option<u64>, meter: Meter) -> u64
    ensures { result ≡ taken_by limit meter }
{
    match meter {
        Meter::Left(left) => match limit {
            Some(limit) => limit.saturating_sub(left),
            None => 0,
        },
        Meter::Taken(steps) => steps,
    }
}

/// Calls the function of an item number.
pub fn run<'a>(
    alloc: Global,
    items: &'a [CItem],
    function: u32,
    args: &[Arg],
    limit: Option<u64>,
    state: &mut State<'a>,
) -> Result<u64, Halt>
    ensures { Runs (meaning items.entry.now function (map value_of_arg args.now) (memory_in state.old)) limit result state.old state.new }
{
    let Some(CItem::Function(found)) = items.get(function as usize) else {
        return Err(Halt::Stuck {
            reason: 0,
            item: 0,
            statement: 0,
        });
    };
    let Ok(values) = values_of(alloc, args) else {
        return Err(Halt::OutOfMemory { steps: 0 });
    };
    state.meter = start(limit);
    let context = Context {
        alloc,
        items,
        item: function,
        levels: MOST_LEVELS,
    };
    match called(context, found, values.as_slice(), state) {
        Ok(number) => Ok(number),
        Err(
            Stop::Stuck {
                reason,
                item,
                statement,
            },
        ) => Err(Halt::Stuck {
            reason,
            item,
            statement,
        }),
        Err(Stop::Spent) => Err(Halt::Spent {
            steps: taken(limit, state.meter),
        }),
        Err(Stop::OutOfMemory) => Err(Halt::OutOfMemory {
            steps: taken(limit, state.meter),
        }),
    }
}
