//! Statements, blocks, loops and calls, run as they mean.

ghost use Rattle.std.specs.Prelude.{◌≡◌, [], ◌∷◌};
ghost use Rattle.ecd_cast.specs.declared.tree.Stmt.TheVariants.{Number as DeclNumber, Assign as AnAssign, If as AnIf, For as AFor};
ghost use Rattle.ecd_cast.specs.declared.tree.Source.TheVariants.{Call as FromCall};
ghost use Rattle.ecd_cast.specs.Meaning as meaning;
ghost use Rattle.ecd_ceval.specs.Following.{Follows, begun, call_begun, memory_in, as_flow, turn_run};
ghost use Rattle.ecd_ceval.specs.Places.{calls_in, place_in};

use crate::context::{Context, after, behind};
use crate::count::count_all;
use crate::expressions::value_of;
use crate::functions::{arguments, entered, find};
use crate::reason::Reason;
use crate::simple;
use crate::state::State;
use crate::stop::{Flow, Stop, stuck};
use crate::variables::Variables;
use ecd_cast::tree::{Expr, Function, Source, Stmt};
use ecd_cast::value::Value;

/// A function, called with these values.
#[cycle(statements)]
pub fn called<'a>(
    context: Context<'a>,
    function: &'a Function,
    values: &[Value],
    state: &mut State<'a>,
) -> Result<u64, Stop>
    ensures { Follows (meaning.called (calls_in context.entry) context.entry.item function.entry.now values.now (memory_in state.old)) (as_flow result) [] state.old state.new }
{
    let mut variables = entered(context.alloc, function.params.as_slice(), values)?;
    match block(context, function.body.as_slice(), 1, &mut variables, state)? {
        Flow::Returns(number) => Ok(number),
        Flow::Falls => Err(stuck(context.item, 0, Reason::Rule)),
    }
}

/// The function of a name among the earlier ones, called with these values.
#[cycle(statements)]
fn named<'a>(
    context: Context<'a>,
    name: &[u8],
    values: &[Value],
    state: &mut State<'a>,
) -> Result<u64, Stop>
    ensures { Follows (calls_in context.entry name.now values.now (memory_in state.old)) (as_flow result) [] state.old state.new }
{
    match find(context.items, context.item, name) {
        Some((item, function)) => {
            let inner = Context {
                alloc: context.alloc,
                items: context.items,
                item,
                levels: context.levels,
            };
            called(inner, function, values, state)
        }
        None => Err(stuck(0, 0, Reason::Rule)),
    }
}

/// The call that a statement begins with.
#[cycle(statements)]
fn call<'a>(
    context: Context<'a>,
    name: &[u8],
    args: &[Expr],
    number: u32,
    variables: &Variables<'a>,
    state: &mut State<'a>,
) -> Result<u64, Stop>
    ensures { Follows (call_begun (calls_in context.entry) name.now args.now (place_in context.entry number) variables.now (memory_in state.old)) (as_flow result) [] state.old state.new }
{
    let inner = context.inner()?;
    let values = arguments(context.alloc, args, variables, &state.blocks)?;
    state.tick()?;
    match values {
        Ok(values) => named(inner, name, values.as_slice(), state),
        Err(reason) => Err(stuck(context.item, number, reason)),
    }
}

/// A declaration of a number.
#[cycle(statements)]
fn declare_number<'a>(
    context: Context<'a>,
    name: &'a [u8],
    from: &'a Source,
    number: u32,
    variables: &mut Variables<'a>,
    state: &mut State<'a>,
) -> Result<Flow, Stop>
    ensures { Follows (begun (calls_in context.entry) (DeclNumber name.entry.now from.entry.now) (place_in context.entry number) variables.old (memory_in state.old)) result variables.new state.old state.new }
{
    match from {
        Source::Value(value) => simple::declare(context, name, value, number, variables, state),
        Source::Call {
            name: function,
            args,
        } => {
            let returned = call(
                context,
                function.as_slice(),
                args.as_slice(),
                number,
                variables,
                state,
            )?;
            variables.declare(name, Value::Number(returned))?;
            Ok(Flow::Falls)
        }
    }
}

/// An assignment to a variable.
#[cycle(statements)]
fn assign<'a>(
    context: Context<'a>,
    name: &'a [u8],
    from: &'a Source,
    number: u32,
    variables: &mut Variables<'a>,
    state: &mut State<'a>,
) -> Result<Flow, Stop>
    ensures { Follows (begun (calls_in context.entry) (AnAssign name.entry.now from.entry.now) (place_in context.entry number) variables.old (memory_in state.old)) result variables.new state.old state.new }
{
    match from {
        Source::Value(value) => simple::assign(context, name, value, number, variables, state),
        Source::Call {
            name: function,
            args,
        } => {
            let returned = call(
                context,
                function.as_slice(),
                args.as_slice(),
                number,
                variables,
                state,
            )?;
            variables.assign(name, Value::Number(returned));
            Ok(Flow::Falls)
        }
    }
}

/// A block with variables of its own.
#[cycle(statements)]
fn scoped<'a>(
    context: Context<'a>,
    body: &'a [Stmt],
    first: u32,
    variables: &mut Variables<'a>,
    state: &mut State<'a>,
) -> Result<Flow, Stop>
    ensures { Follows (meaning.scoped (meaning.block (calls_in context.entry) body.entry.now (place_in context.entry first)) variables.old (memory_in state.old)) result variables.new state.old state.new }
{
    variables.enter()?;
    let flow = block(context, body, first, variables, state)?;
    variables.leave();
    Ok(flow)
}

/// A choice between two blocks.
#[cycle(statements)]
fn choice<'a>(
    context: Context<'a>,
    test: &Expr,
    yes: &'a [Stmt],
    no: &'a [Stmt],
    number: u32,
    variables: &mut Variables<'a>,
    state: &mut State<'a>,
) -> Result<Flow, Stop>
    ensures { Follows (begun (calls_in context.entry) (AnIf test.now yes.entry.now no.entry.now) (place_in context.entry number) variables.old (memory_in state.old)) result variables.new state.old state.new }
{
    let inner = context.inner()?;
    let first = after(number, 1)?;
    state.tick()?;
    match value_of(test, variables, &state.blocks) {
        Ok(Value::Truth(true)) => scoped(inner, yes, first, variables, state),
        Ok(Value::Truth(false)) => match count_all(yes) {
            Some(passed) => {
                let second = after(first, passed)?;
                scoped(inner, no, second, variables, state)
            }
            None => Err(Stop::OutOfMemory),
        },
        Ok(_) => Err(stuck(context.item, number, Reason::Rule)),
        Err(reason) => Err(stuck(context.item, number, reason)),
    }
}

/// A turn of a loop.
#[cycle(statements)]
fn turn<'a>(
    context: Context<'a>,
    name: &'a [u8],
    count: u64,
    body: &'a [Stmt],
    first: u32,
    variables: &mut Variables<'a>,
    state: &mut State<'a>,
) -> Result<Flow, Stop>
    ensures { Follows (turn_run name.entry.now count (meaning.block (calls_in context.entry) body.entry.now (place_in context.entry first)) variables.old (memory_in state.old)) result variables.new state.old state.new }
{
    variables.enter()?;
    variables.declare(name, Value::Number(count))?;
    state.tick()?;
    let flow = block(context, body, first, variables, state)?;
    variables.leave();
    Ok(flow)
}

/// A loop.
#[cycle(statements)]
fn repeat<'a>(
    context: Context<'a>,
    name: &'a [u8],
    bound: &'a [u8],
    body: &'a [Stmt],
    number: u32,
    variables: &mut Variables<'a>,
    state: &mut State<'a>,
) -> Result<Flow, Stop>
    ensures { Follows (begun (calls_in context.entry) (AFor name.entry.now bound.entry.now body.entry.now) (place_in context.entry number) variables.old (memory_in state.old)) result variables.new state.old state.new }
{
    let inner = context.inner()?;
    let first = after(number, 1)?;
    state.tick()?;
    let turns = match variables.get(bound) {
        Ok(Value::Number(turns)) => turns,
        Ok(_) => return Err(stuck(context.item, number, Reason::Rule)),
        Err(reason) => return Err(stuck(context.item, number, reason)),
    };
    for count in 0..turns {
        match turn(inner, name, count, body, first, variables, state)? {
            Flow::Falls => {}
            Flow::Returns(returned) => return Ok(Flow::Returns(returned)),
        }
    }
    Ok(Flow::Falls)
}

/// A statement, begun.
#[cycle(statements)]
fn begin<'a>(
    context: Context<'a>,
    statement: &'a Stmt,
    number: u32,
    variables: &mut Variables<'a>,
    state: &mut State<'a>,
) -> Result<Flow, Stop>
    ensures { Follows (begun (calls_in context.entry) statement.entry.now (place_in context.entry number) variables.old (memory_in state.old)) result variables.new state.old state.new }
{
    match statement {
        Stmt::Number { name, from } => {
            declare_number(context, name.as_slice(), from, number, variables, state)
        }
        Stmt::Pointer { name, from } => {
            simple::declare(context, name.as_slice(), from, number, variables, state)
        }
        Stmt::Assign { name, from } => {
            assign(context, name.as_slice(), from, number, variables, state)
        }
        Stmt::Store { name, index, from } => {
            simple::store(
                context,
                name.as_slice(),
                index,
                from,
                number,
                variables,
                state,
            )
        }
        Stmt::SetCell { name, cell, from } => {
            let cell = cell.as_slice();
            simple::set_cell(
                context,
                name.as_slice(),
                cell,
                from,
                number,
                variables,
                state,
            )
        }
        Stmt::If { test, yes, no } => {
            let yes = yes.as_slice();
            choice(context, test, yes, no.as_slice(), number, variables, state)
        }
        Stmt::For { name, bound, body } => {
            let bound = bound.as_slice();
            let body = body.as_slice();
            repeat(
                context,
                name.as_slice(),
                bound,
                body,
                number,
                variables,
                state,
            )
        }
        Stmt::Return(from) => simple::give(context, from, number, variables, state),
    }
}

/// The statements of a list, in turn.
#[cycle(statements)]
fn block<'a>(
    context: Context<'a>,
    body: &'a [Stmt],
    first: u32,
    variables: &mut Variables<'a>,
    state: &mut State<'a>,
) -> Result<Flow, Stop>
    ensures { Follows (meaning.block (calls_in context.entry) body.entry.now (place_in context.entry first) variables.old (memory_in state.old)) result variables.new state.old state.new }
{
    let mut number = first;
    for statement in body {
        match begin(context, statement, number, variables, state)? {
            Flow::Falls => {}
            Flow::Returns(returned) => return Ok(Flow::Returns(returned)),
        }
        number = behind(number, statement)?;
    }
    Ok(Flow::Falls)
}
