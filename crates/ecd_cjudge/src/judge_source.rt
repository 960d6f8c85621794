//! The rules that the values of statements break, calls among them.

ghost use Rattle.std.specs.Prelude.{◌≡◌, IfOk, OnOk, flat_map, slice_get};
ghost use Rattle.ecd_cast.specs.Kinds.{broken_by, broken_as, args_fit, asked, kind_in};
ghost use Rattle.ecd_cast.specs.Validity.{source_broken};
ghost use Rattle.ecd_cjudge.specs.Faults.{Finds, place_as};
ghost use Rattle.ecd_cscope.specs.Surroundings.{Surrounds, structs_before, around_as, called_broken, takes_at, params_in};
ghost use Rattle.ecd_cscope.specs.Variables.{kind_as};

use crate::judge_expr::{Scene, judge_expr};
use crate::spot::{Spot, note, unless};
use ecd_cast::tree::{Expr, Param, Source};
use ecd_cscope::directory::Found;
use ecd_cscope::kind::Kind;
use ecd_first::First;
use ecd_list::{MOST_LEVELS, OutOfMemory};

/// An expression where a kind is asked for.
pub(crate) fn judge_as<'a>(
    scene: &Scene<'_, 'a>,
    first: &mut First<Spot>,
    asked: Kind<'a>,
    expr: &Expr,
) -> Result<(), OutOfMemory>
    requires { Surrounds scene.now.around.now }
    ensures { OnOk result (Finds first.old first.new (place_as scene.now.spot) (broken_as (kind_as asked.entry) (structs_before scene.now.around.now) scene.now.known.now expr.now)) }
{
    let kind = judge_expr(scene, first, expr, MOST_LEVELS)?;
    unless(first, asked.takes(kind), scene.spot, 2);
    Ok(())
}

/// A variable that has to be of a kind.
pub(crate) fn judge_asked(scene: &Scene, first: &mut First<Spot>, kind: Kind, name: &[u8])
    ensures { Finds first.old first.new (place_as scene.now.spot) (asked (kind_as kind.entry) (kind_in scene.now.known.now name.now)) }
{
    match scene.known.kind_of(name) {
        Some(got) => unless(first, kind.takes(got), scene.spot, 2),
        None => note(first, scene.spot, 1),
    }
}

/// Whether the parameter of a number takes an argument of a kind.
fn param_takes(params: &[Param], number: usize, kind: Kind) -> bool
    ensures { result ≡ takes_at (slice_get params.now number) (kind_as kind.entry) }
{
    match params.get(number) {
        Some(param) => Kind::of_param(&param.kind).takes(kind),
        None => false,
    }
}

/// The arguments of a call, and whether they match the parameters in number and kind.
fn judge_args(
    scene: &Scene,
    first: &mut First<Spot>,
    params: &[Param],
    args: &[Expr],
) -> Result<bool, OutOfMemory>
    requires { Surrounds scene.now.around.now }
    ensures faults { OnOk result (Finds first.old first.new (place_as scene.now.spot) (flat_map (broken_by (structs_before scene.now.around.now) scene.now.known.now) args.now)) }
    ensures fit { IfOk result (λ b. b ≡ args_fit (structs_before scene.now.around.now) scene.now.known.now params.now args.now) }
{
    let mut fit = true;
    for (number, arg) in args.iter().enumerate() {
        let kind = judge_expr(scene, first, arg, MOST_LEVELS)?;
        let takes = param_takes(params, number, kind);
        fit = fit & takes;
    }
    Ok(fit & (params.len() <= args.len()))
}

/// The parameters of the function that is called.
fn params_of<'a>(found: Option<Found<'a>>) -> &'a [Param]
    ensures { result.now ≡ params_in found.entry }
{
    match found {
        Some(found) => found.function.params.as_slice(),
        None => &[],
    }
}

/// The function that is called.
fn judge_called(first: &mut First<Spot>, spot: Spot, found: Option<Found>, fit: bool)
    ensures { Finds first.old first.new (place_as spot) (called_broken found.entry fit) }
{
    match found {
        Some(found) => {
            unless(first, fit, spot, 2);
            unless(first, found.is_earlier, spot, 3);
        }
        None => note(first, spot, 1),
    }
}

/// Where a number, or what the kind asks for, comes from.
pub(crate) fn judge_source<'a>(
    scene: &Scene<'_, 'a>,
    first: &mut First<Spot>,
    asked: Kind<'a>,
    from: &Source,
) -> Result<(), OutOfMemory>
    requires { Surrounds scene.now.around.now }
    ensures { OnOk result (Finds first.old first.new (place_as scene.now.spot) (source_broken (around_as scene.now.around.now scene.now.loops.now) scene.now.known.now (kind_as asked.entry) from.now)) }
{
    match from {
        Source::Value(value) => judge_as(scene, first, asked, value),
        Source::Call { name, args } => {
            let found = scene.around.function(name.as_slice());
            let fit = judge_args(scene, first, params_of(found), args.as_slice())?;
            judge_called(first, scene.spot, found, fit);
            unless(first, asked.takes(Kind::Number), scene.spot, 2);
            Ok(())
        }
    }
}
