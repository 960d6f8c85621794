//! Which arguments fit, and the structs of a program by their numbers.

ghost use Rattle.std.specs.Prelude.{◌≡◌, Some, None, slice_get, map, MatchOption};
ghost use Rattle.ecd_cast.specs.Validity.{structs_of};
ghost use Rattle.ecd_cast.specs.Fitting as fitting;
ghost use Rattle.ecd_ceval.specs.Blocks.{memory_of, kind_of};
ghost use Rattle.ecd_ceval.specs.Machines.{value_of_arg};

use crate::blocks::{Held, is_place};
use crate::machine::Arg;
use ecd_cast::tree::{CItem, Param, ParamKind, StructDecl};

/// The struct of a number, counted among the structs.
pub fn struct_at(items: &[CItem], number: u32) -> Option<&StructDecl>
    ensures { MatchOption result (slice_get (structs_of items.now) number ≡ None) (λ s. slice_get (structs_of items.now) number ≡ Some s.now) }
{
    let mut left = number;
    for item in items {
        if let CItem::Struct(declaration) = item {
            if left == 0 {
                return Some(declaration);
            }
            left -= 1;
        }
    }
    None
}

fn is_output(blocks: &[Held<'_>], block: u32) -> bool
    ensures { result ≡ fitting.is_output (slice_get (map kind_of blocks.now) block) }
{
    matches!(blocks.get(block as usize), Some(Held::Output(_)))
}

/// Whether a block has the cells of the struct of this name.
fn is_struct(items: &[CItem], blocks: &[Held<'_>], block: u32, name: &[u8]) -> bool
    ensures { result ≡ fitting.is_struct (structs_of items.now) (slice_get (map kind_of blocks.now) block) name.now }
{
    match blocks.get(block as usize) {
        Some(Held::Cells { number, .. }) => match struct_at(items, *number) {
            Some(declaration) => declaration.name.as_slice() == name,
            None => false,
        },
        _ => false,
    }
}

fn takes(items: &[CItem], blocks: &[Held<'_>], kind: &ParamKind, arg: Arg) -> bool
    ensures { result ≡ fitting.param_takes (structs_of items.now) (map kind_of blocks.now) (memory_of blocks.now) kind.now (value_of_arg arg) }
{
    match (kind, arg) {
        (ParamKind::Number, Arg::Number(_)) => true,
        (ParamKind::ReadPointer, Arg::Bytes { block, offset }) => is_place(blocks, block, offset),
        (ParamKind::WritePointer, Arg::Bytes { block, offset }) => {
            is_output(blocks, block) && is_place(blocks, block, offset)
        }
        (ParamKind::Struct(name), Arg::Struct { block }) => {
            is_struct(items, blocks, block, name.as_slice())
        }
        _ => false,
    }
}

/// Whether these are as many arguments as parameters, each of its parameter's kind.
fn take_all(items: &[CItem], blocks: &[Held<'_>], mut params: &[Param], mut args: &[Arg]) -> bool
    ensures { result ≡ fitting.params_take (structs_of items.now) (map kind_of blocks.now) (memory_of blocks.now) params.entry.now (map value_of_arg args.entry.now) }
{
    while let [param, others @ ..] = params {
        let [arg, more @ ..] = args else {
            return false;
        };
        if !takes(items, blocks, &param.kind, *arg) {
            return false;
        }
        params = others;
        args = more;
    }
    args.is_empty()
}

/// Whether the item of a number is a function that takes these arguments.
pub fn item_takes(items: &[CItem], blocks: &[Held<'_>], number: u32, args: &[Arg]) -> bool
    ensures { result ≡ fitting.item_takes (structs_of items.now) (map kind_of blocks.now) (memory_of blocks.now) (slice_get items.now number) (map value_of_arg args.now) }
{
    match items.get(number as usize) {
        Some(CItem::Function(function)) => {
            take_all(items, blocks, function.params.as_slice(), args)
        }
        _ => false,
    }
}
