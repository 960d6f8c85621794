//! The shapes of the items with which parts may begin, and of those that may follow a part.

ghost use Rattle.std.specs.Prelude.{◌≡◌, ◌++◌, IfOk, OnOk};
ghost use Rattle.ecd_shape_rules.specs.Starts.{part_starts};
ghost use Rattle.ecd_shape_rules.specs.Listed.{starts_of, ways_start, follow_of, follow_body_of};
ghost use Rattle.ecd_starts.specs.Kinds.{kinds_of};

use crate::emptiable::{are_emptiable, is_emptiable};
use ecd_core::{Part, Shape, Way};
use ecd_list::OutOfMemory;
use std::alloc::Global;

/// Puts the starts of parts last.
#[cycle(starts)]
fn push_starts<'a>(starts: &mut Vec<&'a Shape>, parts: &'a [Part]) -> Result<(), OutOfMemory>
    ensures { OnOk result (kinds_of starts.new.items ≡ kinds_of starts.old.items ++ starts_of parts.now) }
{
    for part in parts {
        push_part(starts, part)?;
        if !is_emptiable(part) {
            return Ok(());
        }
    }
    Ok(())
}

/// Puts the starts of a part last.
#[cycle(starts)]
fn push_part<'a>(starts: &mut Vec<&'a Shape>, part: &'a Part) -> Result<(), OutOfMemory>
    ensures { OnOk result (kinds_of starts.new.items ≡ kinds_of starts.old.items ++ part_starts part.now) }
{
    match part {
        Part::One(shape) => {
            starts.push(shape)?;
            Ok(())
        }
        Part::Opt { body, .. } => {
            push_starts(starts, body.parts.as_slice())?;
            Ok(())
        }
        Part::Many { body, .. } => {
            push_starts(starts, body.parts.as_slice())?;
            Ok(())
        }
        Part::Alt { ways, .. } => {
            push_ways(starts, ways.as_slice())?;
            Ok(())
        }
    }
}

/// Puts the starts of all ways last.
#[cycle(starts)]
fn push_ways<'a>(starts: &mut Vec<&'a Shape>, ways: &'a [Way]) -> Result<(), OutOfMemory>
    ensures { OnOk result (kinds_of starts.new.items ≡ kinds_of starts.old.items ++ ways_start ways.now) }
{
    for way in ways {
        push_starts(starts, way.body.parts.as_slice())?;
    }
    Ok(())
}

/// Puts shapes last.
fn push_all<'a>(shapes: &mut Vec<&'a Shape>, more: &[&'a Shape]) -> Result<(), OutOfMemory>
    ensures { OnOk result (kinds_of shapes.new.items ≡ kinds_of shapes.old.items ++ kinds_of more.now) }
{
    for shape in more {
        shapes.push(*shape)?;
    }
    Ok(())
}

/// The starts of parts: the shapes of the items with which they may begin.
///
/// # Errors
///
/// `OutOfMemory` where memory is wanting.
pub fn starts_of<'a>(alloc: Global, parts: &'a [Part]) -> Result<Vec<&'a Shape>, OutOfMemory>
    ensures { IfOk result (λ starts. kinds_of starts.items ≡ starts_of parts.now) }
{
    let mut starts = Vec::new(alloc);
    push_starts(&mut starts, parts)?;
    Ok(starts)
}

/// What may follow a part: the starts of the parts behind it and, where these may be empty, what follows its group.
///
/// # Errors
///
/// `OutOfMemory` where memory is wanting.
pub fn follow<'a>(
    alloc: Global,
    parts: &'a [Part],
    after: &[&'a Shape],
) -> Result<Vec<&'a Shape>, OutOfMemory>
    ensures { IfOk result (λ shapes. kinds_of shapes.items ≡ follow_of parts.now (kinds_of after.now)) }
{
    let mut shapes = starts_of(alloc, parts)?;
    if are_emptiable(parts) {
        push_all(&mut shapes, after)?;
    }
    Ok(shapes)
}

/// What may follow one body of a repetition: another body, where there may be more than one, and what follows the part.
///
/// # Errors
///
/// `OutOfMemory` where memory is wanting.
pub fn follow_body<'a>(
    alloc: Global,
    hi: u64,
    parts: &'a [Part],
    after: &[&'a Shape],
) -> Result<Vec<&'a Shape>, OutOfMemory>
    ensures { IfOk result (λ shapes. kinds_of shapes.items ≡ follow_body_of hi parts.now (kinds_of after.now)) }
{
    let mut shapes = Vec::new(alloc);
    if hi > 1 {
        push_starts(&mut shapes, parts)?;
    }
    push_all(&mut shapes, after)?;
    Ok(shapes)
}
