//! What decides whether an entry is a type or a group.

ghost use Rattle.std.specs.Prelude.{◌≡◌, ◌≢◌, [], ◌∷◌, length, IfOk, MatchOption};
ghost use Rattle.ecd_uses.specs.Leads.{lead_of, only_or, type_lead as lead_of_type, choice_lead as lead_of_choice};
ghost use Rattle.ecd_uses.specs.Listed.{lead_in, operand_lead as lead_of_operand, way_listed_leads};
ghost use Rattle.ecd_uses.specs.Sites.{is_keyed as has_key};

use crate::site::Lead;
use ecd_list::{List, MOST_LEVELS, OutOfMemory};
use ecd_syntax::{Alts, Entry, Form, GroupTree, Key, Name, Type1, Type2, WayTree};
use std::alloc::Global;

/// What decides whether the entry is a type or a group (RFC 8610, sections 2.1 and 2.2).
///
/// # Errors
///
/// `OutOfMemory` where a growth was refused, or more than `MOST_LEVELS` choices of a type stand each alone in the parenthesis of the one before: the stack is memory.
pub fn lead(alloc: Global, entry: &Entry) -> Result<Lead, OutOfMemory>
    ensures { IfOk result (λ l. l ≡ lead_of entry.now) }
{
    entry_lead(alloc, entry, MOST_LEVELS)
}

/// A name of its own, with the same place and bytes.
pub(crate) fn copied(alloc: Global, name: &Name) -> Result<Name, OutOfMemory>
    ensures { IfOk result (λ n. n ≡ name.now) }
{
    let text = List::from_slice(alloc, name.text.as_slice())?;
    Ok(Name { at: name.at, text })
}

/// Whether there is a key.
pub(crate) fn is_keyed(key: &Key) -> bool
    ensures { result ≡ has_key key.now }
{
    match key {
        Key::Missing => false,
        Key::Arrow { .. } | Key::Word(_) | Key::Lit { .. } => true,
    }
}

/// The only element.
fn only<T>(items: &[T]) -> Option<&T>
    ensures { MatchOption result (length items.now ≢ 1) (λ one. items.now ≡ one.now ∷ []) }
{
    match items {
        [one] => Some(one),
        _ => None,
    }
}

#[cycle(leading)]
fn entry_lead(alloc: Global, entry: &Entry, left: u32) -> Result<Lead, OutOfMemory>
    ensures { IfOk result (λ l. l ≡ lead_of entry.now) }
{
    if entry.occur.is_some() || is_keyed(&entry.key) {
        return Ok(Lead::Group);
    }
    type_lead(alloc, &entry.body, left)
}

#[cycle(leading)]
fn type_lead(alloc: Global, alts: &Alts, left: u32) -> Result<Lead, OutOfMemory>
    ensures { IfOk result (λ l. l ≡ lead_of_type alts.now) }
{
    match only(alts.choices.as_slice()) {
        Some(choice) => choice_lead(alloc, choice, left),
        None => Ok(Lead::Type),
    }
}

#[cycle(leading)]
fn choice_lead(alloc: Global, choice: &Type1, left: u32) -> Result<Lead, OutOfMemory>
    ensures { IfOk result (λ l. l ≡ lead_of_choice choice.now) }
{
    if left == 0 {
        return Err(OutOfMemory);
    }
    match &choice.op {
        None => operand_lead(alloc, &choice.left, left - 1),
        Some(_) => Ok(Lead::Type),
    }
}

#[cycle(leading)]
fn operand_lead(alloc: Global, operand: &Type2, left: u32) -> Result<Lead, OutOfMemory>
    ensures { IfOk result (λ l. l ≡ lead_of_operand operand.now) }
{
    match &operand.form {
        Form::Named { name, .. } => Ok(Lead::Named(copied(alloc, name)?)),
        Form::Paren(group) => group_lead(alloc, group, left),
        Form::Lit(_) => Ok(Lead::Type),
        Form::MapOf(_) => Ok(Lead::Type),
        Form::ArrayOf(_) => Ok(Lead::Type),
        Form::Unwrap { .. } => Ok(Lead::Type),
        Form::Enum(_) => Ok(Lead::Type),
        Form::EnumName { .. } => Ok(Lead::Type),
        Form::Tagged { .. } => Ok(Lead::Type),
        Form::Hash { .. } => Ok(Lead::Type),
    }
}

/// What decides, of a parenthesis that holds the group: the only entry of the only way.
#[cycle(leading)]
pub(crate) fn group_lead(alloc: Global, group: &GroupTree, left: u32) -> Result<Lead, OutOfMemory>
    ensures { IfOk result (λ l. l ≡ lead_in group.now) }
{
    match only(group.ways.as_slice()) {
        Some(way) => way_lead(alloc, way, left),
        None => Ok(Lead::Group),
    }
}

#[cycle(leading)]
fn way_lead(alloc: Global, way: &WayTree, left: u32) -> Result<Lead, OutOfMemory>
    ensures { IfOk result (λ l. l ≡ only_or Lead.Group (way_listed_leads way.now)) }
{
    match only(way.entries.as_slice()) {
        Some(entry) => entry_lead(alloc, entry, left),
        None => Ok(Lead::Group),
    }
}
