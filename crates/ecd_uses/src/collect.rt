//! The sites of a rule.

ghost use Rattle.std.specs.Prelude.{◌≡◌, ◌++◌, IfOk, OnOk};
ghost use Rattle.ecd_uses.specs.Sites.{asks_type as is_asked, are_several as several, type_asked as asked_by, parenthesis, sites_of, entry_sites, key_sites, type_sites, choice_sites, group_sites};
ghost use Rattle.ecd_uses.specs.Listed.{lead_in, operand_sites, choices_listed, way_listed, named_sites};

use crate::leading::{copied, group_lead, is_keyed};
use crate::site::{Asked, Site, SiteList};
use ecd_list::{MOST_LEVELS, OutOfMemory};
use ecd_syntax::{Alts, Assign, Entry, Form, GroupTree, Key, Name, Rule, Type1, Type2, WayTree};
use std::alloc::Global;

/// The sites of a rule, in the order of the text: each name that its body uses, with what is asked of its kind there, and each parenthesis where a type is
/// asked for (RFC 8610, sections 2.1, 2.2 and 3).
///
/// # Errors
///
/// `OutOfMemory` where a growth was refused, there are more than 2^32 - 1 sites, or choices of a type stand inside each other in more than `MOST_LEVELS` levels: the
/// stack is memory.
pub fn sites(alloc: Global, rule: &Rule) -> Result<SiteList, OutOfMemory>
    ensures { IfOk result (λ s. s ≡ sites_of rule.now) }
{
    let mut found = SiteList::new(alloc);
    let a_type = asks_type(rule.assign);
    add_entry(alloc, &mut found, &rule.body, a_type, MOST_LEVELS)?;
    Ok(found)
}

/// Whether the assignment asks for a type.
fn asks_type(assign: Assign) -> bool
    ensures { result ≡ is_asked assign }
{
    match assign {
        Assign::Define | Assign::GroupMore => false,
        Assign::TypeMore => true,
    }
}

/// Adds the sites of an entry, where a type is asked for or not.
#[cycle(collecting)]
fn add_entry(
    alloc: Global,
    found: &mut SiteList,
    entry: &Entry,
    a_type: bool,
    left: u32,
) -> Result<(), OutOfMemory>
    ensures { OnOk result (found.new ≡ found.old ++ entry_sites a_type entry.now) }
{
    let a_type = a_type || is_keyed(&entry.key);
    add_key(alloc, found, &entry.key, left)?;
    add_type(alloc, found, &entry.body, a_type, left)
}

#[cycle(collecting)]
fn add_key(alloc: Global, found: &mut SiteList, key: &Key, left: u32) -> Result<(), OutOfMemory>
    ensures { OnOk result (found.new ≡ found.old ++ key_sites key.now) }
{
    match key {
        Key::Arrow { of, .. } => add_choice(alloc, found, of, true, left),
        Key::Missing => Ok(()),
        Key::Word(_) => Ok(()),
        Key::Lit { .. } => Ok(()),
    }
}

#[cycle(collecting)]
fn add_type(
    alloc: Global,
    found: &mut SiteList,
    alts: &Alts,
    a_type: bool,
    left: u32,
) -> Result<(), OutOfMemory>
    ensures { OnOk result (found.new ≡ found.old ++ type_sites a_type alts.now) }
{
    let choices = alts.choices.as_slice();
    let a_type = a_type || are_several(choices);
    add_choices(alloc, found, choices, a_type, left)
}

/// Whether there are two or more.
fn are_several(choices: &[Type1]) -> bool
    ensures { result ≡ several choices.now }
{
    choices.len() > 1
}

/// Adds the sites of choices, or of generic arguments.
#[cycle(collecting)]
fn add_choices(
    alloc: Global,
    found: &mut SiteList,
    choices: &[Type1],
    a_type: bool,
    left: u32,
) -> Result<(), OutOfMemory>
    ensures { OnOk result (found.new ≡ found.old ++ choices_listed a_type choices.now) }
{
    for choice in choices {
        add_choice(alloc, found, choice, a_type, left)?;
    }
    Ok(())
}

#[cycle(collecting)]
fn add_choice(
    alloc: Global,
    found: &mut SiteList,
    choice: &Type1,
    a_type: bool,
    left: u32,
) -> Result<(), OutOfMemory>
    ensures { OnOk result (found.new ≡ found.old ++ choice_sites a_type choice.now) }
{
    if left == 0 {
        return Err(OutOfMemory);
    }
    match &choice.op {
        None => add_operand(alloc, found, &choice.left, a_type, left - 1),
        Some(operation) => {
            add_operand(alloc, found, &choice.left, true, left - 1)?;
            add_operand(alloc, found, &operation.right, true, left - 1)
        }
    }
}

#[cycle(collecting)]
fn add_operand(
    alloc: Global,
    found: &mut SiteList,
    operand: &Type2,
    a_type: bool,
    left: u32,
) -> Result<(), OutOfMemory>
    ensures { OnOk result (found.new ≡ found.old ++ operand_sites a_type operand.now) }
{
    match &operand.form {
        Form::Lit(_) => Ok(()),
        Form::Named { name, args } => {
            let asked = type_asked(a_type);
            add_named(alloc, found, name, args.as_slice(), asked, left)
        }
        Form::Paren(group) => {
            add_parenthesis(alloc, found, operand.at, group, a_type, left)?;
            add_group(alloc, found, group, left)
        }
        Form::MapOf(group) => add_group(alloc, found, group, left),
        Form::ArrayOf(group) => add_group(alloc, found, group, left),
        Form::Unwrap { name, args } => {
            add_named(alloc, found, name, args.as_slice(), Asked::AType, left)
        }
        Form::Enum(group) => add_group(alloc, found, group, left),
        Form::EnumName { name, args } => {
            add_named(alloc, found, name, args.as_slice(), Asked::AGroup, left)
        }
        Form::Tagged { body, .. } => add_type(alloc, found, body, true, left),
        Form::Hash { .. } => Ok(()),
    }
}

/// What is asked of a name where a type is asked for, or not.
fn type_asked(a_type: bool) -> Asked
    ensures { result ≡ asked_by a_type }
{
    if a_type {
        Asked::AType
    } else {
        Asked::Anything
    }
}

/// Adds the use of a name, and the sites of its generic arguments.
#[cycle(collecting)]
fn add_named(
    alloc: Global,
    found: &mut SiteList,
    name: &Name,
    args: &[Type1],
    asked: Asked,
    left: u32,
) -> Result<(), OutOfMemory>
    ensures { OnOk result (found.new ≡ found.old ++ named_sites asked name.now args.now) }
{
    let name = copied(alloc, name)?;
    found.push(Site::Use {
        name,
        args: args.len(),
        asked,
    })?;
    add_choices(alloc, found, args, true, left)
}

/// Adds a parenthesis where a type is asked for.
fn add_parenthesis(
    alloc: Global,
    found: &mut SiteList,
    at: u32,
    group: &GroupTree,
    a_type: bool,
    left: u32,
) -> Result<(), OutOfMemory>
    ensures { OnOk result (found.new ≡ found.old ++ parenthesis a_type at (lead_in group.now)) }
{
    if a_type {
        let lead = group_lead(alloc, group, left)?;
        found.push(Site::Parenthesis { at, lead })?;
    }
    Ok(())
}

#[cycle(collecting)]
fn add_group(
    alloc: Global,
    found: &mut SiteList,
    group: &GroupTree,
    left: u32,
) -> Result<(), OutOfMemory>
    ensures { OnOk result (found.new ≡ found.old ++ group_sites group.now) }
{
    for way in group.ways.as_slice() {
        add_way(alloc, found, way, left)?;
    }
    Ok(())
}

#[cycle(collecting)]
fn add_way(alloc: Global, found: &mut SiteList, way: &WayTree, left: u32) -> Result<(), OutOfMemory>
    ensures { OnOk result (found.new ≡ found.old ++ way_listed way.now) }
{
    for entry in way.entries.as_slice() {
        add_entry(alloc, found, entry, false, left)?;
    }
    Ok(())
}
