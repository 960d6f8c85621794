//! The numbers of the rules of each name.

ghost use Rattle.std.specs.Prelude.{◌≡◌, ◌+◌, ◌-◌, ◌++◌, ◌<◌, ◌^◌, ℕ, List as ListOf, IfOk, OnOk, length, slice_get};
ghost use Rattle.ecd_bodies.specs.Numbers.{numbers_in, first_in, with_number, numbers_from, IsNumbered};

use ecd_list::{List, OutOfMemory};
use ecd_syntax::Rule;
use indexmap::IndexMap;
use std::alloc::Global;

/// Numbers of rules, in order.
pub(crate) type NumberList = List<u32>;

/// For each name the numbers of its rules.
pub(crate) type NumberMap = IndexMap<Vec<u8>, NumberList>;

/// The numbers of a name.
pub(crate) fn numbers_at<'a>(map: &'a NumberMap, name: &[u8]) -> &'a [u32]
    ensures { result.now ≡ numbers_in map.now.entries name.now }
{
    match map.get(name) {
        Some(numbers) => numbers.as_slice(),
        None => &[],
    }
}

/// The number of a name at an index.
pub(crate) fn number_at(map: &NumberMap, name: &[u8], index: u32) -> Option<u32>
    ensures { result ≡ slice_get (numbers_in map.now.entries name.now) index }
{
    numbers_at(map, name).get(index as usize).copied()
}

/// The first number of a name.
pub(crate) fn first_number(map: &NumberMap, name: &[u8]) -> Option<u32>
    ensures { result ≡ first_in map.now.entries name.now }
{
    number_at(map, name, 0)
}

/// The last number of a name.
pub(crate) fn last_number(map: &NumberMap, name: &[u8]) -> Option<u32>
    ensures { let numbers = numbers_in map.now.entries name.now in result ≡ slice_get numbers (length numbers - 1) }
{
    numbers_at(map, name).last().copied()
}

/// Adds a number to those of a name.
fn add_number(
    alloc: Global,
    map: &mut NumberMap,
    name: &[u8],
    number: u32,
) -> Result<(), OutOfMemory>
    ensures { OnOk result ((other : ListOf ℕ) → numbers_in map.new.entries other ≡ with_number (numbers_in map.old.entries other) other name.now number) }
{
    match map.get_mut(name) {
        Some(numbers) => {
            numbers.push(number)?;
            Ok(())
        }
        None => {
            let mut numbers = List::new(alloc);
            numbers.push(number)?;
            map.insert(Vec::from_slice(alloc, name)?, numbers)?;
            Ok(())
        }
    }
}

/// Adds the numbers of rules, the first of which has this number, and answers the number behind them.
fn add_rules(
    alloc: Global,
    map: &mut NumberMap,
    rules: &[Rule],
    first: u32,
) -> Result<u32, OutOfMemory>
    ensures numbers { OnOk result ((name : ListOf ℕ) → numbers_in map.new.entries name ≡ numbers_in map.old.entries name ++ numbers_from first rules.now name) }
    ensures behind { IfOk result (λ n. n ≡ first + length rules.now) }
{
    let mut number = first;
    for rule in rules {
        add_number(alloc, map, rule.name.text.as_slice(), number)?;
        number = number.checked_add(1).ok_or(OutOfMemory)?;
    }
    Ok(number)
}

/// The numbers of rules and of those behind them, and how many these are.
pub(crate) fn number_rules(
    alloc: Global,
    prelude: &[Rule],
    text: &[Rule],
) -> Result<(NumberMap, u32), OutOfMemory>
    ensures numbered { IfOk result (λ r. IsNumbered r.0.entries (prelude.now ++ text.now)) }
    ensures counted { IfOk result (λ r. r.1 ≡ length (prelude.now ++ text.now)) }
    ensures few { OnOk result (length (prelude.now ++ text.now) < 2 ^ 32) }
{
    let mut map = IndexMap::new(alloc);
    let before = add_rules(alloc, &mut map, prelude, 0)?;
    let count = add_rules(alloc, &mut map, text, before)?;
    Ok((map, count))
}
