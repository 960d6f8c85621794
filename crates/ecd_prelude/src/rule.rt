//! The rule of a row, with 0 for each place.

ghost use Rattle.std.specs.Prelude.{◌≡◌, [], ◌∷◌, codes, IfOk};
ghost use Rattle.ecd_syntax.specs.declared.tree.Form.TheVariants as forms;
ghost use Rattle.ecd_prelude.specs.Prelude as spec;
ghost use Rattle.ecd_prelude.specs.Rows.{body_of as body_in};

use crate::row::Body;
use ecd_list::{ByteList, List, OutOfMemory};
use ecd_syntax::{
    Alts, Assign, Bound, Entry, Form, GroupTree, Key, Name, Rule, Type1, Type2, WayTree,
};
use std::alloc::Global;

/// A list of one.
fn one<T: Drop>(alloc: Global, only: T) -> Result<List<T>, OutOfMemory>
    ensures { IfOk result (λ l. l ≡ only ∷ []) }
{
    let mut list = List::new(alloc);
    list.push(only)?;
    Ok(list)
}

fn name_of(alloc: Global, text: &[u8]) -> Result<Name, OutOfMemory>
    ensures { IfOk result (λ name. name ≡ spec.name_of text.now) }
{
    Ok(Name {
        at: 0,
        text: ByteList::from_slice(alloc, text)?,
    })
}

/// A name without arguments.
fn named(alloc: Global, name: &[u8]) -> Result<Form, OutOfMemory>
    ensures { IfOk result (λ form. form ≡ spec.named name.now) }
{
    Ok(Form::Named {
        name: name_of(alloc, name)?,
        args: List::new(alloc),
    })
}

fn choice(form: Form) -> Type1
    ensures { result ≡ spec.choice form }
{
    Type1 {
        at: 0,
        left: Type2 { at: 0, form },
        op: None,
    }
}

/// A type of one choice.
fn only(alloc: Global, form: Form) -> Result<Alts, OutOfMemory>
    ensures { IfOk result (λ body. body ≡ spec.only form) }
{
    Ok(Alts {
        at: 0,
        choices: one(alloc, choice(form))?,
    })
}

/// `#MAJOR` or `#MAJOR.NUMBER`, or `#`
fn hash(alloc: Global, major: Option<u8>, arg: Bound) -> Result<Alts, OutOfMemory>
    ensures { IfOk result (λ body. body ≡ spec.only (forms.Hash major arg)) }
{
    only(alloc, Form::Hash { major, arg })
}

/// `first / second`
fn either(alloc: Global, first: &[u8], second: &[u8]) -> Result<Alts, OutOfMemory>
    ensures { IfOk result (λ body. body ≡ spec.either first.now second.now) }
{
    let mut choices = one(alloc, choice(named(alloc, first)?))?;
    choices.push(choice(named(alloc, second)?))?;
    Ok(Alts { at: 0, choices })
}

/// `#6.NUMBER(name)`
fn tag(alloc: Global, number: u64, name: &[u8]) -> Result<Form, OutOfMemory>
    ensures { IfOk result (λ form. form ≡ spec.tag number name.now) }
{
    Ok(Form::Tagged {
        number: Bound::Is(number),
        body: only(alloc, named(alloc, name)?)?,
    })
}

/// `word: name`
fn member(alloc: Global, word: &[u8], name: &[u8]) -> Result<Entry, OutOfMemory>
    ensures { IfOk result (λ entry. entry ≡ spec.member word.now name.now) }
{
    Ok(Entry {
        at: 0,
        occur: None,
        key: Key::Word(name_of(alloc, word)?),
        body: only(alloc, named(alloc, name)?)?,
    })
}

/// `#6.NUMBER([first, second])`
fn tagged_pair(alloc: Global, number: u64, first: Entry, second: Entry) -> Result<Form, OutOfMemory>
    ensures { IfOk result (λ form. form ≡ spec.tagged_pair number first second) }
{
    let mut entries = one(alloc, first)?;
    entries.push(second)?;
    let ways = one(alloc, WayTree { at: 0, entries })?;
    Ok(Form::Tagged {
        number: Bound::Is(number),
        body: only(alloc, Form::ArrayOf(GroupTree { at: 0, ways }))?,
    })
}

/// `#6.NUMBER([word: int, m: integer])`
fn fraction(alloc: Global, number: u64, word: &[u8]) -> Result<Form, OutOfMemory>
    ensures { IfOk result (λ form. form ≡ spec.tagged_pair number (spec.member word.now (codes "int")) (spec.member (codes "m") (codes "integer"))) }
{
    let exponent = member(alloc, word, b"int")?;
    let mantissa = member(alloc, b"m", b"integer")?;
    let pair = tagged_pair(alloc, number, exponent, mantissa)?;
    Ok(pair)
}

fn body_of(alloc: Global, body: Body) -> Result<Alts, OutOfMemory>
    ensures { IfOk result (λ alts. alts ≡ body_in body) }
{
    match body {
        Body::Any => hash(alloc, None, Bound::Missing),
        Body::Major(number) => hash(alloc, Some(number), Bound::Missing),
        Body::Simple(number) => hash(alloc, Some(7), Bound::Is(number)),
        Body::Name(name) => only(alloc, named(alloc, name)?),
        Body::Either(first, second) => either(alloc, first, second),
        Body::Tag(number, name) => only(alloc, tag(alloc, number, name)?),
        Body::Fraction(number, word) => only(alloc, fraction(alloc, number, word)?),
    }
}

/// `name = body`
pub(crate) fn rule_of(alloc: Global, name: &[u8], body: Body) -> Result<Rule, OutOfMemory>
    ensures { IfOk result (λ rule. rule ≡ spec.defines name.now (body_in body)) }
{
    let entry = Entry {
        at: 0,
        occur: None,
        key: Key::Missing,
        body: body_of(alloc, body)?,
    };
    Ok(Rule {
        at: 0,
        name: name_of(alloc, name)?,
        params: List::new(alloc),
        assign: Assign::Define,
        body: entry,
    })
}
