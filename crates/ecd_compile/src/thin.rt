//! The schemas that are compiled so far: one rule with one small number.

ghost use Rattle.std.specs.Prelude.{◌↔◌, IsTrue};
ghost use Rattle.ecd_compile.specs.Thin.{IsSmall, IsLoneNumber, Defines, IsThin, IsFound};

use ecd_syntax::{Assign, Entry, Form, Key, Literal, Rule};

/// The integer of a literal, if it is from 0 to 23.
fn small_number(literal: &Literal) -> Option<u8>
    ensures { IsFound (IsSmall literal.now) result }
{
    match literal {
        Literal::Int(Some(value)) if 0 <= *value && *value < 24 => Some(*value as u8),
        _ => None,
    }
}

/// The number of an entry that is a small number and nothing else.
fn lone_number(entry: &Entry) -> Option<u8>
    ensures { IsFound (IsLoneNumber entry.now) result }
{
    if entry.occur.is_some() {
        return None;
    }
    let Key::Missing = &entry.key else {
        return None;
    };
    let [choice] = entry.body.choices.as_slice() else {
        return None;
    };
    if choice.op.is_some() {
        return None;
    }
    match &choice.left.form {
        Form::Lit(literal) => small_number(literal),
        _ => None,
    }
}

/// Whether the rule defines the root, a letter a to z, without parameters.
fn defines(rule: &Rule, root: &str) -> bool
    ensures { IsTrue result ↔ Defines rule.now root.now }
{
    let [letter] = root.as_bytes() else {
        return false;
    };
    letter.is_ascii_lowercase()
        && rule.name.text.as_slice() == root.as_bytes()
        && rule.params.is_empty()
        && rule.assign == Assign::Define
}

/// The number of a schema with the one rule `root = number`.
pub fn thin_number(rules: &[Rule], root: &str) -> Option<u8>
    ensures { IsFound (IsThin rules.now root.now) result }
{
    let [rule] = rules else {
        return None;
    };
    if !defines(rule, root) {
        return None;
    }
    lone_number(&rule.body)
}
