//! Reading rules (RFC 8610, section 3.1).

ghost use Rattle.std.specs.Prelude.{◌≡◌, ◌<◌, ◌≤◌, length, drop, IfOk};
ghost use Rattle.ecd_syntax.specs.Marks.{marks, name_of, assign_of};
ghost use Rattle.ecd_syntax.specs.Reading.{choice_at, token, angled, more_listed, assigned, rule_at, rules_at, more_rules};
ghost use Rattle.ecd_lex.specs.declared.token.Sign.TheVariants.{Comma};
ghost use Rattle.ecd_parse.specs.Reads.{Gives, GivesAll};

use crate::cursor::{Halt, assign_at, expect_name, expect_sign, place_at, sign_at};
use crate::read::{read_entry, read_type};
use ecd_lex::{Sign, Token};
use ecd_list::List;
use ecd_syntax::{Assign, Entry, Key, Name, NameList, Rule, RuleList};
use std::alloc::Global;

/// The parameters behind the first.
fn read_more_params(
    alloc: Global,
    tokens: &[Token],
    at: usize,
    first: Name,
) -> Result<(NameList, usize), Halt>
    requires { at ≤ length tokens.now }
    ensures gives { Gives (marks tokens.now) result (more_listed Comma (token name_of) first (drop at (marks tokens.now))) }
    ensures within { IfOk result (λ x. x.1 ≤ length tokens.now) }
    ensures after { IfOk result (λ x. at ≤ x.1) }
{
    let mut params = List::new(alloc);
    params.push(first)?;
    let mut here = at;
    while let Some(next) = sign_at(tokens, here, Sign::Comma) {
        let (name, end) = expect_name(alloc, tokens, next)?;
        params.push(name)?;
        here = end;
    }
    Ok((params, here))
}

/// Generic parameters, or none.
#[tactic(auto, unfolding(ecd_syntax::specs::Reading::angled))]
fn read_params(alloc: Global, tokens: &[Token], at: usize) -> Result<(NameList, usize), Halt>
    requires { at ≤ length tokens.now }
    ensures gives { Gives (marks tokens.now) result (angled (token name_of) (drop at (marks tokens.now))) }
    ensures within { IfOk result (λ x. x.1 ≤ length tokens.now) }
    ensures after { IfOk result (λ x. at ≤ x.1) }
{
    let Some(behind) = sign_at(tokens, at, Sign::Less) else {
        return Ok((List::new(alloc), at));
    };
    let (first, behind) = expect_name(alloc, tokens, behind)?;
    let (params, behind) = read_more_params(alloc, tokens, behind, first)?;
    let end = expect_sign(tokens, behind, Sign::Greater)?;
    Ok((params, end))
}

/// What a rule assigns: a type alone behind `/=`, else an entry.
#[tactic(auto, unfolding(ecd_syntax::specs::Reading::assigned))]
fn read_assigned(
    alloc: Global,
    tokens: &[Token],
    at: usize,
    levels: u32,
    assign: Assign,
) -> Result<(Entry, usize), Halt>
    requires { at ≤ length tokens.now }
    ensures gives { Gives (marks tokens.now) result (assigned (choice_at levels) assign (drop at (marks tokens.now))) }
    ensures within { IfOk result (λ x. x.1 ≤ length tokens.now) }
    ensures after { IfOk result (λ x. at < x.1) }
{
    match assign {
        Assign::Define => read_entry(alloc, tokens, at, levels),
        Assign::GroupMore => read_entry(alloc, tokens, at, levels),
        Assign::TypeMore => {
            let place = place_at(tokens, at);
            let (body, end) = read_type(alloc, tokens, at, levels)?;
            let entry = Entry {
                at: place,
                occur: None,
                key: Key::Missing,
                body,
            };
            Ok((entry, end))
        }
    }
}

/// An assignment, which has to be the token of that number, and the number behind it.
fn expect_assign(tokens: &[Token], at: usize) -> Result<(Assign, usize), Halt>
    ensures gives { Gives (marks tokens.now) result (token assign_of (drop at (marks tokens.now))) }
    ensures within { IfOk result (λ x. (x.1 ≤ length tokens.now) × (at < x.1)) }
{
    match assign_at(tokens, at) {
        Some(found) => Ok(found),
        None => Err(Halt::Unexpected(at)),
    }
}

/// A rule.
#[tactic(auto, unfolding(ecd_syntax::specs::Reading::rule_at))]
fn read_rule(alloc: Global, tokens: &[Token], at: usize, levels: u32) -> Result<(Rule, usize), Halt>
    requires { at ≤ length tokens.now }
    ensures gives { Gives (marks tokens.now) result (rule_at (choice_at levels) (drop at (marks tokens.now))) }
    ensures within { IfOk result (λ x. x.1 ≤ length tokens.now) }
    ensures after { IfOk result (λ x. at < x.1) }
{
    let place = place_at(tokens, at);
    let (name, behind) = expect_name(alloc, tokens, at)?;
    let (params, behind) = read_params(alloc, tokens, behind)?;
    let (assign, behind) = expect_assign(tokens, behind)?;
    let (body, end) = read_assigned(alloc, tokens, behind, levels, assign)?;
    let rule = Rule {
        at: place,
        name,
        params,
        assign,
        body,
    };
    Ok((rule, end))
}

/// The rules behind the first, up to the end.
fn read_more_rules(
    alloc: Global,
    tokens: &[Token],
    at: usize,
    levels: u32,
    first: Rule,
) -> Result<RuleList, Halt>
    requires { at ≤ length tokens.now }
    ensures { GivesAll (marks tokens.now) result (more_rules (choice_at levels) first (drop at (marks tokens.now))) }
{
    let mut rules = List::new(alloc);
    rules.push(first)?;
    let mut here = at;
    while here < tokens.len() {
        let (rule, end) = read_rule(alloc, tokens, here, levels)?;
        rules.push(rule)?;
        here = end;
    }
    Ok(rules)
}

/// All rules: one or more, up to the end.
#[tactic(auto, unfolding(ecd_syntax::specs::Reading::rules_at))]
pub fn read_rules(alloc: Global, tokens: &[Token], levels: u32) -> Result<RuleList, Halt>
    ensures { GivesAll (marks tokens.now) result (rules_at (choice_at levels) (marks tokens.now)) }
{
    let (first, behind) = read_rule(alloc, tokens, 0, levels)?;
    read_more_rules(alloc, tokens, behind, levels, first)
}
