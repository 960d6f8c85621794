//! Names that break no rule.

ghost use Rattle.std.specs.Prelude.{◌≡◌, ◌⊎◌, ◌<◌, ℕ, Some, IfOk, IfErr, MatchResult, MatchOption, length, slice_get};
ghost use Rattle.ecd_bodies.specs.Named.{bodies_of, IsDefined, is_in_text};
ghost use Rattle.ecd_bodies.specs.Reaching.{IsRanked};
ghost use Rattle.ecd_names.specs.Breaks.{BreaksNone, IsFirst};
ghost use Rattle.ecd_names.specs.Names.{HasCause, IsInfo};

use crate::fault::NameFault;
use crate::info::NameInfo;
use crate::judge::first_broken;
use ecd_bodies::RuleTable;
use ecd_syntax::{Rule, Tree};
use std::alloc::Global;
use std::marker::Model;

/// The names of a schema that breaks none of N1 to N5, those of the prelude among them.
#[derive(Drop)]
pub struct Names {
    table: RuleTable,
}

impl Model for Names {
    ghost use Rattle.std.specs.Prelude.{List};
    ghost use Rattle.std.specs.Coded.{coded_list};
    ghost use Rattle.ecd_syntax.specs.declared.tree.Rule.{Rule};
    ghost use Rattle.ecd_syntax.specs.contracts.tree.Rule as rule;
    ghost use Rattle.ecd_names.specs.Names.{IsResolved};

    ghost Value = { List Rule };

    ghost coded = { coded_list rule.the_row.coded };

    ghost view = { λ n. n.table };

    ghost invariant = { λ n. IsResolved n.table };
}

impl Names {
    /// The rules of the text, in order. None of N1 to N5 is broken, and each body uses only names of lower rank.
    pub fn rules(&self) -> &[Rule]
        ensures same { result.now ≡ self.now }
        ensures none { BreaksNone self.now }
        ensures ranked { IsRanked self.now }
    {
        self.table.text_rules()
    }

    /// What a name is: whether it is a group, the number of its parameters, and that of its bodies. None exactly where neither the text nor the prelude
    /// defines the name. The prelude's names of floats are types without parameters and without a body. It takes no memory.
    pub fn lookup(&self, name: &str) -> Option<NameInfo>
        ensures { MatchOption result (IsDefined self.now name.now → ⊥) (λ info. IsInfo self.now name.now info) }
    {
        let name = name.as_bytes();
        if !self.table.is_defined(name) {
            return None;
        }
        Some(NameInfo {
            group: self.table.is_group(name),
            params: self.table.arity(name) as u32,
            bodies: self.table.body_count(name),
        })
    }

    /// The number of bodies of a name: 0 where it has none. It takes no memory.
    pub fn plugs(&self, name: &str) -> u32
        ensures { result ≡ length (bodies_of self.now name.now) }
    {
        self.table.body_count(name.as_bytes())
    }

    /// The rule that gives the body of that number, from 0, in the order of the text. The number is below `plugs`. It takes no memory.
    pub fn body(&self, name: &str, index: u32) -> &Rule
        requires { index < length (bodies_of self.now name.now) }
        ensures { slice_get (bodies_of self.now name.now) index ≡ Some result.now }
    {
        match self.table.body(name.as_bytes(), index) {
            Some(rule) => rule,
            None => unreachable!(),
        }
    }

    /// Whether a rule of the text has the name. It takes no memory.
    pub fn in_text(&self, name: &str) -> bool
        ensures { result ≡ is_in_text self.now name.now }
    {
        self.table.is_in_text(name.as_bytes())
    }
}

/// Resolves the names of a schema (RFC 8610, sections 2 and 3): every rule is judged by N1 to N5, used or not.
///
/// # Errors
///
/// `At` with the first broken rule: the least place, and there the least number. `OutOfMemory` where memory is wanting. These count as that: more than
/// 2^32 - 1 rules of the prelude and the text together, more than 2^32 - 1 parameters or sites of one rule, and choices of a type inside each other in more
/// than `MOST_LEVELS` levels.
pub fn resolve(alloc: Global, tree: Tree) -> Result<Names, NameFault>
    // Names that are taken are those of the tree.
    ensures same { IfOk result (λ names. names ≡ tree.rules) }
    ensures none { IfOk result (λ _. BreaksNone tree.rules) }
    ensures ranked { IfOk result (λ _. IsRanked tree.rules) }

    // A refusal has its cause, and each cause is answered.
    ensures refused { IfErr result (λ fault. HasCause tree.rules fault) }
    ensures only_refused { (place number : ℕ) → IsFirst tree.rules place number
        → MatchResult result (λ _. ⊥) (λ fault. (fault ≡ NameFault.At place number) ⊎ (fault ≡ NameFault.OutOfMemory)) }
{
    let table = RuleTable::new(alloc, tree)?;
    match first_broken(alloc, &table)? {
        None => Ok(Names { table }),
        Some(broken) => Err(NameFault::At {
            place: broken.place,
            rule: broken.rule,
        }),
    }
}
