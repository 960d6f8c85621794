//! The table of rules.

ghost use Rattle.std.specs.Prelude.{◌≡◌, ◌↔◌, true, IfOk, length, slice_get};
ghost use Rattle.std.specs.Option.{option_copied};
ghost use Rattle.ecd_bodies.specs.Named.{all_rules, bodies_of, first_of, arity_of, IsDefined, is_in_text};
ghost use Rattle.ecd_bodies.specs.Kinds.{IsGroup};

use crate::kinds::group_marks;
use crate::numbers::{NumberMap, first_number, last_number, number_at, number_rules, numbers_at};
use ecd_list::OutOfMemory;
use ecd_prelude::socket::is_group_socket;
use ecd_prelude::{is_float_name, prelude};
use ecd_syntax::{Rule, RuleList, Tree};
use std::alloc::Global;
use std::marker::Model;

/// The rules of a schema and of the prelude (RFC 8610, Appendix D), under their names.
#[derive(Drop)]
pub struct RuleTable {
    prelude: RuleList,
    text: RuleList,
    /// For each name the numbers of its rules.
    numbers: NumberMap,
    /// For the number of each name's first rule whether the name is a group.
    groups: Vec<bool>,
}

impl Model for RuleTable {
    ghost use Rattle.std.specs.Prelude.{List};
    ghost use Rattle.std.specs.Coded.{coded_list};
    ghost use Rattle.ecd_syntax.specs.declared.tree.Rule.{Rule};
    ghost use Rattle.ecd_syntax.specs.contracts.tree.Rule as rule;
    ghost use Rattle.ecd_bodies.specs.Tables.{IsTable};

    ghost Value = { List Rule };

    ghost coded = { coded_list rule.the_row.coded };

    ghost view = { λ t. t.text };

    ghost invariant = { λ t. IsTable t.prelude t.text t.numbers.entries t.groups.items };
}

impl RuleTable {
    /// The table of a schema's rules.
    ///
    /// # Errors
    ///
    /// `OutOfMemory` where a growth was refused, there are more than 2^32 - 1 rules of the prelude and the text together, or more than `MOST_LEVELS` choices of a
    /// type stand each alone in the parenthesis of the one before.
    pub fn new(alloc: Global, tree: Tree) -> Result<RuleTable, OutOfMemory>
        ensures { IfOk result (λ t. t ≡ tree.rules) }
    {
        let prelude = prelude(alloc)?;
        let text = tree.rules;
        let (numbers, count) = number_rules(alloc, prelude.as_slice(), text.as_slice())?;
        let groups = group_marks(alloc, &numbers, count, prelude.as_slice(), text.as_slice())?;
        Ok(RuleTable {
            prelude,
            text,
            numbers,
            groups,
        })
    }

    /// The rules of the text, in order.
    pub fn text_rules(&self) -> &[Rule]
        ensures { result.now ≡ self.now }
    {
        self.text.as_slice()
    }

    /// The number of all rules: those of the prelude, and then those of the text.
    pub fn rule_count(&self) -> u32
        ensures { result ≡ length (all_rules self.now) }
    {
        (self.prelude.len() + self.text.len()) as u32
    }

    /// The rule of a number, in the order of `rule_count`.
    pub fn rule(&self, number: u32) -> Option<&Rule>
        ensures { option_copied result ≡ slice_get (all_rules self.now) number }
    {
        let number = number as usize;
        let before = self.prelude.len();
        if number < before {
            self.prelude.get(number)
        } else {
            self.text.get(number - before)
        }
    }

    /// The number of the first rule of a name. None exactly where there is none.
    pub fn first(&self, name: &[u8]) -> Option<u32>
        ensures { result ≡ first_of self.now name.now }
    {
        first_number(&self.numbers, name)
    }

    /// Whether the text or the prelude defines the name. The prelude's names of floats have no rule in it.
    pub fn is_defined(&self, name: &[u8]) -> bool
        ensures { (result ≡ true) ↔ IsDefined self.now name.now }
    {
        self.first(name).is_some() || is_float_name(name)
    }

    /// The number of parameters of a name (RFC 8610, section 3.10): those of its first rule, and 0 where it has none. The prelude's names of floats have none,
    /// whatever rules the text gives them.
    pub fn arity(&self, name: &[u8]) -> usize
        ensures { result ≡ arity_of self.now name.now }
    {
        if is_float_name(name) {
            return 0;
        }
        match self.body(name, 0) {
            Some(rule) => rule.params.len(),
            None => 0,
        }
    }

    /// Whether the name is a group (RFC 8610, sections 2.1, 2.2 and 3.9).
    pub fn is_group(&self, name: &[u8]) -> bool
        ensures { (result ≡ true) ↔ IsGroup self.now name.now }
    {
        match self.first(name) {
            Some(number) => self.groups[number as usize],
            None => is_group_socket(name),
        }
    }

    /// Whether a rule of the text has the name.
    pub fn is_in_text(&self, name: &[u8]) -> bool
        ensures { result ≡ is_in_text self.now name.now }
    {
        match last_number(&self.numbers, name) {
            Some(last) => last as usize >= self.prelude.len(),
            None => false,
        }
    }

    /// The number of bodies of a name.
    pub fn body_count(&self, name: &[u8]) -> u32
        ensures { result ≡ length (bodies_of self.now name.now) }
    {
        numbers_at(&self.numbers, name).len() as u32
    }

    /// The body of a name of that number, from 0, in the order of the text.
    pub fn body(&self, name: &[u8], index: u32) -> Option<&Rule>
        ensures { option_copied result ≡ slice_get (bodies_of self.now name.now) index }
    {
        let number = number_at(&self.numbers, name, index)?;
        self.rule(number)
    }
}
