//! A rule that is judged, and what its names are.

ghost use Rattle.std.specs.Prelude.{◌≡◌, ◌↔◌, true, false};
ghost use Rattle.ecd_bodies.specs.Named.{is_parameter as parameter};
ghost use Rattle.ecd_bodies.specs.Kinds.{LeadsToGroup, IsGroup};
ghost use Rattle.ecd_bodies.specs.Reaching.{Uses};
ghost use Rattle.ecd_names.specs.Breaks.{IsUndefined, IsRecursive, arity_in, IsGroupIn, IsOtherKind};
ghost use Rattle.ecd_names.specs.Scenes.{IsScene, AreInOneComponent};

use crate::scope::Scope;
use ecd_bodies::RuleTable;
use ecd_prelude::socket::is_socket;
use ecd_syntax::Rule;
use ecd_uses::{Asked, Lead};

/// A rule of the text that is judged, with what it is judged by.
#[derive(Clone, Copy)]
pub(crate) struct Scene<'a> {
    pub(crate) table: &'a RuleTable,
    /// The number of each name's strongly connected component, under the number of its first rule.
    pub(crate) components: &'a [u32],
    pub(crate) rule: &'a Rule,
    pub(crate) scope: &'a Scope,
    /// The number of the prelude's rules, which stand before those of the text.
    pub(crate) prelude: usize,
    /// The rule's number in the text.
    pub(crate) index: usize,
}

impl<'a> Scene<'a> {
    /// Whether the name is a parameter of the rule.
    fn is_parameter(&self, name: &[u8]) -> bool
        requires { IsScene self.now }
        ensures { result ≡ parameter self.now.rule.now.params name.now }
    {
        self.scope.parameters.has(name)
    }

    /// N2: whether nothing defines the name.
    pub(crate) fn is_undefined(&self, name: &[u8]) -> bool
        requires { IsScene self.now }
        ensures { (result ≡ true) ↔ IsUndefined self.now.table.now self.now.rule.now name.now }
    {
        !self.is_parameter(name) && !is_socket(name) && !self.table.is_defined(name)
    }

    /// Whether both names have rules, and reach each other.
    fn are_in_one_component(&self, a: &[u8], b: &[u8]) -> bool
        requires { IsScene self.now }
        ensures { (result ≡ true) ↔ AreInOneComponent self.now.table.now self.now.components.now a.now b.now }
    {
        match self.table.first(a) {
            Some(first) => match self.table.first(b) {
                Some(second) => self.components[first as usize] == self.components[second as usize],
                None => false,
            },
            None => false,
        }
    }

    /// N3: whether the name, which the rule uses, reaches the rule's name.
    pub(crate) fn is_recursive(&self, name: &[u8]) -> bool
        requires scene { IsScene self.now }
        requires used { parameter self.now.rule.now.params name.now ≡ false → Uses self.now.table.now self.now.rule.now.name.text name.now }
        ensures { (result ≡ true) ↔ IsRecursive self.now.table.now self.now.rule.now name.now }
    {
        !self.is_parameter(name) && self.are_in_one_component(self.rule.name.text.as_slice(), name)
    }

    /// N4: the number of arguments that the name takes.
    pub(crate) fn arity(&self, name: &[u8]) -> usize
        requires { IsScene self.now }
        ensures { result ≡ arity_in self.now.table.now self.now.rule.now name.now }
    {
        if self.is_parameter(name) {
            0
        } else {
            self.table.arity(name)
        }
    }

    /// Whether the name is a group here.
    fn is_group(&self, name: &[u8]) -> bool
        requires { IsScene self.now }
        ensures { (result ≡ true) ↔ IsGroupIn self.now.table.now self.now.rule.now name.now }
    {
        !self.is_parameter(name) && self.table.is_group(name)
    }

    /// N5: whether the name is of another kind than is asked for.
    pub(crate) fn is_other_kind(&self, name: &[u8], asked: Asked) -> bool
        requires { IsScene self.now }
        ensures { (result ≡ true) ↔ IsOtherKind self.now.table.now self.now.rule.now name.now asked }
    {
        match asked {
            Asked::Anything => false,
            Asked::AType => self.is_group(name),
            Asked::AGroup => !self.is_group(name),
        }
    }

    /// Whether what has this lead is a group.
    pub(crate) fn leads_to_group(&self, lead: &Lead) -> bool
        requires { IsScene self.now }
        ensures { (result ≡ true) ↔ LeadsToGroup (IsGroup self.now.table.now) self.now.rule.now.params lead.now }
    {
        match lead {
            Lead::Group => true,
            Lead::Type => false,
            Lead::Named(name) => self.is_group(name.text.as_slice()),
        }
    }
}
