//! Laws of leads and sites: the definitions case by case, over the lists that a tree holds.

ghost use Rattle.ecd_uses.specs.Laws.{EntryLead, TypeLead, ChoiceLead, GroupLead, NamedLead, ParenthesisLead, OtherLeads, EntrySites, KeySites, TypeSites, ChoiceSites, ValueSites, NamedSites, ParenthesisSites, MapSites, ArraySites, UnwrapSites, EnumSites, EnumNameSites, TagSites, HashSites, GroupSites};
ghost use Rattle.ecd_uses.specs.Places.{RulesStandInside};

/// The names, parameters and sites of rules stand inside the text that their tokens come from.
pub fn rules_stand_inside()
    ensures { RulesStandInside }
{}

/// What decides the kind of an entry (RFC 8610, sections 2.1 and 2.2), case by case.
pub fn leads_over_lists()
    ensures entry { EntryLead }
    ensures alts { TypeLead }
    ensures choice { ChoiceLead }
    ensures group { GroupLead }
    ensures named { NamedLead }
    ensures parenthesis { ParenthesisLead }
    ensures others { OtherLeads }
{}

/// The sites of an entry and of its parts (RFC 8610, sections 2.1, 2.2 and 3), case by case.
pub fn sites_over_lists()
    ensures entry { EntrySites }
    ensures key { KeySites }
    ensures alts { TypeSites }
    ensures choice { ChoiceSites }
    ensures group { GroupSites }
{}

/// The sites of each form of an operand.
pub fn sites_of_forms()
    ensures value { ValueSites }
    ensures named { NamedSites }
    ensures parenthesis { ParenthesisSites }
    ensures map { MapSites }
    ensures array { ArraySites }
    ensures unwrap { UnwrapSites }
    ensures enumeration { EnumSites }
    ensures enumerated_name { EnumNameSites }
    ensures tag { TagSites }
    ensures hash { HashSites }
{}
