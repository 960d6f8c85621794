//! Uses of names, and what decides a kind.

use ecd_list::List;
use ecd_syntax::Name;

/// What is asked of the kind of a name where it stands.
#[derive(Clone, Copy, PartialEq, Eq, Debug)]
pub enum Asked {
    /// It may be a type or a group.
    Anything,
    /// A type (RFC 8610, section 2.2).
    AType,
    /// A group: behind `&` (RFC 8610, section 2.2.2.2).
    AGroup,
}

/// What decides whether an entry is a type or a group (RFC 8610, sections 2.1 and 2.2).
#[derive(Drop)]
pub enum Lead {
    /// It is a group.
    Group,
    /// It is a type.
    Type,
    /// It is what this name is.
    Named(Name),
}

/// A place in a rule where the kind of something matters.
#[derive(Drop)]
pub enum Site {
    /// A name is used.
    Use {
        /// The name, with the place of this use.
        name: Name,
        /// The number of generic arguments (RFC 8610, section 3.10).
        args: usize,
        /// What is asked of its kind.
        asked: Asked,
    },
    /// A parenthesis stands where a type is asked for.
    Parenthesis {
        /// The place of the opening parenthesis.
        at: u32,
        /// What decides the kind of what it holds.
        lead: Lead,
    },
}

/// Such places, in the order of the text.
pub type SiteList = List<Site>;
