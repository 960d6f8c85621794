//! What the kind of an entry or a name depends on in a schema (RFC 8610, sections 2.1 and 2.2), and where a rule uses names.
#![tactic(auto)]

mod collect;
pub mod laws;
mod leading;
mod site;

pub use collect::sites;
pub use ecd_list::{List, OutOfMemory};
pub use ecd_syntax::{Entry, Name, Rule};
pub use leading::lead;
pub use site::{Asked, Lead, Site, SiteList};
