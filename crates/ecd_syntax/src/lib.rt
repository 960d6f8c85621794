//! The syntax of a CDDL schema (RFC 8610, Appendix B, in the profile of docs/SCHEMA.md): its tree, and which tokens spell it.
#![tactic(auto)]

pub mod laws;
mod tree;

pub use ecd_lex::{Bound, ByteList, Sign, Token, TokenKind, TokenList};
pub use tree::{
    Alts, Assign, Entry, EntryList, Form, GroupTree, Key, Literal, Name, NameList, Occur, OpKind,
    Operation, Rule, RuleList, Tree, Type1, Type1List, Type2, WayTree, WayTreeList,
};
