//! Which pairs of a map its fields take, in which table's list each other one stands, how many pairs there are, and which maps have values: what readers and
//! writers of maps rest on (RFC 8610, section 3.5). Items that have values are valid.
#![tactic(auto)]

pub mod laws;
