//! Rows of the compiler: schemas that are compiled or refused, compiled readers on bytes, and tables of such cases.
#![tactic(auto)]

#[cfg(test)]
mod readers;
#[cfg(test)]
mod schemas;
