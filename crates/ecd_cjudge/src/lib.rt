//! Programs of the C subset are judged by its rules.
#![tactic(auto)]

mod judge_end;
mod judge_expr;
mod judge_item;
mod judge_names;
mod judge_source;
mod judge_stmt;
mod spot;
pub mod validate;
