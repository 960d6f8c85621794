//! The emitted functions, run over bytes by the evaluator, against the readers of heads and items.
#![tactic(auto)]

#[cfg(test)]
mod byte_rows;
#[cfg(test)]
mod depth_rows;
#[cfg(test)]
mod extent_rows;
#[cfg(test)]
mod head_rows;
