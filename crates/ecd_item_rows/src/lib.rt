//! Sample rows of lists, heads, keys, sums and items.
#![tactic(auto)]

#[cfg(test)]
mod heads;
#[cfg(test)]
mod items;
#[cfg(test)]
mod keys;
#[cfg(test)]
mod lists;
#[cfg(test)]
mod sums;
