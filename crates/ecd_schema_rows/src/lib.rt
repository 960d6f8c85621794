//! Rows of schemas: lexemes, trees, uses of names, the prelude, bodies, names, and the graphs that names are judged by.
#![tactic(auto)]

#[cfg(test)]
mod bodies;
#[cfg(test)]
mod grammar;
#[cfg(test)]
mod graphs;
#[cfg(test)]
mod lexemes;
#[cfg(test)]
mod names;
#[cfg(test)]
mod prelude;
#[cfg(test)]
mod uses;
