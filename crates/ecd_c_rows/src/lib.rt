//! Rows of the C subset: its rules, its programs as they run, and its texts as they are read.
#![tactic(auto)]

#[cfg(test)]
mod eval_tests;
#[cfg(test)]
mod levels_tests;
#[cfg(test)]
mod machine_tests;
#[cfg(test)]
mod read_tests;
#[cfg(test)]
mod rules_tests;
#[cfg(test)]
mod texts;
