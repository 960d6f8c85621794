//! Rows of the command line: its words, the files and the lines of every status, and the files and sinks of the outside.
#![tactic(auto)]

#[cfg(test)]
mod c_files;
#[cfg(test)]
mod calls;
#[cfg(test)]
mod faults;
#[cfg(test)]
mod limits;
#[cfg(test)]
mod outside;
#[cfg(test)]
mod schemas;
