//! What a program asks of the outside: files by name, and sinks for bytes.
//!
//! `Files` and `Sink` say what a call may do and when it may fail. Each keeps a count of faults, so that
//! a program above can be held to its answers: a fault is reported only where a count rose.
//! `MemoryFiles` and `MemorySink` hold all in memory; `StdFiles` and `StdSink` are the system.
#![tactic(auto)]

mod memory_files;
mod memory_sink;
mod plan;
mod stored;
mod system;
mod traits;
mod whole;

pub use memory_files::MemoryFiles;
pub use memory_sink::MemorySink;
pub use plan::CallPlan;
pub use stored::{CallList, FileList, StoredFile};
pub use system::{StdFiles, StdSink};
pub use traits::{Failed, Files, Sink};
pub use whole::{ReadRefusal, put_all, read_file};
