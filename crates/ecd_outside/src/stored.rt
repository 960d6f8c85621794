//! Files that are held in memory.

use ecd_list::{ByteList, List};

/// A file in memory: its name and its contents.
#[derive(Debug, Drop)]
pub struct StoredFile {
    pub name: ByteList,
    pub contents: ByteList,
}

/// Files in memory.
pub type FileList = List<StoredFile>;

/// The numbers of calls, counted from 0.
pub type CallList = List<u64>;
