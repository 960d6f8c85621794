//! Texts from their parts, and files as they are read.

use ecd_cread::{CFault, MOST_BYTES, Valid, read_c};
use std::alloc::Global;
use std::test::Fail;

/// The first line of a file.
pub(crate) const FIRST: &str = "#include <stdint.h>\n";

/// The program of a text.
pub(crate) fn read(alloc: Global, text: &str) -> Result<Valid, CFault> {
    if text.len() > MOST_BYTES {
        return Err(CFault::OutOfMemory);
    }
    read_c(alloc, text.as_bytes())
}

/// The parts behind each other.
pub(crate) fn joined(alloc: Global, parts: &[&str]) -> Result<String, Fail> {
    let mut text = String::new(alloc);
    for part in parts {
        text.push_str(part)?;
    }
    Ok(text)
}

/// A file whose call depth is told so, with these items.
pub(crate) fn file(alloc: Global, depth: &str, items: &[&str]) -> Result<String, Fail> {
    let mut text = joined(alloc, &[FIRST, "enum { call_depth = ", depth, " };\n"])?;
    for item in items {
        text.push_str(item)?;
    }
    Ok(text)
}
