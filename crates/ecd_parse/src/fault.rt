use thiserror::Error;

/// Why tokens are answered no tree.
#[derive(Clone, Copy, Debug, PartialEq, Eq, Error)]
pub enum ParseFault {
    /// The first token that no schema has behind those before it stands there, or the text ends there too early.
    #[error("unexpected token at byte {place}")]
    Unexpected {
        /// The place of its first byte, from 0; or the length of the text.
        place: u32,
    },
    /// The bracket that opens the 49th open bracket stands there.
    #[error("too many open brackets at byte {place}")]
    TooNested {
        /// The place of the bracket, from 0.
        place: u32,
    },
    /// Want of memory, the stack included.
    #[error("out of memory")]
    OutOfMemory,
}
