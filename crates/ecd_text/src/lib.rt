//! Bytes of a text by their places, without a place that is out of range: what the readers of schemas and of C texts share.
#![tactic(auto)]

ghost use Rattle.std.specs.Prelude.{◌≡◌, drop, take};
ghost use Rattle.ecd_text.specs.Bytes.{byte_at};

/// The byte at a place, or 0 behind the end.
pub fn byte_at(text: &[u8], at: usize) -> u8
    ensures { result ≡ byte_at text.now at }
{
    text.get(at).copied().unwrap_or(0)
}

/// What stands behind so many bytes: nothing where there are fewer.
pub fn behind(text: &[u8], count: usize) -> &[u8]
    ensures { result.now ≡ drop count text.now }
{
    &text[count.min(text.len())..]
}

/// The first so many bytes: all where there are fewer.
pub fn front(text: &[u8], count: usize) -> &[u8]
    ensures { result.now ≡ take count text.now }
{
    &text[..count.min(text.len())]
}
