ghost use Rattle.std.specs.Prelude.{◌≡◌, false};
ghost use Rattle.ecd_lex.specs.Scan.{gap_len};
ghost use Rattle.ecd_lex.specs.Characters.{is_white};

use crate::character::is_blank;
use ecd_text::byte_at;

/// Whether a byte is white space, by the one behind it: a carriage return is where it stands before a line feed.
#[tactic(auto, unfolding(crate::specs::Characters::is_white))]
fn is_white(byte: u8, next: u8) -> bool
    ensures { result ≡ is_white byte next }
{
    is_blank(byte) || byte == b'\r' && next == b'\n'
}

/// How many bytes of white space and comments a text begins with.
pub fn gap_len(text: &[u8]) -> usize
    ensures { result ≡ gap_len false text.now }
{
    let mut comment = false;
    for (at, byte) in text.iter().enumerate() {
        if comment {
            comment = *byte != b'\n';
        } else if *byte == b';' {
            comment = true;
        } else if !is_white(*byte, byte_at(text, at + 1)) {
            return at;
        }
    }
    text.len()
}
