ghost use Rattle.std.specs.Prelude.{◌≡◌, ◌≤◌, length};
ghost use Rattle.ecd_lex.specs.Scan.{name_rest};

use crate::character::{is_link, is_name_byte};

/// How far a name goes on.
pub fn name_rest(text: &[u8]) -> usize
    ensures value { result ≡ name_rest text.now }
    ensures within { result ≤ length text.now }
{
    let mut len = 0;
    for (at, byte) in text.iter().enumerate() {
        if is_name_byte(*byte) {
            len = at + 1;
        } else if !is_link(*byte) {
            return len;
        }
    }
    len
}
