ghost use Rattle.std.specs.Prelude.{◌≡◌, ◌≤◌, ◌<◌, length};
ghost use Rattle.ecd_lex.specs.Places.{line_of, column_of};

/// The most bytes that a schema's text has.
pub const MOST_BYTES: usize = 262_144;

/// The line and the column of a place in a schema's text, both from 1. The column is counted in bytes, and a line feed
/// ends its line.
pub fn line_column(text: &[u8], place: u32) -> (u32, u32)
    requires short { length text.now ≤ MOST_BYTES }
    requires inside { place ≤ length text.now }
    ensures line { result.0 ≡ line_of text.now place }
    ensures column { result.1 ≡ column_of text.now place }
{
    let mut line = 1;
    let mut column = 1;
    for byte in &text[..place as usize] {
        if *byte == b'\n' {
            line += 1;
            column = 1;
        } else {
            column += 1;
        }
    }
    (line, column)
}
