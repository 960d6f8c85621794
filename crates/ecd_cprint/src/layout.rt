//! A text that grows lexeme by lexeme, with line breaks and indentation.

ghost use Rattle.std.specs.Prelude.{◌≡◌, [], ◌∷◌, ◌++◌, OnOk, OnErr, IsTrue, ◌↔◌, true, Bool, ◌&&◌, ◌||◌, codes};
ghost use Rattle.ecd_cprint.specs.Layout.{Grows, IsGap, may_join, seam, last_byte, first_byte};
ghost use Rattle.ecd_cast.specs.Lexemes.{is_word_byte, is_pair_sign, is_blank};
ghost use Rattle.std.specs.List.{list_all};

use ecd_list::OutOfMemory;

/// The white space before a lexeme.
#[derive(Clone, Copy, PartialEq, Eq, Debug)]
pub enum Gap {
    /// None, where the lexeme cannot join the one before it.
    Tight,
    Space,
    /// A new line, as deep as the open blocks.
    Line,
}

/// A line feed, and the deepest indentation.
const LINE: &[u8] = b"\n                                ";

/// The text so far.
#[derive(Debug, Drop)]
pub struct Layout {
    pub text: Vec<u8>,
    level: usize,
    glued: bool,
}

fn is_word_byte(byte: u8) -> bool
    ensures { result ≡ is_word_byte byte }
{
    byte.is_ascii_lowercase() || byte == b'_' || byte.is_ascii_digit()
}

fn is_pair_sign(first: u8, second: u8) -> bool
    ensures { result ≡ is_pair_sign first second }
{
    (second == b'='
        && (first == b'+' || first == b'=' || first == b'!' || first == b'<' || first == b'>'))
        || (second == b'>' && (first == b'-' || first == b'>'))
        || (first == second && (first == b'<' || first == b'&' || first == b'|'))
}

/// Whether a lexeme that ends with the first byte could go on with the second.
fn may_join(last: u8, next: u8) -> bool
    ensures { result ≡ may_join last next }
{
    (is_word_byte(last) && is_word_byte(next)) || is_pair_sign(last, next)
}

/// Whether a lexeme would join the text before it.
fn joins(text: &[u8], lexeme: &[u8]) -> bool
    ensures { result ≡ seam (last_byte text.now) (first_byte lexeme.now) }
{
    match (text.last(), lexeme.first()) {
        (Some(last), Some(next)) => may_join(*last, *next),
        _ => false,
    }
}

/// White space before a lexeme, some where the lexeme would join the text before it.
fn white_space(text: &[u8], gap: Gap, level: usize, lexeme: &[u8]) -> &'static [u8]
    ensures { IsGap text.now lexeme.now result.now }
{
    match gap {
        Gap::Line => &LINE[..1 + level.min(8) * 4],
        Gap::Tight if !joins(text, lexeme) => b"",
        _ => b" ",
    }
}

impl Layout {
    /// A layout with this text.
    pub fn new(text: Vec<u8>) -> Layout
        ensures { result.text ≡ text }
    {
        Layout {
            text,
            level: 0,
            glued: false,
        }
    }

    /// The text.
    pub fn into_text(self) -> Vec<u8>
        ensures { result ≡ self.text }
    {
        self.text
    }

    /// Puts a lexeme behind the text.
    pub fn put(&mut self, gap: Gap, lexeme: &[u8]) -> Result<(), OutOfMemory>
        ensures { OnOk result (Grows self.old.text.items self.new.text.items (lexeme.now ∷ [])) }
    {
        let gap = if self.glued { Gap::Tight } else { gap };
        let white = white_space(&self.text, gap, self.level, lexeme);
        self.text.extend_from_slice(white)?;
        self.text.extend_from_slice(lexeme)?;
        self.glued = false;
        Ok(())
    }

    /// Puts a lexeme that the next one follows without white space.
    pub fn put_before(&mut self, gap: Gap, lexeme: &[u8]) -> Result<(), OutOfMemory>
        ensures { OnOk result (Grows self.old.text.items self.new.text.items (lexeme.now ∷ [])) }
    {
        self.put(gap, lexeme)?;
        self.glued = true;
        Ok(())
    }

    /// Opens a block: what follows stands deeper.
    pub fn open(&mut self) -> Result<(), OutOfMemory>
        ensures { OnOk result (Grows self.old.text.items self.new.text.items (codes "{" ∷ [])) }
    {
        self.put(Gap::Space, b"{")?;
        self.level = self.level.saturating_add(1);
        Ok(())
    }

    /// Closes a block, on a line of its own where it held something.
    pub fn close(&mut self, was_empty: bool) -> Result<(), OutOfMemory>
        ensures { OnOk result (Grows self.old.text.items self.new.text.items (codes "}" ∷ [])) }
    {
        self.level = self.level.saturating_sub(1);
        self.put(if was_empty { Gap::Space } else { Gap::Line }, b"}")
    }
}
