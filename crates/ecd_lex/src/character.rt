ghost use Rattle.std.specs.Prelude.{◌≡◌, ◌<◌};
ghost use Rattle.ecd_lex.specs.Characters.{is_decimal, is_name_start, is_name_byte, is_link, is_x, is_b, is_h, is_digit, leads_exponent, is_plus_or_minus, is_blank, digit_value, base_of};

/// How an integer is written.
#[derive(Clone, Copy, Debug, PartialEq, Eq)]
pub enum Radix {
    Decimal,
    Hexadecimal,
    Binary,
}

#[tactic(auto, unfolding(crate::specs::Characters::is_decimal))]
pub fn is_decimal(byte: u8) -> bool
    ensures { result ≡ is_decimal byte }
{
    48 <= byte && byte <= 57
}

/// Whether a name may begin so: a letter, `@`, `_` or `$`.
#[tactic(auto, unfolding(crate::specs::Characters::is_name_start, crate::specs::Characters::is_letter))]
pub fn is_name_start(byte: u8) -> bool
    ensures { result ≡ is_name_start byte }
{
    65 <= byte && byte <= 90
        || 97 <= byte && byte <= 122
        || byte == b'@'
        || byte == b'_'
        || byte == b'$'
}

#[tactic(auto, unfolding(crate::specs::Characters::is_name_byte))]
pub fn is_name_byte(byte: u8) -> bool
    ensures { result ≡ is_name_byte byte }
{
    is_name_start(byte) || is_decimal(byte)
}

/// Whether the byte may stand inside a name, before another byte of it.
#[tactic(auto, unfolding(crate::specs::Characters::is_link))]
pub fn is_link(byte: u8) -> bool
    ensures { result ≡ is_link byte }
{
    byte == b'-' || byte == b'.'
}

#[tactic(auto, unfolding(crate::specs::Characters::is_x))]
pub fn is_x(byte: u8) -> bool
    ensures { result ≡ is_x byte }
{
    byte == b'X' || byte == b'x'
}

#[tactic(auto, unfolding(crate::specs::Characters::is_b))]
pub fn is_b(byte: u8) -> bool
    ensures { result ≡ is_b byte }
{
    byte == b'B' || byte == b'b'
}

#[tactic(auto, unfolding(crate::specs::Characters::is_h))]
pub fn is_h(byte: u8) -> bool
    ensures { result ≡ is_h byte }
{
    byte == b'H' || byte == b'h'
}

#[tactic(auto, unfolding(crate::specs::Characters::is_plus_or_minus))]
pub fn is_plus_or_minus(byte: u8) -> bool
    ensures { result ≡ is_plus_or_minus byte }
{
    byte == b'+' || byte == b'-'
}

/// Space, tab and line feed.
#[tactic(auto, unfolding(crate::specs::Characters::is_blank))]
pub fn is_blank(byte: u8) -> bool
    ensures { result ≡ is_blank byte }
{
    byte == b' ' || byte == b'\t' || byte == b'\n'
}

impl Radix {
    #[tactic(auto, unfolding(crate::specs::Characters::is_digit, crate::specs::Characters::is_decimal))]
    pub fn is_digit(self, byte: u8) -> bool
        ensures { result ≡ is_digit self byte }
    {
        match self {
            Radix::Decimal => is_decimal(byte),
            Radix::Hexadecimal => {
                is_decimal(byte) || 65 <= byte && byte <= 70 || 97 <= byte && byte <= 102
            }
            Radix::Binary => 48 <= byte && byte <= 49,
        }
    }

    /// Whether an exponent may begin so behind digits.
    #[tactic(auto, unfolding(crate::specs::Characters::leads_exponent))]
    pub fn leads_exponent(self, byte: u8) -> bool
        ensures { result ≡ leads_exponent self byte }
    {
        match self {
            Radix::Decimal => byte == b'E' || byte == b'e',
            Radix::Hexadecimal => byte == b'P' || byte == b'p',
            Radix::Binary => false,
        }
    }

    #[tactic(auto, unfolding(crate::specs::Characters::base_of))]
    pub fn base(self) -> u8
        ensures value { result ≡ base_of self }
        ensures small { result < 17 }
    {
        match self {
            Radix::Decimal => 10,
            Radix::Hexadecimal => 16,
            Radix::Binary => 2,
        }
    }
}

/// What a digit counts.
#[tactic(auto, unfolding(crate::specs::Characters::digit_value))]
pub fn digit_value(byte: u8) -> u8
    ensures { result ≡ digit_value byte }
{
    if byte <= 57 {
        byte.saturating_sub(48)
    } else if byte <= 70 {
        byte - 55
    } else {
        byte.saturating_sub(87)
    }
}
