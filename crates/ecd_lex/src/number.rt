ghost use Rattle.std.specs.Prelude.{◌≡◌, ◌+◌, ◌≤◌, ◌<◌, ◌^◌, length, drop, take, min};
ghost use Rattle.ecd_lex.specs.Scan.{digits_len, zero_numeral, numeral_at, numeral_len, numeral_value, fraction_len, sign_len, power_len, exponent_len, needs_exponent, tail_len, star_found, number_found, number_by, argument_found, hash_found};
ghost use Rattle.ecd_lex.specs.Characters.{number_of, number_after};
ghost use Rattle.ecd_lex.specs.Forms.{int_of, bound_of};

use crate::character::{Radix, digit_value, is_b, is_decimal, is_plus_or_minus, is_x};
use crate::found::Found;
use crate::token::{Bound, TokenKind};
use ecd_text::{behind, byte_at, front};

/// An unsigned integer at the front of a text, by its parts.
#[derive(Clone, Copy, Debug, PartialEq, Eq)]
pub struct Numeral {
    pub radix: Radix,
    /// The length of the mark before the digits.
    pub mark: usize,
    /// The number of digits. There is no integer where it is 0.
    pub digits: usize,
}

/// How many digits a text begins with.
#[tactic(auto, unfolding(crate::specs::Scan::digits_len))]
fn digits_len(radix: Radix, text: &[u8]) -> usize
    ensures value { result ≡ digits_len radix text.now }
    ensures within { result ≤ length text.now }
{
    text.iter()
        .take_while(|byte| radix.is_digit(**byte))
        .count()
}

/// The integer behind a leading 0.
#[tactic(auto, unfolding(crate::specs::Scan::zero_numeral))]
fn zero_numeral(text: &[u8]) -> Numeral
    ensures value { result ≡ zero_numeral text.now }
    ensures within { numeral_len result ≤ length text.now + 1 }
{
    let mark = byte_at(text, 0);
    let digits = digits_len(Radix::Hexadecimal, behind(text, 1));
    if is_x(mark) && 0 < digits {
        return Numeral {
            radix: Radix::Hexadecimal,
            mark: 2,
            digits,
        };
    }
    let digits = digits_len(Radix::Binary, behind(text, 1));
    if is_b(mark) && 0 < digits {
        return Numeral {
            radix: Radix::Binary,
            mark: 2,
            digits,
        };
    }
    Numeral {
        radix: Radix::Decimal,
        mark: 0,
        digits: 1,
    }
}

/// The unsigned integer at the front of a text.
#[tactic(auto, unfolding(crate::specs::Scan::numeral_at))]
pub fn numeral_at(text: &[u8]) -> Numeral
    ensures value { result ≡ numeral_at text.now }
    ensures within { numeral_len result ≤ length text.now }
{
    if byte_at(text, 0) == b'0' {
        return zero_numeral(behind(text, 1));
    }
    Numeral {
        radix: Radix::Decimal,
        mark: 0,
        digits: digits_len(Radix::Decimal, text),
    }
}

/// The length of a point and the digits behind it.
#[tactic(auto, unfolding(crate::specs::Scan::fraction_len))]
fn fraction_len(radix: Radix, text: &[u8]) -> usize
    ensures value { result ≡ fraction_len radix text.now }
    ensures within { result ≤ length text.now }
{
    let digits = digits_len(radix, behind(text, 1));
    if byte_at(text, 0) == b'.' && 0 < digits {
        1 + digits
    } else {
        0
    }
}

#[tactic(auto, unfolding(crate::specs::Scan::sign_len))]
fn sign_len(text: &[u8]) -> usize
    ensures value { result ≡ sign_len text.now }
    ensures within { result ≤ 1 }
{
    if is_plus_or_minus(byte_at(text, 0)) {
        1
    } else {
        0
    }
}

/// The length of a sign, which may be missing, and the digits behind it.
#[tactic(auto, unfolding(crate::specs::Scan::power_len))]
fn power_len(text: &[u8]) -> usize
    ensures value { result ≡ power_len text.now }
    ensures within { result ≤ length text.now }
{
    let sign = sign_len(text);
    let digits = digits_len(Radix::Decimal, behind(text, sign));
    if 0 < digits { sign + digits } else { 0 }
}

#[tactic(auto, unfolding(crate::specs::Scan::exponent_len))]
fn exponent_len(radix: Radix, text: &[u8]) -> usize
    ensures value { result ≡ exponent_len radix text.now }
    ensures within { result ≤ length text.now }
{
    let power = power_len(behind(text, 1));
    if radix.leads_exponent(byte_at(text, 0)) && 0 < power {
        1 + power
    } else {
        0
    }
}

fn needs_exponent(radix: Radix) -> bool
    ensures { result ≡ needs_exponent radix }
{
    match radix {
        Radix::Decimal => false,
        Radix::Hexadecimal | Radix::Binary => true,
    }
}

/// The length of what makes a number a float, behind its digits: 0 where it is none.
#[tactic(auto, unfolding(crate::specs::Scan::tail_len))]
fn tail_len(radix: Radix, text: &[u8]) -> usize
    ensures value { result ≡ tail_len radix text.now }
    ensures within { result ≤ length text.now }
{
    let fraction = fraction_len(radix, text);
    let exponent = exponent_len(radix, behind(text, fraction));
    if needs_exponent(radix) && exponent == 0 {
        0
    } else {
        fraction + exponent
    }
}

/// A number from here on is outside every range.
const TOO_LARGE: u128 = 0x1_0000_0000_0000_0001;

/// The number that digits spell, or `TOO_LARGE` where it is larger.
fn number_of(radix: Radix, digits: &[u8]) -> u128
    ensures { result ≡ min (number_of radix digits.now) TOO_LARGE }
{
    let base = u128::from(radix.base());
    let mut number: u128 = 0;
    for digit in digits {
        number = (number * base + u128::from(digit_value(*digit))).min(TOO_LARGE);
    }
    number
}

#[tactic(auto, unfolding(crate::specs::Forms::bound_of))]
fn bound_of(radix: Radix, digits: &[u8]) -> Bound
    ensures { result ≡ bound_of (number_of radix digits.now) }
{
    let number = number_of(radix, digits);
    if number < 0x1_0000_0000_0000_0000 {
        Bound::Is(number as u64)
    } else {
        Bound::Huge
    }
}

#[tactic(auto, unfolding(crate::specs::Forms::int_of))]
fn int_of(negative: bool, radix: Radix, digits: &[u8]) -> Option<i128>
    ensures { result ≡ int_of negative (number_of radix digits.now) }
{
    let number = number_of(radix, digits);
    if negative {
        (number <= 0x1_0000_0000_0000_0000).then_some(-(number as i128))
    } else {
        (number < 0x1_0000_0000_0000_0000).then_some(number as i128)
    }
}

impl Numeral {
    fn len(self) -> usize
        requires { self.mark + self.digits < 2 ^ 64 }
        ensures { result ≡ numeral_len self }
    {
        self.mark + self.digits
    }

    /// Its digits in the text that it was found in.
    fn digits_in(self, text: &[u8]) -> &[u8]
        ensures { result.now ≡ take self.digits (drop self.mark text.now) }
    {
        front(behind(text, self.mark), self.digits)
    }
}

/// The occurrence indicator of which a star is read, which stands behind so many bytes.
#[tactic(auto, unfolding(crate::specs::Scan::star_found))]
pub fn star_found(lo: Bound, before: usize, text: &[u8]) -> Found
    requires { before + length text.now < 2 ^ 63 }
    ensures { result ≡ star_found lo before text.now }
{
    let number = numeral_at(text);
    if 0 < number.digits {
        Found {
            end: before + 1 + number.len(),
            kind: TokenKind::Occur {
                lo,
                hi: bound_of(number.radix, number.digits_in(text)),
            },
            number: Some(before + 1),
        }
    } else {
        Found {
            end: before + 1,
            kind: TokenKind::Occur {
                lo,
                hi: Bound::Missing,
            },
            number: None,
        }
    }
}

/// The number, or the occurrence indicator that it begins, behind its minus.
#[tactic(auto, unfolding(crate::specs::Scan::number_found, crate::specs::Scan::number_by))]
pub fn number_found(negative: bool, text: &[u8]) -> Found
    requires { length text.now < 2 ^ 62 }
    ensures { result ≡ number_found negative text.now }
{
    let number = numeral_at(text);
    let len = number.len();
    let minus = if negative { 1 } else { 0 };
    let tail = tail_len(number.radix, behind(text, len));
    if 0 < tail {
        return Found {
            end: minus + len + tail,
            kind: TokenKind::Float,
            number: Some(0),
        };
    }
    if !negative && byte_at(text, len) == b'*' {
        let lo = bound_of(number.radix, number.digits_in(text));
        return star_found(lo, len, behind(text, len + 1));
    }
    Found {
        end: minus + len,
        kind: TokenKind::Int(int_of(negative, number.radix, number.digits_in(text))),
        number: Some(0),
    }
}

/// A data item by its major type, behind `#` and the digit.
#[tactic(auto, unfolding(crate::specs::Scan::argument_found))]
fn argument_found(major: u8, text: &[u8]) -> Found
    requires { length text.now < 2 ^ 62 }
    ensures { result ≡ argument_found major text.now }
{
    let argument = behind(text, 1);
    let number = numeral_at(argument);
    if byte_at(text, 0) == b'.' && 0 < number.digits {
        Found {
            end: 3 + number.len(),
            kind: TokenKind::Hash {
                major: Some(major),
                arg: bound_of(number.radix, number.digits_in(argument)),
            },
            number: Some(0),
        }
    } else {
        Found {
            end: 2,
            kind: TokenKind::Hash {
                major: Some(major),
                arg: Bound::Missing,
            },
            number: Some(0),
        }
    }
}

/// A data item by its major type, behind `#`.
#[tactic(auto, unfolding(crate::specs::Scan::hash_found))]
pub fn hash_found(text: &[u8]) -> Found
    requires { length text.now < 2 ^ 62 }
    ensures { result ≡ hash_found text.now }
{
    let digit = byte_at(text, 0);
    if is_decimal(digit) {
        argument_found(digit_value(digit), behind(text, 1))
    } else {
        Found {
            end: 1,
            kind: TokenKind::Hash {
                major: None,
                arg: Bound::Missing,
            },
            number: Some(0),
        }
    }
}
