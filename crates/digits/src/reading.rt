// Reading the digits of a line.
ghost use Rattle.std.specs.Prelude.{◌≡◌, ℕ, ◌+◌, ◌*◌, ◌<◌, ◌≤◌, List, length, Ok, IfOk};
ghost use Rattle.digits.specs.Hex.{digit, value, no_digit, checked, decoded, encoded};

use crate::line::Bytes;
use text::Flaw;

// The most characters that a line may have.
pub const LONGEST_LINE: usize = 64;

// The value of a digit, or None for a character that is none; by cases of characters, the form that was asked for.
pub fn digit_value(c: char) -> Option<u8>
    ensures { result ≡ digit c }
{
    match c {
        '0'..='9' => Some((c as u32 - '0' as u32) as u8),
        'a'..='f' => Some((c as u32 - 'a' as u32) as u8 + 10),
        _ => None,
    }
}

// Where the first character that is no digit stands.
fn find_no_digit(text: &[u8]) -> Option<usize>
    ensures { result ≡ no_digit text.now }
{
    text.iter()
        .position(|byte| digit_value(char::from(*byte)).is_none())
}

// Refuses a line that is too long, has a character that is no digit, or is of odd length, in this order.
fn check(text: &[u8]) -> Result<(), Flaw>
    ensures { result ≡ checked text.now }
{
    let length = text.len();
    if length > LONGEST_LINE {
        return Err(Flaw::LongLine);
    }
    if let Some(place) = find_no_digit(text) {
        return Err(Flaw::NoDigit { place });
    }
    if length % 2 != 0 {
        return Err(Flaw::OddLength { length });
    }
    Ok(())
}

// The value of a character that is a digit.
fn nibble(byte: u8) -> u8
    ensures worth { result ≡ value byte }
    ensures small { result < 16 }
{
    digit_value(char::from(byte)).unwrap_or(0)
}

// The byte that two digits stand for.
fn byte_of(high: u8, low: u8) -> u8
    ensures { result ≡ value high * 16 + value low }
{
    nibble(high) * 16 + nibble(low)
}

// The bytes that a line stands for, or why it stands for none. What was read is written again as it was.
pub fn decode(text: &[u8]) -> Result<Bytes, Flaw>
    ensures bytes { result ≡ decoded text.now }
    ensures again { (b : List ℕ) → result ≡ Ok b → encoded b ≡ text.now }
    ensures short { IfOk result (λ b. length b ≤ 32) }
{
    check(text)?;
    let (pairs, _) = text.as_chunks::<2>();
    let mut bytes = Bytes::new();
    for [high, low] in pairs {
        bytes.push(byte_of(*high, *low));
    }
    Ok(bytes)
}
