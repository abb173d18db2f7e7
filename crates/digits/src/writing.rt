// Bytes put together, and written as a line of digits.
ghost use Rattle.std.specs.Prelude.{◌≡◌, ◌+◌, ◌<◌, ◌≤◌, [], ◌∷◌, ◌++◌, length, Ok};
ghost use Rattle.digits.specs.Hex.{digit_of, decoded, encoded};

use crate::line::{Bytes, Line};

// The digit of a value.
fn digit(value: u8) -> u8
    requires { value < 16 }
    ensures { result ≡ digit_of value }
{
    match value {
        0..=9 => b'0' + value,
        _ => b'a' + (value - 10),
    }
}

// The line that bytes are written as. An array of its own and not a line that grows by pushes: its length would be read and
// written at each digit.
fn line_of(bytes: &[u8]) -> Line
    requires { length bytes.now ≤ 32 }
    ensures digits { result ≡ encoded bytes.now }
    ensures back { decoded result ≡ Ok bytes.now }
    ensures short { length result ≤ 64 }
{
    let mut text = [b'\n'; 65];
    for (i, byte) in bytes.iter().enumerate() {
        text[2 * i] = digit(*byte / 16);
        text[2 * i + 1] = digit(*byte % 16);
    }
    let len = 2 * bytes.len();
    Line { text, len }
}

impl Line {
    // The digits, without the newline.
    pub fn digits(&self) -> &[u8]
        ensures digits { result.now ≡ self.now }
        ensures short { length result.now ≤ 64 }
    {
        &self.text[0..self.len]
    }

    // The digits and the newline.
    pub fn as_slice(&self) -> &[u8]
        ensures line { result.now ≡ self.now ++ 10 ∷ [] }
        ensures short { length result.now ≤ 65 }
    {
        &self.text[0..self.len + 1]
    }
}

impl Bytes {
    // No bytes yet.
    pub fn new() -> Bytes
        ensures { result ≡ [] }
    {
        Bytes {
            bytes: [0; 32],
            len: 0,
        }
    }

    pub fn as_slice(&self) -> &[u8]
        ensures bytes { result.now ≡ self.now }
        ensures short { length result.now ≤ 32 }
    {
        &self.bytes[0..self.len]
    }

    // One byte more, where there is room.
    pub fn push(&mut self, byte: u8)
        requires { length self.old < 32 }
        ensures { self.new ≡ self.old ++ byte ∷ [] }
    {
        self.bytes[self.len] = byte;
        self.len += 1;
    }

    // More bytes, where there is room.
    pub fn append(&mut self, more: &[u8])
        requires { length self.old + length more.now ≤ 32 }
        ensures { self.new ≡ self.old ++ more.now }
    {
        for byte in more {
            self.push(*byte);
        }
    }

    // The bytes as a line, which is read as the bytes again.
    pub fn to_line(&self) -> Line
        ensures digits { result ≡ encoded self.now }
        ensures back { decoded result ≡ Ok self.now }
        ensures short { length result ≤ 64 }
    {
        line_of(self.as_slice())
    }
}
