// Why an input or a line of it is refused.
ghost use Rattle.std.specs.Prelude.{◌≡◌};
ghost use Rattle.text.specs.Flaws.{number_and_place, code_of};

use std::fmt;

// What is wrong with an input or a line, in the order in which it is looked for. Places and lengths count characters;
// a flaw that is found after the code holds the code.
// The code is a byte and no enum: a narrower type would ask more of whoever makes a flaw.
#[derive(Clone, Copy)]
pub enum Flaw {
    // The input is longer than an input may be.
    LongInput,
    // The line is longer than a line may be.
    LongLine,
    // The first character that is no digit.
    NoDigit { place: usize },
    // An odd number of digits.
    OddLength { length: usize },
    // No code, an unknown one, or one that is out of turn.
    BadCode,
    // A length that is wrong for the code.
    WrongLength { code: u8, length: usize },
    // A word that is no time of the kind.
    NoTime { code: u8, place: usize },
    // A payload, or a kind in an opening, that is out of range.
    OutOfRange { code: u8, place: usize },
}

impl Flaw {
    // The refusal's number, whose first digit names the layer, and its place: numbers, since a line of an answer has them.
    pub fn number_and_place(self) -> (u8, usize)
        ensures { result ≡ number_and_place self }
    {
        match self {
            Flaw::LongInput => (0x18, 32_768),
            Flaw::LongLine => (0x11, 64),
            Flaw::NoDigit { place } => (0x12, place),
            Flaw::OddLength { length } => (0x13, length),
            Flaw::BadCode => (0x14, 0),
            Flaw::WrongLength { length, .. } => (0x15, length),
            Flaw::NoTime { place, .. } => (0x16, place),
            Flaw::OutOfRange { place, .. } => (0x17, place),
        }
    }

    // The code that the answer begins with: the line's, or 0 where the line has none.
    pub fn code(self) -> u8
        ensures { result ≡ code_of self }
    {
        match self {
            Flaw::WrongLength { code, .. }
            | Flaw::NoTime { code, .. }
            | Flaw::OutOfRange { code, .. } => code,
            _ => 0,
        }
    }
}

impl fmt::Display for Flaw {
    ghost use Rattle.std.specs.Prelude.{Some};
    ghost use Rattle.text.specs.Flaws.{words_of};

    // what is wrong, in words
    ghost output = { λ flaw. Some (words_of flaw) };

    fn fmt<W: fmt::Write>(&self, f: &mut fmt::Formatter<W>) -> fmt::Result {
        f.write_str(match self {
            Flaw::LongInput => "the input has more than 32768 bytes",
            Flaw::LongLine => "more than 64 characters",
            Flaw::NoDigit { .. } => "no digit 0 to 9 or a to f",
            Flaw::OddLength { .. } => "an odd number of digits",
            Flaw::BadCode => "no code, an unknown one, or one out of turn",
            Flaw::WrongLength { .. } => "a length that is wrong for the code",
            Flaw::NoTime { .. } => "no time of the kind",
            Flaw::OutOfRange { .. } => "out of range",
        })
    }
}
