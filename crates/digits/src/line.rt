// The bytes that a line's digits stand for, and a line of digits.
use std::marker::Model;

// At most 32 bytes: as many as the digits of the longest line stand for. Clauses see the list of them; what is left of
// the array is zeros.
#[derive(Clone, Copy)]
pub struct Bytes {
    pub(crate) bytes: [u8; 32],
    pub(crate) len: usize,
}

impl Model for Bytes {
    ghost use Rattle.std.specs.Prelude.{ℕ, List, length, take};
    ghost use Rattle.std.proofs.Common.{sym, lit≤};
    ghost use Rattle.digits.specs.Held.{Holds, padded, length_held};

    ghost Value = { List ℕ };

    ghost view = { λ b. take b.len b.bytes };

    ghost invariant = { λ b. Holds 32 32 0 b.len b.bytes };

    ghost inverse = { λ l. record { bytes = padded 32 0 l; len = length l } };

    ghost inverse_ok = { λ b h i. record { bytes = sym h.rest i; len = length_held (lit≤ tt) h i } };
}

// A line of at most 64 digits, and its newline. Clauses see the list of the digits; what is left of the array is
// newlines, the first of which ends the line.
#[derive(Clone, Copy)]
pub struct Line {
    pub(crate) text: [u8; 65],
    pub(crate) len: usize,
}

impl Model for Line {
    ghost use Rattle.std.specs.Prelude.{ℕ, List, length, take};
    ghost use Rattle.std.proofs.Common.{sym, lit≤};
    ghost use Rattle.digits.specs.Held.{Holds, padded, length_held};

    ghost Value = { List ℕ };

    ghost view = { λ l. take l.len l.text };

    ghost invariant = { λ l. Holds 64 65 10 l.len l.text };

    ghost inverse = { λ l. record { text = padded 65 10 l; len = length l } };

    ghost inverse_ok = { λ l h i. record { text = sym h.rest i; len = length_held (lit≤ tt) h i } };
}
