// What an entry carries besides its time.
ghost use Rattle.std.specs.Prelude.{◌≡◌, ℕ, ◌+◌, ◌≤◌, List, ◌++◌, length, take, Some, Option};
ghost use Rattle.std.specs.Int.Digits.{AllBelowBase};

use digits::Bytes;
use effects::Effect;

// A kind of effect whose effects are entered by payloads. A payload finds its own length among the bytes that it
// begins, and is read whatever follows it, so that payloads can follow one another.
pub trait Payload: Effect {
    type Form: Copy;

    // the effect that a payload enters
    ghost entered: { Self.Form → Self };

    // the bytes of a payload
    ghost layout: { Self.Form → List ℕ };

    // how many bytes a payload has that begins as these do
    ghost size: { List ℕ → ℕ };

    // the payload that bytes begin with, or none
    ghost parsed: { List ℕ → Option Self.Form };

    fn effect(form: Self::Form) -> Self
        ensures { result ≡ entered form };

    // How many of the bytes are the payload's; those after them are handed on.
    fn size_of(start: &[u8]) -> usize
        ensures { result ≡ size start.now };

    // The payload that the bytes begin with.
    fn parse(bytes: &[u8]) -> Option<Self::Form>
        ensures { result ≡ parsed bytes.now };

    // Appends the payload's bytes, where there is room for them.
    fn append(form: Self::Form, out: &mut Bytes)
        requires { length out.old + length (layout form) ≤ 32 }
        ensures { out.new ≡ out.old ++ layout form };

    // a payload has at most 23 bytes: with code and time a line holds it
    ghost short: { (p : Self.Form) → length (layout p) ≤ 23 };

    // a payload's length is found, whatever follows it
    ghost sized: { (p : Self.Form) (rest : List ℕ) → size (layout p ++ rest) ≡ length (layout p) };

    // a payload's bytes are read as it, whatever follows them
    ghost again: { (p : Self.Form) (rest : List ℕ) → parsed (layout p ++ rest) ≡ Some p };

    // only a payload's bytes are read as it
    ghost exact: { (bs : List ℕ) (p : Self.Form) → AllBelowBase 256 bs → parsed bs ≡ Some p → layout p ≡ take (size bs) bs };
}
