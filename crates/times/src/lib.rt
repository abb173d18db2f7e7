// Kinds of time: when an operation happened.
#![tactic(auto)]

ghost use Rattle.std.specs.Prelude.{◌≡◌, ℕ, ◌^◌, ◌<◌, Bool, true, ◌||◌, Some, Option};

mod clock;
mod place;

pub use clock::Clock;
pub use place::Place;

// A kind of time. The ghost members say its order and its words, the laws are what every kind owes,
// and each method answers what a ghost member says. Words are made and read by methods and not by `From`, which has no such laws.
pub trait Time: Copy {
    // whether the first time is not after the second
    ghost upto: { Self → Self → Bool };

    // the word that a time is kept as
    ghost word: { Self → ℕ };

    // the time that a word is that of, or none
    ghost reads: { ℕ → Option Self };

    fn not_after(self, other: Self) -> bool
        ensures { result ≡ upto self other };

    fn to_word(self) -> u64
        ensures { result ≡ word self };

    fn from_word(stored: u64) -> Option<Self>
        ensures { result ≡ reads stored };

    ghost total: { (a b : Self) → (upto a b || upto b a) ≡ true };

    ghost transitive: { (a b c : Self) → upto a b ≡ true → upto b c ≡ true → upto a c ≡ true };

    ghost antisymmetric: { (a b : Self) → upto a b ≡ true → upto b a ≡ true → a ≡ b };

    // a word has 64 bits
    ghost small: { (a : Self) → word a < 2 ^ 64 };

    // a time's word reads back as that time
    ghost back: { (a : Self) → reads (word a) ≡ Some a };

    // only a time's word reads as it
    ghost only: { (w : ℕ) (a : Self) → reads w ≡ Some a → word a ≡ w };
}
