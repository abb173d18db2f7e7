// What a ledger is asked and what it answers. specs/ has the reference ledger's verdict on each call.
#![tactic(auto)]

ghost use Rattle.calls.specs.Widths.{PlacesFit};

pub mod answer;
pub mod call;
pub mod refusal;

pub use answer::Answer;
pub use call::Call;
pub use refusal::Refusal;

// A theorem: where the numbers of a call have 16 bits, the place of its refusal has too, and no call is refused
// for a missing cell. For effects E, times T and states S of any kind.
pub fn places_fit<E, T, S>()
    ensures { PlacesFit E T S }
{}
