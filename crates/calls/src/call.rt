// What a ledger is asked.

// The cells that a change claims before it puts any: one amount a change, since each may come to claim another.
pub const CELLS_TO_ENTER: u32 = 42;

pub const CELLS_TO_WITHDRAW: u32 = 42;

// The last belief that there may be.
pub const LAST_BELIEF: u32 = 1023;

// A call of a ledger, whose operations have effects E and times T.
#[derive(Clone, Copy)]
pub enum Call<E, T> {
    // A change: the next belief has one operation more.
    Enter { time: T, effect: E },
    // A change: the next belief lacks the operation of this number.
    Withdraw { operation: u32 },
    // A question: the state at a time, as believed at a belief.
    State { belief: u32, time: T },
    // A question: the last operation not after a time.
    Latest { belief: u32, time: T },
    // A question: how many operations there are.
    Count { belief: u32 },
}
