// What a ledger answers to a call that it does not refuse.

// The good answer to a call, of a ledger whose states are S and whose times are T.
#[derive(Clone, Copy)]
pub enum Answer<S, T> {
    // To a change: the number of the new belief, and how many cells it took.
    Changed((u32, u32)),
    // To `State`.
    InState(S),
    // To `Latest`: the operation's number and time, or none.
    Newest(Option<(u32, T)>),
    // To `Count`.
    Counted(u32),
}
