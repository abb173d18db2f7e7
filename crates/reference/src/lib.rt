// The reference ledger: what a ledger is on paper. Every contract above cites its definitions, which stand in specs/.
#![tactic(auto)]

// One change of a printer that somebody entered: it happened at its time and has its effect from there on.
// Its number is that of the belief that its entry made.
#[derive(Clone, Copy)]
pub struct Operation<E, T> {
    pub number: u32,
    pub time: T,
    pub effect: E,
}
