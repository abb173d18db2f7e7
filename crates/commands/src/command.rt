// What a line asks for.

// The kinds of effect that a record can be opened with, by their codes.
#[derive(Clone, Copy)]
pub enum EffectKind {
    Counter = 0x01,
    Settings = 0x02,
    Status = 0x03,
}

// The kinds of time that a record can be opened with, by their codes.
#[derive(Clone, Copy)]
pub enum TimeKind {
    Clock = 0x01,
    Place = 0x02,
}

// The commands by their codes, the first bytes of their frames.
#[derive(Clone, Copy)]
pub enum Code {
    Open = 0x01,
    Enter = 0x10,
    Withdraw = 0x11,
    State = 0x20,
    Latest = 0x21,
    Count = 0x22,
}

// A byte that is the code of nothing of the type that was wanted.
#[derive(Clone, Copy)]
pub struct UnknownCode(pub u8);

// The kinds of a record, and how many cells it may put.
#[derive(Clone, Copy)]
pub struct Opening {
    pub effects: EffectKind,
    pub times: TimeKind,
    pub quota: u16,
}

// A command whose entries carry payloads P and whose times are T. Operations and beliefs go by their numbers.
#[derive(Clone, Copy)]
pub enum Command<P, T> {
    Open { opening: Opening },
    Enter { time: T, payload: P },
    Withdraw { operation: u16 },
    State { belief: u16, time: T },
    Latest { belief: u16, time: T },
    Count { belief: u16 },
}
