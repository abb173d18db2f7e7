// The status, a kind of effect: what a printer is doing.
#![tactic(auto)]

ghost use Rattle.std.specs.Prelude.{◌≡◌, length};

mod events;
mod kind;
mod names;

// What a printer is doing, in the order of the codes 0 to 7.
#[derive(Clone, Copy)]
pub enum Status {
    Off,
    Idle,
    Heating,
    Printing,
    Paused,
    Cooling,
    Service,
    Fault,
}

// What each status becomes: entry i is what the status of code i turns into.
#[derive(Clone, Copy)]
pub struct Transitions {
    entries: [Status; 8],
    ghost eight: { length entries ≡ 8 },
}

// What can happen to a printer, in the order of the codes 01 to 0b.
#[derive(Clone, Copy)]
pub enum Event {
    PowerOn = 0x01,
    PowerOff = 0x02,
    Heat = 0x03,
    Start = 0x04,
    Pause = 0x05,
    Resume = 0x06,
    EndOfJob = 0x07,
    Cooled = 0x08,
    IntoService = 0x09,
    OutOfService = 0x0a,
    Fault = 0x0b,
}

// A code that is no event's.
#[derive(Clone, Copy, Debug, PartialEq, Eq)]
pub struct UnknownEvent(pub u8);
