// A session of the record: the lines of an input answered, from bytes to bytes.
#![tactic(auto)]

use counter::Counter;
use effects::Effect;
use layers::{Cache, Quota};
use ledger::Ledger;
use settings::Settings;
use status::Transitions;
use store::Store;
use times::{Clock, Place, Time};

pub mod input;
mod opening;
pub mod serving;
mod talk;

pub use input::answer_input;

// A record that is open with effects E and times T, over the store S.
#[derive(Drop)]
pub struct Session<E: Effect, T: Time, S: Store> {
    ledger: Ledger<E, T, S>,
}

// What an open record is, by the kind of its times.
// The sessions are type arguments, here and below: of a plain enum over S it could not be proved that they fit memory.
#[derive(Drop)]
pub enum OnTimes<OnClock, OnPlace> {
    Clock(OnClock),
    Place(OnPlace),
}

// A record over the store S: not open yet, or open with effects of a kind.
#[derive(Drop)]
pub enum OfEffects<S, OfCounter, OfSettings, OfStatus> {
    Closed(S),
    Counter(OfCounter),
    Settings(OfSettings),
    Status(OfStatus),
}

// A record that is open with effects E stands over a cache over its quota over the store.
pub type OpenRecord<E, S> = OnTimes<
    Session<E, Clock, Cache<Quota<S>>>,
    Session<E, Place, Cache<Quota<S>>>,
>;

pub type Record<S> = OfEffects<
    S,
    OpenRecord<Counter, S>,
    OpenRecord<Settings, S>,
    OpenRecord<Transitions, S>,
>;
