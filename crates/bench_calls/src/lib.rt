// A run of a ledger over a table, for callers outside Rattle: its calls come in and its answers go out as structs of numbers.
#![tactic(auto)]

ghost use Rattle.std.specs.Prelude.{◌≡◌, min, map, length, IfOk, MatchResult};
ghost use Rattle.counter.specs.contracts.kind.CounterEffect.TheImpl.{ghosts as counters};
ghost use Rattle.settings.specs.contracts.kind.SettingsEffect.TheImpl.{ghosts as settings};
ghost use Rattle.status.specs.contracts.kind.TransitionsEffect.TheImpl.{ghosts as statuses};
ghost use Rattle.times.specs.contracts.clock.kind.ClockTime.TheImpl.{ghosts as clocks};
ghost use Rattle.bench_calls.specs.Numbers.{call_in, calls_in, reply_numbers, replaced};
ghost use Rattle.bench_calls.specs.Answering.{Answered, Outcome};

use bases::Table;
use calls::{Answer, Call, Refusal};
use counter::Counter;
use effects::Effect;
use runs::run;
use settings::Settings;
use status::Transitions;
use std::alloc::{AllocError, Global};
use store::Store;
use times::{Clock, Time};
use words::EffectWords;

// A call: its code, the operation or belief that it is about, its time, and the words of its effect. What a call lacks is
// not looked at. Numbers, and no enum: the C interface needs them.
#[repr(C)]
#[derive(Clone, Copy)]
pub struct CallNumbers {
    pub code: u32,
    pub number: u32,
    pub time: u64,
    pub first: u64,
    pub second: u64,
}

// An answer: the number of its refusal, 0 where it is none; the new belief, the operation that was found, the count or the
// refusal's place; and the cells that were taken, the state's word or the time that was found. What an answer lacks is 0.
// Numbers, and no Result: the C interface needs them.
#[repr(C)]
#[derive(Clone, Copy)]
pub struct ReplyNumbers {
    pub refusal: u32,
    pub number: u32,
    pub word: u64,
}

// The call of numbers, if they are one's.
fn read_call<E: Effect, T: Time>(asked: CallNumbers) -> Option<Call<E, T>>
    ensures { result ≡ call_in E.Effect T.Time asked }
{
    match asked.code {
        0x10 => {
            let time = T::from_word(asked.time)?;
            let effect = E::from_words(EffectWords {
                first: asked.first,
                second: asked.second,
            })?;
            Some(Call::Enter { time, effect })
        }
        0x11 => Some(Call::Withdraw {
            operation: asked.number,
        }),
        0x20 => Some(Call::State {
            belief: asked.number,
            time: T::from_word(asked.time)?,
        }),
        0x21 => Some(Call::Latest {
            belief: asked.number,
            time: T::from_word(asked.time)?,
        }),
        0x22 => Some(Call::Count {
            belief: asked.number,
        }),
        _ => None,
    }
}

// The calls before the first numbers that are no call's. Their memory is obtained once, before the first: a chain that is
// collected does not know how many it gives, would obtain up to twice as much, and the archive would need `realloc`.
fn read_calls<E: Effect, T: Time>(
    heap: Global,
    asked: &[CallNumbers],
) -> Result<Vec<Call<E, T>>, AllocError>
    ensures { IfOk result (λ calls. calls.items ≡ calls_in E.Effect T.Time asked.now) }
{
    let mut calls = Vec::with_capacity(heap, asked.len())?;
    for numbers in asked {
        let Some(call) = read_call::<E, T>(*numbers) else {
            break;
        };
        calls.push_reserved(call);
    }
    Ok(calls)
}

fn numbers_of<E: Effect, T: Time>(reply: Result<Answer<E::State, T>, Refusal>) -> ReplyNumbers
    ensures { result ≡ reply_numbers E.Effect T.Time reply }
{
    let (refusal, number, word) = match reply {
        Ok(Answer::Changed((belief, cells))) => (0, belief, u64::from(cells)),
        Ok(Answer::InState(state)) => (0, 0, E::state_words(state).first),
        Ok(Answer::Newest(Some((operation, time)))) => (0, operation, time.to_word()),
        Ok(Answer::Newest(None)) => (0, 0, 0),
        Ok(Answer::Counted(count)) => (0, count, 0),
        Err(refusal) => {
            let (number, place) = refusal.number_and_place();
            (u32::from(number), place, 0)
        }
    };
    ReplyNumbers {
        refusal,
        number,
        word,
    }
}

// Writes the numbers of replies from the first place on, as many as there are places.
fn write_replies<E: Effect, T: Time>(
    replies: &[Result<Answer<E::State, T>, Refusal>],
    out: &mut [ReplyNumbers],
) -> usize
    ensures count { result ≡ min (length replies.now) (length out.old) }
    ensures written { out.new ≡ replaced result (map (reply_numbers E.Effect T.Time) replies.now) out.old }
{
    let places = replies.len().min(out.len());
    // tried with `out.iter_mut().zip(replies)`: no proof, since nothing is known of what such a loop wrote
    for (i, reply) in replies[..places].iter().enumerate() {
        out[i] = numbers_of::<E, T>(*reply);
    }
    places
}

// Carries out the calls over a new table of so many cells, unless memory is wanting. The arguments are those of the exports,
// which the C interface needs apart.
fn try_to_answer<E: Effect>(
    heap: Global,
    capacity: u32,
    asked: &[CallNumbers],
    out: &mut [ReplyNumbers],
) -> Result<usize, AllocError>
    ensures { MatchResult result (λ n. Answered E.Effect clocks capacity asked.now out.old out.new n) (λ _. out.new ≡ out.old) }
{
    let calls = read_calls::<E, Clock>(heap, asked)?;
    let table = Table::open(heap, capacity)?;
    let (_ledger, replies) = run(heap, table, calls.as_slice())?;
    Ok(write_replies::<E, Clock>(replies.as_slice(), out))
}

// The number of answered calls, 0 where memory is wanting.
fn answer<E: Effect>(
    heap: Global,
    capacity: u32,
    asked: &[CallNumbers],
    out: &mut [ReplyNumbers],
) -> usize
    ensures { Outcome E.Effect clocks capacity asked.now out.old out.new result }
{
    try_to_answer::<E>(heap, capacity, asked, out).unwrap_or(0)
}

// One function a kind, and 0 where memory is wanting: the C interface has neither type parameters nor Result.

// Answers calls to a ledger of counters on the clock.
#[unsafe(no_mangle)]
pub extern "C" fn huvapyto_counter_calls(
    heap: Global,
    capacity: u32,
    asked: &[CallNumbers],
    out: &mut [ReplyNumbers],
) -> usize
    ensures { Outcome counters clocks capacity asked.now out.old out.new result }
{
    answer::<Counter>(heap, capacity, asked, out)
}

// Answers calls to a ledger of settings on the clock.
#[unsafe(no_mangle)]
pub extern "C" fn huvapyto_settings_calls(
    heap: Global,
    capacity: u32,
    asked: &[CallNumbers],
    out: &mut [ReplyNumbers],
) -> usize
    ensures { Outcome settings clocks capacity asked.now out.old out.new result }
{
    answer::<Settings>(heap, capacity, asked, out)
}

// Answers calls to a ledger of statuses on the clock.
#[unsafe(no_mangle)]
pub extern "C" fn huvapyto_status_calls(
    heap: Global,
    capacity: u32,
    asked: &[CallNumbers],
    out: &mut [ReplyNumbers],
) -> usize
    ensures { Outcome statuses clocks capacity asked.now out.old out.new result }
{
    answer::<Transitions>(heap, capacity, asked, out)
}
