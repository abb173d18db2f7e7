// The whole of an input, from bytes to bytes.
ghost use Rattle.std.specs.Prelude.{◌≡◌, [], IfOk};
ghost use Rattle.text.specs.Seen.{unread};
ghost use Rattle.layers.specs.Quotas.{limited};
ghost use Rattle.session.specs.Records.{Kept, KeptOn, KeptBy, Adds, AnsweredFrom, Answered};
ghost use Rattle.session.specs.Whole.{until_opening};

use crate::opening::answer_until_opening;
use crate::talk::Talk;
use crate::{OfEffects, OnTimes, OpenRecord, Record, Session};
use answers::flaw_line;
use commands::{EffectKind, Opening, TimeKind};
use counter::Counter;
use layers::{Cache, Quota};
use payloads::Payload;
use settings::Settings;
use status::Transitions;
use std::alloc::{AllocError, Global};
use store::Store;
use text::check_length;
use times::{Clock, Place, Time};

// Opens a record over a cache over its quota over a store, and answers the lines that are left. Opening, store and talk go
// together in these three functions alone, and each of the three ends elsewhere.
fn serve<E: Payload, T: Time, S: Store>(
    opening: Opening,
    store: S,
    talk: &mut Talk,
) -> Session<E, T, Cache<Quota<S>>>
    ensures { Adds (Kept S.Store E.Payload.own E.Effect T.Time (limited (S.Store.meaning store) opening.quota) (unread talk.old.reader) result.ledger) talk.old.out.items talk.new.out.items }
{
    let limited = Quota::open(store, u32::from(opening.quota));
    let mut session = Session::<E, T, Cache<Quota<S>>>::open(Cache::open(limited));
    session.answer_all(talk);
    session
}

// The same with the kind of time of an opening.
fn serve_on<E: Payload, S: Store>(opening: Opening, store: S, talk: &mut Talk) -> OpenRecord<E, S>
    ensures { Adds (KeptOn S.Store E.Payload.own E.Effect opening.times (limited (S.Store.meaning store) opening.quota) (unread talk.old.reader) result) talk.old.out.items talk.new.out.items }
{
    match opening.times {
        TimeKind::Clock => OnTimes::Clock(serve::<E, Clock, S>(opening, store, talk)),
        TimeKind::Place => OnTimes::Place(serve::<E, Place, S>(opening, store, talk)),
    }
}

// The same with both kinds of an opening.
fn serve_as<S: Store>(opening: Opening, store: S, talk: &mut Talk) -> Record<S>
    ensures { Adds (KeptBy S.Store opening (limited (S.Store.meaning store) opening.quota) (unread talk.old.reader) result) talk.old.out.items talk.new.out.items }
{
    match opening.effects {
        EffectKind::Counter => OfEffects::Counter(serve_on::<Counter, S>(opening, store, talk)),
        EffectKind::Settings => OfEffects::Settings(serve_on::<Settings, S>(opening, store, talk)),
        EffectKind::Status => OfEffects::Status(serve_on::<Transitions, S>(opening, store, talk)),
    }
}

// Answers all lines to a record over a store.
fn serve_all<S: Store>(store: S, talk: &mut Talk) -> Record<S>
    requires { talk.old.out.items ≡ [] }
    ensures { AnsweredFrom S.Store store (until_opening (unread talk.old.reader)) result talk.new.out.items }
{
    match answer_until_opening(talk) {
        Some(opening) => serve_as(opening, store, talk),
        None => OfEffects::Closed(store),
    }
}

// Answers the whole of an input to a record over a store, and gives back the record with the output. Memory for the longest
// output, nine bytes for a line of one, is obtained before the first line.
pub fn answer_input<S: Store + Drop>(
    heap: Global,
    store: S,
    input: &[u8],
) -> Result<(Record<S>, Vec<u8>), AllocError>
    ensures { IfOk result (λ x. Answered S.Store store input.now x.0 x.1.items) }
{
    if let Err(flaw) = check_length(input) {
        let out = flaw_line(flaw).as_slice().to_vec(heap)?;
        return Ok((OfEffects::Closed(store), out));
    }
    let mut talk = Talk::open(heap, input)?;
    let record = serve_all(store, &mut talk);
    Ok((record, talk.out))
}
