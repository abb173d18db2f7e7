// The payload of the status: an event, which stands for its transitions.
ghost use Rattle.std.specs.Prelude.{[], ◌∷◌};
ghost use Rattle.status.specs.Events.{event_code, event_transitions};
ghost use Rattle.payloads.specs.Events.{event_parsed};
ghost use Rattle.payloads.specs.Happening.{event_again, event_exact};
ghost use Rattle.std.proofs.Common.{rules};

use crate::payload::Payload;
use digits::Bytes;
use status::{Event, Transitions};

impl Payload for Transitions {
    type Form = Event;

    ghost entered = { event_transitions };

    ghost layout = { λ event. event_code event ∷ [] };

    ghost size = { λ _. 1 };

    ghost parsed = { event_parsed };

    ghost short = { Prim.search rules };

    ghost sized = { Prim.search rules };

    ghost again = { λ p rest. event_again p rest };

    ghost exact = { λ bs p u is. event_exact bs p is };

    fn effect(form: Event) -> Transitions {
        form.transitions()
    }

    fn size_of(_start: &[u8]) -> usize {
        1
    }

    fn parse(bytes: &[u8]) -> Option<Event> {
        let code = bytes.first()?;
        Event::try_from(*code).ok()
    }

    fn append(form: Event, out: &mut Bytes) {
        out.push(form.code());
    }
}
