// The eleven events, and what each of them makes of every status.
ghost use Rattle.std.specs.Prelude.{◌≡◌, ◌<◌, slice_index};
ghost use Rattle.status.specs.Events.{event_code, EventRead, rows, becomes, event_transitions};

use super::{Event, Status, Transitions, UnknownEvent};
use std::array;

// A row of eight codes for each event, in the order of the events. Flat, and codes: the form that was asked for.
#[rattlefmt::skip]
const ROWS: [u8; 88] = [
    1, 1, 2, 3, 4, 5, 6, 7, // power on
    0, 0, 0, 0, 0, 0, 0, 0, // power off
    0, 2, 2, 3, 4, 5, 6, 7, // heat
    0, 1, 3, 3, 4, 5, 6, 7, // start
    0, 1, 2, 4, 4, 5, 6, 7, // pause
    0, 1, 2, 3, 3, 5, 6, 7, // resume
    0, 1, 2, 5, 5, 5, 6, 7, // end of job
    0, 1, 2, 3, 4, 1, 6, 7, // cooled
    0, 6, 2, 3, 4, 5, 6, 6, // into service
    0, 1, 2, 3, 4, 5, 1, 7, // out of service
    0, 7, 7, 7, 7, 7, 7, 7, // fault
];

// Entry k of the table, under its one rule: it is the rows of the events, one after the other.
fn table_entry(k: usize) -> u8
    requires { k < 88 }
    ensures { result ≡ slice_index rows k }
{
    ROWS[k]
}

impl Event {
    pub fn code(self) -> u8
        ensures { result ≡ event_code self }
    {
        self as u8
    }

    // What the event makes of the statuses, in the order of their codes.
    fn row(self) -> [Status; 8]
        ensures { result ≡ becomes self }
    {
        let start = 8 * (self.code() as usize - 1);
        array::from_fn(|i| Status::of_digit(table_entry(start + i)))
    }

    pub fn transitions(self) -> Transitions
        ensures { result ≡ event_transitions self }
    {
        Transitions::new(self.row())
    }
}

impl TryFrom<u8> for Event {
    type Error = UnknownEvent;

    ghost try_from_gives = { EventRead };

    fn try_from(code: u8) -> Result<Event, UnknownEvent> {
        match code {
            0x01 => Ok(Event::PowerOn),
            0x02 => Ok(Event::PowerOff),
            0x03 => Ok(Event::Heat),
            0x04 => Ok(Event::Start),
            0x05 => Ok(Event::Pause),
            0x06 => Ok(Event::Resume),
            0x07 => Ok(Event::EndOfJob),
            0x08 => Ok(Event::Cooled),
            0x09 => Ok(Event::IntoService),
            0x0a => Ok(Event::OutOfService),
            0x0b => Ok(Event::Fault),
            _ => Err(UnknownEvent(code)),
        }
    }
}
