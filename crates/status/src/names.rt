// Statuses and events in words.
ghost use Rattle.std.specs.Prelude.{Some};
ghost use Rattle.std.specs.Fmt.{padded};
ghost use Rattle.status.specs.Names.{status_name, event_name};

use super::{Event, Status};
use std::fmt;

impl fmt::Display for Status {
    ghost output = { λ status. Some (status_name status) };

    ghost styled_output = { λ status spec. Some (padded spec (status_name status)) };

    fn fmt<W: fmt::Write>(&self, f: &mut fmt::Formatter<W>) -> fmt::Result {
        f.pad(match self {
            Status::Off => "off",
            Status::Idle => "idle",
            Status::Heating => "heating",
            Status::Printing => "printing",
            Status::Paused => "paused",
            Status::Cooling => "cooling",
            Status::Service => "service",
            Status::Fault => "fault",
        })
    }
}

impl fmt::Display for Event {
    ghost output = { λ event. Some (event_name event) };

    ghost styled_output = { λ event spec. Some (padded spec (event_name event)) };

    fn fmt<W: fmt::Write>(&self, f: &mut fmt::Formatter<W>) -> fmt::Result {
        f.pad(match self {
            Event::PowerOn => "power on",
            Event::PowerOff => "power off",
            Event::Heat => "heat",
            Event::Start => "start",
            Event::Pause => "pause",
            Event::Resume => "resume",
            Event::EndOfJob => "end of job",
            Event::Cooled => "cooled",
            Event::IntoService => "into service",
            Event::OutOfService => "out of service",
            Event::Fault => "fault",
        })
    }
}
