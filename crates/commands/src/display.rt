// Kinds and openings in words.
ghost use Rattle.std.specs.Prelude.{Some};
ghost use Rattle.commands.specs.Names.{effect_name, time_name, opening_text};

use crate::command::{EffectKind, Opening, TimeKind};
use std::fmt;

impl fmt::Display for EffectKind {
    ghost output = { λ kind. Some (effect_name kind) };

    fn fmt<W: fmt::Write>(&self, f: &mut fmt::Formatter<W>) -> fmt::Result {
        f.write_str(match self {
            EffectKind::Counter => "counter",
            EffectKind::Settings => "settings",
            EffectKind::Status => "status",
        })
    }
}

impl fmt::Display for TimeKind {
    ghost output = { λ kind. Some (time_name kind) };

    fn fmt<W: fmt::Write>(&self, f: &mut fmt::Formatter<W>) -> fmt::Result {
        f.write_str(match self {
            TimeKind::Clock => "clock",
            TimeKind::Place => "place",
        })
    }
}

// What a record is opened with.
impl fmt::Display for Opening {
    ghost output = { λ opening. Some (opening_text opening) };

    fn fmt<W: fmt::Write>(&self, f: &mut fmt::Formatter<W>) -> fmt::Result {
        let Opening {
            effects,
            times,
            quota,
        } = *self;
        write!(f, "open with {effects} on {times}, quota {quota} cells")
    }
}
