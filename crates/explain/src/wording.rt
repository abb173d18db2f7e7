// Commands and payloads in words.
use commands::Command;
use counter::Counter;
use settings::Settings;
use status::Event;
use std::fmt;

// A value, to be printed in words.
#[derive(Clone, Copy)]
pub(crate) struct Words<T>(pub(crate) T);

impl<P: Copy, T: Copy> fmt::Display for Words<Command<P, T>>
where
    Words<P>: fmt::Display,
    T: fmt::Display,
{
    fn fmt<W: fmt::Write>(&self, f: &mut fmt::Formatter<W>) -> fmt::Result {
        match self.0 {
            Command::Open { opening } => write!(f, "{opening}"),
            Command::Enter { time, payload } => { write!(f, "enter at {time}: {}", Words(payload)) }
            Command::Withdraw { operation } => write!(f, "withdraw operation {operation}"),
            Command::State { belief, time } => {
                write!(f, "state at {time}, as believed at {belief}")
            }
            Command::Latest { belief, time } => {
                write!(f, "latest operation at {time}, as believed at {belief}")
            }
            Command::Count { belief } => write!(f, "count of operations, as believed at {belief}"),
        }
    }
}

// Hundredths of a gram, printed in grams.
#[derive(Clone, Copy)]
struct Grams(u32);

impl fmt::Display for Grams {
    fn fmt<W: fmt::Write>(&self, f: &mut fmt::Formatter<W>) -> fmt::Result {
        write!(f, "{}.{:02}", self.0 / 100, self.0 % 100)
    }
}

impl fmt::Display for Words<Counter> {
    fn fmt<W: fmt::Write>(&self, f: &mut fmt::Formatter<W>) -> fmt::Result {
        let verb = if self.0.amount() < 0 { "take" } else { "add" };
        let amount = Grams(self.0.amount().unsigned_abs());
        let floor = Grams(self.0.floor());
        let ceiling = Grams(self.0.ceiling());
        write!(f, "{verb} {amount} g (floor {floor}, ceiling {ceiling})")
    }
}

impl fmt::Display for Words<Settings> {
    fn fmt<W: fmt::Write>(&self, f: &mut fmt::Formatter<W>) -> fmt::Result {
        let names = ["batch", "nozzle", "plate", "profile"];
        write!(f, "set")?;
        for (name, field) in names.into_iter().zip(self.0.fields()) {
            if let Some(value) = field {
                write!(f, " {name} {value}")?;
            }
        }
        if self.0.mask() == 0 {
            write!(f, " nothing")?;
        }
        Ok(())
    }
}

impl fmt::Display for Words<Event> {
    fn fmt<W: fmt::Write>(&self, f: &mut fmt::Formatter<W>) -> fmt::Result {
        write!(f, "{}", self.0)
    }
}
