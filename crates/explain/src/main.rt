// Says in words what each line of an input asks for, or which refusal of a line it would get and where. It opens no
// ledger: what a ledger would answer to a command it cannot know.
#![tactic(auto)]

mod wording;

use commands::{Command, EffectKind, Opening, TimeKind, read};
use counter::Counter;
use payloads::Payload;
use settings::Settings;
use status::Transitions;
use std::alloc::AllocError;
use std::fmt;
use std::io::Read;
use text::{Flaw, Item, Reader, check_length};
use times::{Clock, Place, Time};
use wording::Words;

// How many characters of a line are shown, and the last place that is marked.
const SHOWN: usize = 80;

// A line of the input, with its number and where it is explained.
#[derive(Clone, Copy)]
struct Line<'a> {
    rt: &'a HostRuntime,
    number: usize,
    text: &'a [u8],
}

impl Line<'_> {
    // The characters: what is no printable character of ASCII is shown as '?'.
    fn shown(self) -> Result<String, AllocError> {
        self.text
            .iter()
            .take(SHOWN)
            .map(|byte| match *byte {
                b' '..=b'~' => char::from(*byte),
                _ => '?',
            })
            .collect(self.rt.alloc())
    }

    // Prints a refusal, with its place marked.
    fn refuse(self, flaw: Flaw) -> anyhow::Result<()> {
        let Line { rt, number, .. } = self;
        let (refusal, place) = flaw.number_and_place();
        println!(rt; "line {number}: refused with {refusal:02x} at {place}: {flaw}")?;
        println!(rt; "  {}", self.shown()?)?;
        let width = place.min(SHOWN) + 1;
        println!(rt; "  {:>width$}", '^')?;
        Ok(())
    }

    // Prints what is asked for where the record is opened or not, and answers the opening that is asked for.
    fn explain<E: Payload, T: Time>(self, opened: bool) -> anyhow::Result<Option<Opening>>
    where
        Words<E::Form>: fmt::Display,
        T: fmt::Display,
    {
        match read::<E, T>(self.text, opened) {
            Ok(command) => {
                let Line { rt, number, .. } = self;
                println!(rt; "line {number}: {}", Words(command))?;
                match command {
                    Command::Open { opening } => Ok(Some(opening)),
                    _ => Ok(None),
                }
            }
            Err(flaw) => {
                self.refuse(flaw)?;
                Ok(None)
            }
        }
    }

    // Prints what is asked for in a record that is open with effects E.
    fn explain_on<E: Payload>(self, times: TimeKind) -> anyhow::Result<()>
    where
        Words<E::Form>: fmt::Display,
    {
        match times {
            TimeKind::Clock => self.explain::<E, Clock>(true)?,
            TimeKind::Place => self.explain::<E, Place>(true)?,
        };
        Ok(())
    }

    // Prints what is asked for in a record that is open with kinds.
    fn explain_open(self, kinds: Opening) -> anyhow::Result<()> {
        match kinds.effects {
            EffectKind::Counter => self.explain_on::<Counter>(kinds.times),
            EffectKind::Settings => self.explain_on::<Settings>(kinds.times),
            EffectKind::Status => self.explain_on::<Transitions>(kinds.times),
        }
    }
}

// Prints what each line of an input asks for.
fn explain_input(rt: &HostRuntime, input: &[u8]) -> anyhow::Result<()> {
    let mut opened: Option<Opening> = None;
    for (number, item) in (1..).zip(Reader::new(input)) {
        match item {
            Item::Remark { .. } => println!(rt; "line {number}: remark")?,
            Item::Frame { text, .. } => {
                let line = Line { rt, number, text };
                match opened {
                    Some(kinds) => line.explain_open(kinds)?,
                    // Before the record is open, nothing that has a kind is read.
                    None => opened = line.explain::<Counter, Clock>(false)?,
                }
            }
        }
    }
    println!(rt; "What a ledger would answer cannot be told from the lines.")?;
    Ok(())
}

fn run(rt: &HostRuntime) -> anyhow::Result<()> {
    let mut input = Vec::new(rt.alloc());
    rt.stdin().read_to_end(&mut input)?;
    if let Err(flaw) = check_length(input.as_slice()) {
        let (refusal, place) = flaw.number_and_place();
        println!(rt; "the input is refused with {refusal:02x} at {place}: {flaw}")?;
        return Ok(());
    }
    explain_input(rt, input.as_slice())
}

fn main(rt: HostRuntime) -> anyhow::Result<()> {
    run(&rt)
}
