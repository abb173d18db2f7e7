// A printer's shift: effects of all three kinds in order, printed step by step as a person reads them, and then the
// same states by one composed effect a kind.
#![tactic(auto)]

use anyhow::{Context, anyhow};
use cases::spool_left;
use counter::{Counter, Level};
use effects::{Effect, composition_agrees};
use settings::Settings;
use status::{Event, Transitions};
use std::alloc::{AllocError, Global};
use std::fmt::Display;
use std::io;

// The grams of a level, and the hundredths of one more. No `Display`, which would have to pad what it writes.
fn in_grams(level: Level) -> (u32, u32) {
    (level.hundredths() / 100, level.hundredths() % 100)
}

// The effects of one kind during a shift, first to last, and the state that they lead to.
#[derive(Drop)]
struct Track<E: Effect> {
    state: E::State,
    effects: Vec<E>,
}

impl<E: Effect> Track<E> {
    fn begin(heap: Global) -> Track<E> {
        Track {
            state: E::start_state(),
            effects: Vec::new(heap),
        }
    }

    fn enter(&mut self, effect: E) -> Result<(), AllocError> {
        self.state = effect.act(self.state);
        self.effects.push(effect)?;
        Ok(())
    }

    // Whether the effects in turn and their composition lead to one state.
    fn composed_alike(&self) -> bool {
        composition_agrees(E::start_state(), &self.effects)
    }
}

// A printer during a shift: what it has, is set up with and does.
#[derive(Drop)]
struct Shift {
    material: Track<Counter>,
    fittings: Track<Settings>,
    status: Track<Transitions>,
}

impl Shift {
    fn begin(heap: Global) -> Shift {
        Shift {
            material: Track::begin(heap),
            fittings: Track::begin(heap),
            status: Track::begin(heap),
        }
    }

    fn material(&mut self, amount: i32, floor: u32, ceiling: u32) -> anyhow::Result<()> {
        let counter = Counter::new(amount, floor, ceiling).context("a counter is out of bounds")?;
        self.material.enter(counter)?;
        Ok(())
    }

    fn fit(&mut self, fields: [Option<u16>; 4]) -> anyhow::Result<()> {
        self.fittings.enter(Settings::from(fields))?;
        Ok(())
    }

    // An event, and the printer behind it.
    fn event(&mut self, rt: &impl Print, event: Event) -> anyhow::Result<()> {
        self.status.enter(event.transitions())?;
        self.print(rt, event)?;
        Ok(())
    }

    // The printer as a person reads it, behind what happened.
    fn print(&self, rt: &impl Print, what: impl Display + Drop) -> io::Result<()> {
        let (grams, rest) = in_grams(self.material.state);
        let (batch, nozzle, plate, profile) = self.fittings.state.fields();
        let status = self.status.state;
        println!(rt;
            "{what:<44}{grams:>6}.{rest:02} g  {status:<9} batch {batch}, nozzle {nozzle}, plate {plate}, profile {profile}"
        )
    }

    // Whether, for each kind, the effects in turn and their composition lead to one state.
    fn composed_alike(&self) -> bool {
        self.material.composed_alike()
            && self.fittings.composed_alike()
            && self.status.composed_alike()
    }
}

fn morning(rt: &HostRuntime, shift: &mut Shift) -> anyhow::Result<()> {
    shift.event(rt, Event::PowerOn)?;
    shift.fit([Some(7), Some(4), Some(12), Some(3)])?;
    shift.print(rt, "fit batch 7, nozzle 4, plate 12, profile 3")?;
    shift.material(0, 100_000, 100_000)?;
    shift.print(rt, "new spool of 1000.00 g")?;
    shift.event(rt, Event::Heat)?;
    shift.event(rt, Event::Start)?;
    shift.material(-30_000, 0, 1_000_000)?;
    shift.print(rt, "print specimens, 300.00 g")?;
    Ok(())
}

fn afternoon(rt: &HostRuntime, shift: &mut Shift) -> anyhow::Result<()> {
    shift.event(rt, Event::Pause)?;
    shift.fit([Some(9), None, None, None])?;
    shift.print(rt, "fit batch 9")?;
    shift.material(25_000, 0, 1_000_000)?;
    shift.print(rt, "refill of 250.00 g")?;
    shift.event(rt, Event::Resume)?;
    shift.material(-90_000, 0, 1_000_000)?;
    shift.print(rt, "print specimens, 900.00 g")?;
    shift.event(rt, Event::EndOfJob)?;
    Ok(())
}

fn run(rt: &HostRuntime) -> anyhow::Result<()> {
    let mut shift = Shift::begin(rt.alloc());
    shift.print(rt, "before the shift")?;
    morning(rt, &mut shift)?;
    afternoon(rt, &mut shift)?;
    if !shift.composed_alike() {
        return Err(anyhow!("a composed effect leads to another state"));
    }
    println!(rt; "by one composed effect a kind: the same states")?;
    let left = spool_left().context("a counter is out of bounds")?;
    let (grams, rest) = in_grams(left);
    println!(rt; "a spool of 1000.00 g less 300.00 g: {grams}.{rest:02} g")?;
    Ok(())
}

fn main(rt: HostRuntime) -> anyhow::Result<()> {
    run(&rt)
}
