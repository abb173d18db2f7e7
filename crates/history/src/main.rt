// One printer through a correction: entries, a late one, and a wrong batch withdrawn after questions had been answered.
// What was believed before and what is believed after are both asked, and told with the cells that each change took.
#![tactic(auto)]

use anyhow::Context;
use bases::Image;
use calls::{Answer, Call, Refusal};
use layers::{Cache, Quota};
use runs::run;
use settings::{Settings, Setup};
use std::fmt;
use times::Clock;

fn clock(seconds: u64) -> anyhow::Result<Clock> {
    Clock::new(seconds).context("the clock does not go so far")
}

// The entry of what was fitted: batch, nozzle, plate and profile, each where it is new.
fn fit(seconds: u64, fields: [Option<u16>; 4]) -> anyhow::Result<Call<Settings, Clock>> {
    let time = clock(seconds)?;
    let effect = Settings::from(fields);
    Ok(Call::Enter { time, effect })
}

// What was answered, told in words.
#[derive(Drop)]
struct Told(Result<Answer<Setup, Clock>, Refusal>);

impl fmt::Display for Told {
    fn fmt<W: fmt::Write>(&self, f: &mut fmt::Formatter<W>) -> fmt::Result {
        match self.0 {
            Ok(Answer::Changed((belief, cells))) => write!(f, "belief {belief}, {cells} cells"),
            Ok(Answer::InState(setup)) => {
                let (batch, _, plate, _) = setup.fields();
                write!(f, "batch {batch}, plate {plate}")
            }
            Ok(Answer::Newest(Some(found))) => {
                let seconds = found.1.seconds();
                write!(f, "operation {} at {seconds} s", found.0)
            }
            Ok(Answer::Newest(None)) => write!(f, "none"),
            Ok(Answer::Counted(count)) => write!(f, "{count}"),
            Err(refusal) => {
                let (number, place) = refusal.number_and_place();
                write!(f, "refused with {number:02x} at {place}")
            }
        }
    }
}

// Carries out the calls in order, and tells what was answered to each beside what was asked in words.
fn tell(rt: &HostRuntime, steps: &[(&str, Call<Settings, Clock>)]) -> anyhow::Result<()> {
    let bytes = vec![in rt.alloc(); 0u8; 44_800]?;
    let store = Cache::open(Quota::open(Image::open(bytes), 800));
    let calls: Vec<_> = steps.iter().map(|step| step.1).collect(rt.alloc())?;
    let (_ledger, answers) = run(rt.alloc(), store, calls.as_slice())?;
    for (step, answer) in steps.iter().zip(answers) {
        println!(rt; "{:<42}{}", step.0, Told(answer))?;
    }
    Ok(())
}

fn main(rt: HostRuntime) -> anyhow::Result<()> {
    let first = fit(10, [Some(7), None, Some(12), None])?;
    let second = fit(40, [Some(9), None, None, None])?;
    let late = fit(20, [None, None, Some(15), None])?;
    let withdrawal = Call::Withdraw { operation: 2 };
    let time = clock(50)?;
    let set_up = |belief| Call::State { belief, time };
    let newest = Call::Latest { belief: 4, time };
    let count = Call::Count { belief: 4 };
    // what is asked, and the call that stands behind it
    let steps = [
        ("at 10 s: batch 7 fitted, plate 12", first),
        ("at 40 s: batch 9 fitted", second),
        ("believed at 2: set up at 50 s?", set_up(2)),
        ("late, at 20 s: plate 15 fitted", late),
        ("believed at 3: set up at 50 s?", set_up(3)),
        ("batch 9 was wrong: withdraw operation 2", withdrawal),
        ("believed at 2: set up at 50 s?", set_up(2)),
        ("believed at 4: set up at 50 s?", set_up(4)),
        ("believed at 4: last change by 50 s?", newest),
        ("believed at 4: how many operations?", count),
        ("withdraw operation 2 again", withdrawal),
    ];
    tell(&rt, &steps)
}
