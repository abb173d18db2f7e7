// The payload of a counter: amount, floor and ceiling.
ghost use Rattle.std.specs.Prelude.{◌≡◌, ◌+◌, ◌≤◌, ◌++◌, length};
ghost use Rattle.big_endian.specs.Numbers.{bytes_of};
ghost use Rattle.times.specs.Places.{twos_complement, signed};
ghost use Rattle.payloads.specs.Counters.{counter_layout, counter_parsed};
ghost use Rattle.payloads.specs.Counting.{counter_again, counter_exact};
ghost use Rattle.std.proofs.Common.{rules};

use crate::payload::Payload;
use big_endian::{BigEndian, split};
use counter::Counter;
use digits::Bytes;

// A counter's amount in two's complement.
fn amount_bits(counter: Counter) -> u32
    ensures { result ≡ twos_complement counter.amount }
{
    counter.amount().cast_unsigned()
}

// The amount whose two's complement a number is.
fn amount_of(number: u32) -> i32
    ensures { result ≡ signed number }
{
    number.cast_signed()
}

// Appends the bytes of a number, where there is room.
fn append_number(number: u32, out: &mut Bytes)
    requires { length out.old + 4 ≤ 32 }
    ensures { out.new ≡ out.old ++ bytes_of 4 number }
{
    out.append(&number.to_bytes());
}

impl Payload for Counter {
    type Form = Counter;

    ghost entered = { λ counter. counter };

    ghost layout = { counter_layout };

    ghost size = { λ _. 12 };

    ghost parsed = { counter_parsed };

    ghost short = { Prim.search rules };

    ghost sized = { Prim.search rules };

    ghost again = { λ p rest. counter_again p rest };

    ghost exact = { λ bs p u is. counter_exact bs p u is };

    fn effect(form: Counter) -> Counter {
        form
    }

    fn size_of(_start: &[u8]) -> usize {
        12
    }

    #[tactic(auto, using(crate::specs::Counting::counter_made))]
    fn parse(bytes: &[u8]) -> Option<Counter> {
        let (amount, rest) = split::<u32, 4>(bytes)?;
        let (floor, rest) = split(rest)?;
        let (ceiling, _) = split(rest)?;
        Counter::new(amount_of(amount), floor, ceiling)
    }

    fn append(form: Counter, out: &mut Bytes) {
        append_number(amount_bits(form), out);
        append_number(form.floor(), out);
        append_number(form.ceiling(), out);
    }
}
