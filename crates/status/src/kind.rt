// What transitions do to a status, and the words that they are kept as.
ghost use Rattle.std.specs.Prelude.{◌≡◌, false, map, Some, None, IsTrue};
ghost use Rattle.std.proofs.Common.{sym, ap, ◌∙◌};
ghost use Rattle.words.specs.declared.EffectWords.{EffectWords};
ghost use Rattle.status.specs.declared.Transitions.{Transitions};
ghost use Rattle.status.specs.declared.Status.TheVariants.{Off};
ghost use Rattle.status.specs.Codes.{code_of, status_of};
ghost use Rattle.status.specs.Turns.{turned, no_turns, joined};
ghost use Rattle.status.specs.Packing.{octal, digits, transitions_words, InRange, transitions_read, status_words};
ghost use Rattle.status.specs.Statuses.{unturned, turned_twice, status_of_code};
ghost use Rattle.status.specs.Octals.{transitions_reads_back, transitions_reads_only};

use super::{Status, Transitions};
use effects::Effect;
use std::array;
use words::{EffectWords, StateWords};

impl Status {
    pub fn code(self) -> u8
        ensures { result ≡ code_of self }
    {
        self as u8
    }

    // The status of a code. There is none above 7, which is taken for 7; `TryFrom` would have an error that never is.
    pub(crate) fn of_digit(digit: u8) -> Status
        ensures { result ≡ status_of digit }
    {
        match digit {
            0 => Status::Off,
            1 => Status::Idle,
            2 => Status::Heating,
            3 => Status::Printing,
            4 => Status::Paused,
            5 => Status::Cooling,
            6 => Status::Service,
            _ => Status::Fault,
        }
    }
}

impl Transitions {
    pub fn new(entries: [Status; 8]) -> Transitions
        ensures entries { result.entries ≡ entries }
        ensures same { (f : Transitions) → entries ≡ f.entries → result ≡ f }
    {
        Transitions { entries }
    }

    // Each status becomes itself.
    fn identity() -> Transitions
        ensures { result ≡ no_turns }
    {
        Transitions::new([
            Status::Off,
            Status::Idle,
            Status::Heating,
            Status::Printing,
            Status::Paused,
            Status::Cooling,
            Status::Service,
            Status::Fault,
        ])
    }

    // These transitions and then others, as a new array.
    fn then(self, second: Transitions) -> Transitions
        ensures { result ≡ joined self second }
    {
        Transitions::new(self.entries.map(|status| second.act(status)))
    }

    // The codes of the entries as one number, entry i times 8^i.
    fn to_octal(self) -> u64
        ensures { result ≡ octal (map code_of self.entries) }
    {
        self.entries
            .iter()
            .rev()
            .fold(0, |number, status| number * 8 + status.code() as u64)
    }

    // The transitions of the lowest eight octal digits of a number.
    fn from_octal(number: u64) -> Transitions
        ensures { (w : EffectWords) → InRange w → number ≡ w.first → Some result ≡ transitions_read w }
    {
        Transitions::new(octal_statuses(number))
    }
}

// The statuses of the lowest eight octal digits, the lowest first.
fn octal_statuses(number: u64) -> [Status; 8]
    ensures { result ≡ map status_of (digits 8 number) }
{
    array::from_fn(|i| Status::of_digit(((number >> (3 * i)) % 8) as u8))
}

// Whether words are those of transitions.
fn in_range(stored: EffectWords) -> bool
    ensures inside { IsTrue result → InRange stored }
    ensures outside { result ≡ false → transitions_read stored ≡ None }
{
    stored.first < 1 << 24 && stored.second == 0
}

impl Effect for Transitions {
    type State = Status;

    ghost start = { Off };

    ghost acts = { turned };

    ghost unchanged = { no_turns };

    ghost composed = { joined };

    ghost words = { transitions_words };

    ghost reads = { transitions_read };

    ghost written = { status_words };

    ghost rests = { λ s. unturned s };

    ghost follows = { λ f g s. turned_twice f g s };

    ghost back = { λ f. transitions_reads_back f };

    ghost only = { λ w f is. transitions_reads_only w f is };

    ghost states = { λ s t is. sym (status_of_code s) ∙ ap (λ w. status_of w.first) is ∙ status_of_code t };

    fn start_state() -> Status {
        Status::of_digit(0)
    }

    fn no_change() -> Transitions {
        Transitions::identity()
    }

    fn act(self, status: Status) -> Status {
        self.entries[status.code() as usize]
    }

    fn compose(self, second: Transitions) -> Transitions {
        self.then(second)
    }

    fn to_words(self) -> EffectWords {
        EffectWords {
            first: self.to_octal(),
            second: 0,
        }
    }

    fn from_words(stored: EffectWords) -> Option<Transitions> {
        in_range(stored).then(|| Transitions::from_octal(stored.first))
    }

    fn state_words(status: Status) -> StateWords {
        StateWords {
            first: status.code() as u64,
        }
    }
}
