// Reading a command from a line.
ghost use Rattle.std.specs.Prelude.{◌≡◌, ◌+◌, ◌*◌, ◌<◌, ◌≤◌, length, Ok, Err};
ghost use Rattle.text.specs.declared.flaw.Flaw.{Flaw};
ghost use Rattle.text.specs.declared.flaw.Flaw.TheVariants.{WrongLength, NoTime, OutOfRange};
ghost use Rattle.text.specs.Flaws.{number_and_place};
ghost use Rattle.commands.specs.declared.command.Command.{Command};
ghost use Rattle.commands.specs.Codes.{code_byte};
ghost use Rattle.commands.specs.Frames.{forms, place_of, opening_of, number_of, entry_of, question_of, command_of, command_in, command, written};

use crate::command::{Code, Command, EffectKind, Opening, TimeKind};
use crate::frame::Frame;
use big_endian::split;
use digits::decode;
use payloads::Payload;
use text::Flaw;
use times::Time;

// Where parts stand in their frame, in bytes from 0, and how many bytes they have.
const EFFECTS_AT: usize = 1;

const TIMES_AT: usize = 2;

const ENTRY_TIME_AT: usize = 1;

const PAYLOAD_AT: usize = ENTRY_TIME_AT + 8;

const QUESTION_TIME_AT: usize = 3;

impl Frame<'_> {
    // The refusal of a body that has not the length that its code wants: the place is the length of the line.
    fn wrong_length(&self) -> Flaw
        ensures { result ≡ WrongLength (code_byte self.now.code) (2 * (length self.now.body.now + 1)) }
    {
        Flaw::WrongLength {
            code: self.code as u8,
            length: 2 * (self.body.len() + 1),
        }
    }

    // The refusal of a byte that is out of its range, where it stands in the frame.
    fn out_of_range(&self, at: usize) -> Flaw
        requires { at < 32 }
        ensures { result ≡ OutOfRange (code_byte self.now.code) (place_of at) }
    {
        Flaw::OutOfRange {
            code: self.code as u8,
            place: 2 * at,
        }
    }

    // The refusal of a time that is none of the record's, where it stands in the frame.
    fn no_time(&self, at: usize) -> Flaw
        requires { at < 32 }
        ensures { result ≡ NoTime (code_byte self.now.code) (place_of at) }
    {
        Flaw::NoTime {
            code: self.code as u8,
            place: 2 * at,
        }
    }

    // The opening that a body asks for.
    #[tactic(auto, using(crate::proofs::Exits::opening_read))]
    fn opening(&self) -> Result<Opening, Flaw>
        ensures { result ≡ opening_of (code_byte self.now.code) self.now.body.now }
    {
        let [effects, times, high, low] = self.body else {
            return Err(self.wrong_length());
        };
        let effects = EffectKind::try_from(*effects).or(Err(self.out_of_range(EFFECTS_AT)))?;
        let times = TimeKind::try_from(*times).or(Err(self.out_of_range(TIMES_AT)))?;
        Ok(Opening {
            effects,
            times,
            quota: u16::from_be_bytes([*high, *low]),
        })
    }

    // The number that is the whole of a body.
    fn number(&self) -> Result<u16, Flaw>
        ensures { result ≡ number_of (code_byte self.now.code) self.now.body.now }
    {
        match split::<u16, 2>(self.body) {
            Some((number, [])) => Ok(number),
            _ => Err(self.wrong_length()),
        }
    }

    // The belief and the time of a question.
    fn question<T: Time>(&self) -> Result<(u16, T), Flaw>
        ensures { result ≡ question_of T.Time.reads (code_byte self.now.code) self.now.body.now }
    {
        let (belief, rest) = split::<u16, 2>(self.body).ok_or(self.wrong_length())?;
        let Some((word, [])) = split::<u64, 8>(rest) else {
            return Err(self.wrong_length());
        };
        let time = T::from_word(word).ok_or(self.no_time(QUESTION_TIME_AT))?;
        Ok((belief, time))
    }

    // The time and the payload of an entry.
    fn entry<E: Payload, T: Time>(&self) -> Result<(T, E::Form), Flaw>
        ensures { result ≡ entry_of (forms E.Payload.own T.Time) (code_byte self.now.code) self.now.body.now }
    {
        let (word, rest) = split::<u64, 8>(self.body).ok_or(self.wrong_length())?;
        if rest.len() != E::size_of(rest) {
            return Err(self.wrong_length());
        }
        let time = T::from_word(word).ok_or(self.no_time(ENTRY_TIME_AT))?;
        let payload = E::parse(rest).ok_or(self.out_of_range(PAYLOAD_AT))?;
        Ok((time, payload))
    }

    // The command of a frame, where the record is opened or not.
    fn command<E: Payload, T: Time>(&self, opened: bool) -> Result<Command<E::Form, T>, Flaw>
        ensures { result ≡ command_of (forms E.Payload.own T.Time) opened self.now.code self.now.body.now }
    {
        match (opened, self.code) {
            (false, Code::Open) => Ok(Command::Open {
                opening: self.opening()?,
            }),
            (true, Code::Enter) => {
                let (time, payload) = self.entry::<E, T>()?;
                Ok(Command::Enter { time, payload })
            }
            (true, Code::Withdraw) => Ok(Command::Withdraw {
                operation: self.number()?,
            }),
            (true, Code::State) => {
                let (belief, time) = self.question::<T>()?;
                Ok(Command::State { belief, time })
            }
            (true, Code::Latest) => {
                let (belief, time) = self.question::<T>()?;
                Ok(Command::Latest { belief, time })
            }
            (true, Code::Count) => Ok(Command::Count {
                belief: self.number()?,
            }),
            _ => Err(Flaw::BadCode),
        }
    }
}

// The command whose bytes a frame has, where the record is opened or not.
fn command_in<E: Payload, T: Time>(bytes: &[u8], opened: bool) -> Result<Command<E::Form, T>, Flaw>
    requires { length bytes.now ≤ 32 }
    ensures { result ≡ command_in (forms E.Payload.own T.Time) opened bytes.now }
{
    let (code, body) = bytes.split_first().ok_or(Flaw::BadCode)?;
    let code = Code::try_from(*code).or(Err(Flaw::BadCode))?;
    Frame { code, body }.command::<E, T>(opened)
}

// The command that a line asks for, where the record is opened or not.
fn command_on<E: Payload, T: Time>(line: &[u8], opened: bool) -> Result<Command<E::Form, T>, Flaw>
    ensures command { result ≡ command (forms E.Payload.own T.Time) opened line.now }
    ensures again { (c : Command E.Form T) → result ≡ Ok c → written (forms E.Payload.own T.Time) c ≡ line.now }
{
    let frame = decode(line)?;
    command_in::<E, T>(frame.as_slice(), opened)
}

// The command that a line asks for, where the record is opened or not, or why it asks for none: all that reading has to know
// of a record is that one bool. An accepted line written again is the same line; the place of a refusal is at most 64.
pub fn read<E: Payload, T: Time>(line: &[u8], opened: bool) -> Result<Command<E::Form, T>, Flaw>
    ensures command { result ≡ command (forms E.Payload.own T.Time) opened line.now }
    ensures again { (c : Command E.Form T) → result ≡ Ok c → written (forms E.Payload.own T.Time) c ≡ line.now }
    ensures near { (f : Flaw) → result ≡ Err f → (number_and_place f).1 ≤ 64 }
{
    command_on::<E, T>(line, opened)
}
