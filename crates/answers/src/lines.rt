// Writing the answer to a line.
ghost use Rattle.std.specs.Prelude.{◌≡◌, ◌≤◌, [], ◌∷◌, length, Result};
ghost use Rattle.big_endian.specs.Numbers.{bytes_of};
ghost use Rattle.digits.specs.Hex.{encoded};
ghost use Rattle.calls.specs.declared.answer.Answer.{Answer};
ghost use Rattle.calls.specs.declared.refusal.Refusal.{Refusal};
ghost use Rattle.answers.specs.Lines.{shown, latest_body, body, answer_bytes, flaw_bytes, told, SameCall, Fits};

use big_endian::BigEndian;
use calls::{Answer, Refusal};
use digits::{Bytes, Line};
use effects::Effect;
use text::Flaw;
use times::Time;

// The two lowest bytes of a number.
fn low_bytes(number: u64) -> [u8; 2]
    ensures { result ≡ bytes_of 2 number }
{
    ((number % 65_536) as u16).to_bytes()
}

// A code, a byte and a body.
fn framed(code: u8, byte: u8, body: &[u8]) -> Bytes
    requires { length body.now ≤ 30 }
    ensures { result ≡ code ∷ (byte ∷ body.now) }
{
    let mut out = Bytes::new();
    out.append(&[code, byte]);
    out.append(body);
    out
}

// The answer to an accepted opening.
pub fn opened_line() -> Line
    ensures { result ≡ encoded (0x01 ∷ (0x00 ∷ [])) }
{
    framed(0x01, 0x00, &[]).to_line()
}

// The answer to a line that asks for nothing: its flaw.
pub fn flaw_line(flaw: Flaw) -> Line
    ensures { result ≡ encoded (flaw_bytes flaw) }
{
    let (number, place) = flaw.number_and_place();
    framed(flaw.code(), number, &low_bytes(place as u64)).to_line()
}

// The bytes of the answer to a question for the latest operation.
fn latest_bytes<T: Time>(code: u8, latest: Option<(u32, T)>) -> Bytes
    ensures { result ≡ code ∷ (0x00 ∷ latest_body T.Time.word latest) }
{
    match latest {
        None => framed(code, 0x00, &[0x00]),
        Some((number, time)) => {
            let mut out = framed(code, 0x00, &[0x01]);
            out.append(&low_bytes(u64::from(number)));
            out.append(&time.to_word().to_bytes());
            out
        }
    }
}

// The bytes of a good answer.
fn good_bytes<E: Effect, T: Time>(code: u8, answer: Answer<E::State, T>) -> Bytes
    ensures { result ≡ code ∷ (0x00 ∷ body (shown E.Effect T.Time) answer) }
{
    match answer {
        Answer::Changed((belief, _)) => framed(code, 0x00, &low_bytes(u64::from(belief))),
        Answer::InState(state) => framed(code, 0x00, &E::state_words(state).first.to_bytes()),
        Answer::Newest(latest) => latest_bytes(code, latest),
        Answer::Counted(count) => framed(code, 0x00, &low_bytes(u64::from(count))),
    }
}

// The bytes of an answer.
fn answer_frame<E: Effect, T: Time>(code: u8, answer: Result<Answer<E::State, T>, Refusal>) -> Bytes
    ensures { result ≡ answer_bytes (shown E.Effect T.Time) code answer }
{
    match answer {
        Ok(good) => good_bytes::<E, T>(code, good),
        Err(refusal) => {
            let (number, place) = refusal.number_and_place();
            framed(code, number, &low_bytes(u64::from(place)))
        }
    }
}

// The answer to a command of a code, a byte: a narrower type would ask more of callers. Two answers to one command that differ in what a line tells have different lines.
pub fn answer_line<E: Effect, T: Time>(
    code: u8,
    answer: Result<Answer<E::State, T>, Refusal>,
) -> Line
    ensures digits { result ≡ encoded (answer_bytes (shown E.Effect T.Time) code answer) }
    ensures apart { (other : Result (Answer E.State T) Refusal) → SameCall answer other → Fits (shown E.Effect T.Time) answer → Fits (shown E.Effect T.Time) other → encoded (answer_bytes (shown E.Effect T.Time) code other) ≡ result → told other ≡ told answer }
{
    answer_frame::<E, T>(code, answer).to_line()
}
