// Writing a command as a line.
ghost use Rattle.std.specs.Prelude.{◌≡◌, ◌+◌, ◌≤◌, [], ◌∷◌, ◌++◌, length, Ok};
ghost use Rattle.big_endian.specs.Numbers.{bytes_of};
ghost use Rattle.commands.specs.declared.command.Command.TheVariants.{Enter};
ghost use Rattle.commands.specs.Codes.{code_byte};
ghost use Rattle.commands.specs.Frames.{forms, frame, written, command, wants_open, Narrow};

use crate::command::{Code, Command};
use big_endian::BigEndian;
use digits::{Bytes, Line};
use payloads::Payload;
use times::Time;

// A code and the two parts of its body.
fn framed(code: Code, head: &[u8], tail: &[u8]) -> Bytes
    requires { length head.now + length tail.now ≤ 31 }
    ensures { result ≡ code_byte code ∷ (head.now ++ tail.now) }
{
    let mut frame = Bytes::new();
    frame.push(code as u8);
    frame.append(head);
    frame.append(tail);
    frame
}

// The bytes of an entry.
fn entry_bytes<E: Payload, T: Time>(time: T, payload: E::Form) -> Bytes
    ensures { result ≡ frame (forms E.Payload.own T.Time) (Enter time payload) }
{
    let mut frame = framed(Code::Enter, &time.to_word().to_bytes(), &[]);
    E::append(payload, &mut frame);
    frame
}

// The bytes of a question.
fn question_bytes<T: Time>(code: Code, belief: u16, time: T) -> Bytes
    ensures { result ≡ code_byte code ∷ (bytes_of 2 belief ++ bytes_of 8 (T.Time.word time)) }
{
    framed(code, &belief.to_bytes(), &time.to_word().to_bytes())
}

// The bytes of a command.
fn frame_of<E: Payload, T: Time>(asked: Command<E::Form, T>) -> Bytes
    ensures bytes { result ≡ frame (forms E.Payload.own T.Time) asked }
    ensures narrow { Narrow asked }
{
    match asked {
        Command::Open { opening } => {
            let kinds = [opening.effects as u8, opening.times as u8];
            framed(Code::Open, &kinds, &opening.quota.to_bytes())
        }
        Command::Enter { time, payload } => entry_bytes::<E, T>(time, payload),
        Command::Withdraw { operation } => framed(Code::Withdraw, &operation.to_bytes(), &[]),
        Command::State { belief, time } => question_bytes(Code::State, belief, time),
        Command::Latest { belief, time } => question_bytes(Code::Latest, belief, time),
        Command::Count { belief } => framed(Code::Count, &belief.to_bytes(), &[]),
    }
}

// A command as a line, which is read as the command again.
pub fn write<E: Payload, T: Time>(asked: Command<E::Form, T>) -> Line
    ensures digits { result ≡ written (forms E.Payload.own T.Time) asked }
    ensures back { command (forms E.Payload.own T.Time) (wants_open asked) (result) ≡ Ok asked }
{
    frame_of::<E, T>(asked).to_line()
}
