// The lines of an open record.
ghost use Rattle.std.specs.Prelude.{◌≡◌, ◌+◌, ◌*◌, ◌≤◌, true, length, Some};
ghost use Rattle.text.specs.Seen.{held, unread};
ghost use Rattle.commands.specs.Frames.{forms, command};
ghost use Rattle.law.specs.Runs.{opened};
ghost use Rattle.ledger.specs.Shown.{shown, Stands};
ghost use Rattle.session.specs.Saying.{bytes_of, written, said, asked, framed};
ghost use Rattle.session.specs.Serving.{Carried, Hears, Served};

use crate::Session;
use crate::talk::Talk;
use answers::{answer_line, flaw_line};
use calls::Call;
use commands::{Code, Command, read};
use digits::Line;
use ledger::Ledger;
use payloads::Payload;
use runs::carry_out;
use store::Store;
use text::{Flaw, Item};
use times::Time;

impl<E: Payload, T: Time, S: Store> Session<E, T, S> {
    // A record over a store, open and with nothing entered.
    pub fn open(store: S) -> Self
        ensures shown { shown E.Effect T.Time S.Store result.ledger ≡ opened (S.Store.meaning store) }
        ensures stands { Stands E.Effect T.Time S.Store result.ledger }
    {
        Session {
            ledger: Ledger::open(store),
        }
    }

    // The store, with all its cells.
    pub fn close(self) -> S
        ensures { S.Store.meaning result ≡ (shown E.Effect T.Time S.Store self.ledger).store }
    {
        let Session { ledger } = self;
        ledger.close()
    }

    // Carries out a call under the code of its frame, a byte as the answer has it, and answers the line of its reply. That a
    // line is short is said of each answer: it is true of what was answered, and not of every line.
    fn call(&mut self, code: u8, call: Call<E, T>) -> Line
        ensures stands { Stands E.Effect T.Time S.Store self.new.ledger }
        ensures carried { Carried E.Effect T.Time S.Store code call (Some result) self.old.ledger self.new.ledger }
        ensures short { length (written (Some result)) ≤ 27 }
    {
        let reply = carry_out(&mut self.ledger, call);
        answer_line::<E, T>(code, reply)
    }

    // Does what a command asks for.
    fn obey(&mut self, command: Command<E::Form, T>) -> Line
        ensures stands { Stands E.Effect T.Time S.Store self.old.ledger → Stands E.Effect T.Time S.Store self.new.ledger }
        ensures hears { Hears E.Effect T.Time S.Store (asked E.Payload.entered command) (Some result) self.old.ledger self.new.ledger }
        ensures short { length (written (Some result)) ≤ 27 }
    {
        match command {
            Command::Open { .. } => flaw_line(Flaw::BadCode),
            Command::Enter { time, payload } => {
                let effect = E::effect(payload);
                self.call(Code::Enter as u8, Call::Enter { time, effect })
            }
            Command::Withdraw { operation } => self.call(
                Code::Withdraw as u8,
                Call::Withdraw {
                    operation: u32::from(operation),
                },
            ),
            Command::State { belief, time } => self.call(
                Code::State as u8,
                Call::State {
                    belief: u32::from(belief),
                    time,
                },
            ),
            Command::Latest { belief, time } => self.call(
                Code::Latest as u8,
                Call::Latest {
                    belief: u32::from(belief),
                    time,
                },
            ),
            Command::Count { belief } => self.call(
                Code::Count as u8,
                Call::Count {
                    belief: u32::from(belief),
                },
            ),
        }
    }

    // Answers a frame.
    fn answer_frame(&mut self, frame: &[u8]) -> Line
        ensures stands { Stands E.Effect T.Time S.Store self.old.ledger → Stands E.Effect T.Time S.Store self.new.ledger }
        ensures hears { Hears E.Effect T.Time S.Store (framed E.Payload.entered (command (forms E.Payload.own T.Time) true frame.now)) (Some result) self.old.ledger self.new.ledger }
        ensures short { length (written (Some result)) ≤ 9 * (length frame.now + 1) }
    {
        match read::<E, T>(frame, true) {
            Ok(command) => self.obey(command),
            Err(flaw) => flaw_line(flaw),
        }
    }

    // Answers a line of the input: a remark is not answered and changes nothing, and a frame that is refused leaves the
    // ledger and its store as they were.
    pub fn answer(&mut self, item: Item) -> Option<Line>
        ensures stands { Stands E.Effect T.Time S.Store self.old.ledger → Stands E.Effect T.Time S.Store self.new.ledger }
        ensures hears { Hears E.Effect T.Time S.Store (said E.Payload.entered (forms E.Payload.own T.Time) (held item.entry)) result self.old.ledger self.new.ledger }
        ensures short { length (written result) ≤ 9 * (length (bytes_of (held item.entry)) + 1) }
    {
        match item {
            Item::Remark { .. } => None,
            Item::Frame { text, .. } => Some(self.answer_frame(text)),
        }
    }

    // Answers all lines that are left.
    pub(crate) fn answer_all(&mut self, talk: &mut Talk)
        ensures stands { Stands E.Effect T.Time S.Store self.old.ledger → Stands E.Effect T.Time S.Store self.new.ledger }
        ensures served { Served E.Payload.own E.Effect T.Time (unread talk.old.reader) talk.old.out.items talk.new.out.items (shown E.Effect T.Time S.Store self.old.ledger) (shown E.Effect T.Time S.Store self.new.ledger) }
    {
        while let Some(item) = talk.next_item() {
            talk.write(self.answer(item));
        }
    }
}
