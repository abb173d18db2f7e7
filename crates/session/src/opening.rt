// The lines of a record that is not open yet.
ghost use Rattle.std.specs.Prelude.{◌≡◌, ◌+◌, ◌*◌, ◌≤◌, length, Some};
ghost use Rattle.text.specs.Seen.{held, unread};
ghost use Rattle.session.specs.Saying.{bytes_of, written};
ghost use Rattle.session.specs.Whole.{opening_in, opened_by, heard_closed, until_opening, UpTo};

use crate::talk::Talk;
use answers::{flaw_line, opened_line};
use commands::{Command, Opening, read};
use counter::Counter;
use digits::Line;
use text::{Flaw, Item};
use times::Clock;

// The opening that a frame asks for, or why it asks for none. Before it nothing that has a kind is read.
fn read_opening(frame: &[u8]) -> Result<Opening, Flaw>
    ensures { result ≡ opening_in frame.now }
{
    match read::<Counter, Clock>(frame, false)? {
        Command::Open { opening } => Ok(opening),
        _ => Err(Flaw::BadCode),
    }
}

// Answers a frame, and gives the opening that it asks for.
fn answer_closed_frame(frame: &[u8]) -> (Line, Option<Opening>)
    ensures heard { (written (Some result.0), result.1) ≡ opened_by (opening_in frame.now) }
    ensures short { length (written (Some result.0)) ≤ 9 }
{
    match read_opening(frame) {
        Ok(opening) => (opened_line(), Some(opening)),
        Err(flaw) => (flaw_line(flaw), None),
    }
}

// Answers a line of the input, and gives the opening that it asks for: a remark is not answered.
fn answer_closed(item: Item) -> (Option<Line>, Option<Opening>)
    ensures heard { (written result.0, result.1) ≡ heard_closed (held item.entry) }
    ensures short { length (written result.0) ≤ 9 * (length (bytes_of (held item.entry)) + 1) }
{
    match item {
        Item::Remark { .. } => (None, None),
        Item::Frame { text, .. } => {
            let (line, opening) = answer_closed_frame(text);
            (Some(line), opening)
        }
    }
}

// Answers the lines up to an accepted opening.
pub(crate) fn answer_until_opening(talk: &mut Talk) -> Option<Opening>
    ensures { UpTo (until_opening (unread talk.old.reader)) result (unread talk.new.reader) talk.old.out.items talk.new.out.items }
{
    while let Some(item) = talk.next_item() {
        let (answer, opening) = answer_closed(item);
        talk.write(answer);
        if opening.is_some() {
            return opening;
        }
    }
    None
}
