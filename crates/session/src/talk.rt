// The lines that are left to answer, and the output for the answers.
ghost use Rattle.std.specs.Prelude.{◌≡◌, ◌+◌, ◌≤◌, ◌++◌, [], length, IfOk, vec_len, vec_capacity};
ghost use Rattle.text.specs.Cut.{lines_from};
ghost use Rattle.text.specs.Seen.{unread, Takes};
ghost use Rattle.session.specs.Saying.{written};
ghost use Rattle.session.specs.Room.{room_for, room_for_all};

use digits::Line;
use std::alloc::{AllocError, Global};
use text::{Item, Reader};

// A reader, and an output that has room for the answers to the lines that the reader has not given yet.
#[derive(Drop)]
pub(crate) struct Talk<'a> {
    pub(crate) reader: Reader<'a>,
    pub(crate) out: Vec<u8>,
    ghost room: { vec_len out + room_for_all (unread reader) ≤ vec_capacity out },
}

impl<'a> Talk<'a> {
    // All lines of an input, and an empty output.
    pub(crate) fn open(heap: Global, input: &'a [u8]) -> Result<Talk<'a>, AllocError>
        requires { length input.now ≤ 32768 }
        ensures { IfOk result (λ talk. (unread talk.reader ≡ lines_from 0 input.now) × (talk.out.items ≡ [])) }
    {
        let out = Vec::with_capacity(heap, 9 * (input.len() + 1))?;
        Ok(Talk {
            reader: Reader::new(input),
            out,
        })
    }

    // The next line, if one is left, for whose answer there is room.
    pub(crate) fn next_item(&mut self) -> Option<Item<'a>>
        ensures takes { Takes (unread self.old.reader) result (unread self.new.reader) }
        ensures room { vec_len self.new.out + room_for result + room_for_all (unread self.new.reader) ≤ vec_capacity self.new.out }
        ensures items { self.new.out.items ≡ self.old.out.items }
    {
        self.reader.next()
    }

    // Appends an answer, if there is one, for which there is room.
    pub(crate) fn write(&mut self, answer: Option<Line>)
        requires { vec_len self.old.out + length (written answer) + room_for_all (unread self.old.reader) ≤ vec_capacity self.old.out }
        ensures left { unread self.new.reader ≡ unread self.old.reader }
        ensures items { self.new.out.items ≡ self.old.out.items ++ written answer }
    {
        if let Some(line) = answer {
            let _ = self.out.extend_from_slice(line.as_slice());
        }
    }
}
