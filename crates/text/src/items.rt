// Taking the lines of an input, one after the other.
ghost use Rattle.std.specs.Prelude.{◌≡◌, ◌+◌, ◌≤◌, min, length, drop, position, ◌==◌, nat_le};
ghost use Rattle.text.specs.Cut.{lines_from, line_length, length_checked, part, Whole};
ghost use Rattle.text.specs.Seen.{unread, held, Takes, Cuts};
ghost use Rattle.std.specs.Iterator.{at_most};

use crate::flaw::Flaw;
use crate::reader::{Item, Limits, Reader};

// The most bytes that an input may have.
pub const LONGEST_INPUT: usize = 32_768;

// Refuses an input that is too long.
pub fn check_length(input: &[u8]) -> Result<(), Flaw>
    ensures { result ≡ length_checked input.now }
{
    if input.len() > LONGEST_INPUT {
        return Err(Flaw::LongInput);
    }
    Ok(())
}

// Holds a reader's limits narrowed to one line. Where it ends, however that comes, the reader stands past the line and may
// read up to the input's end again.
struct LineGuard<'l> {
    limits: &'l mut Limits,
    input_end: usize,
}

impl<'l> LineGuard<'l> {
    fn narrow(limits: &'l mut Limits, line_end: usize) -> LineGuard<'l>
        ensures narrowed { result.limits.now.end ≡ line_end }
        ensures stays { result.limits.now.at ≡ limits.old.at }
        ensures past { result.input_end ≡ limits.old.end }
        ensures lent { result.limits.ghost_name ≡ limits.entry.ghost_name }
    {
        let input_end = limits.end;
        limits.end = line_end;
        LineGuard { limits, input_end }
    }
}

impl Drop for LineGuard<'_> {
    fn drop(self)
        ensures end { self.exit.0.now.end ≡ self.entry.input_end }
        ensures at { self.exit.0.now.at ≡ min (self.entry.limits.now.end + 1) self.entry.input_end }
    {
        let LineGuard { limits, input_end } = self;
        limits.at = limits.end.saturating_add(1).min(input_end);
        limits.end = input_end;
    }
}

// Where the first newline stands, if there is one.
fn first_newline(bytes: &[u8]) -> Option<usize>
    ensures { result ≡ position (λ b. b == 10) bytes.now }
{
    bytes.iter().position(|byte| *byte == b'\n')
}

// Where the line that begins at `at` ends: at the next newline, or at the end of the input.
fn line_end(input: &[u8], at: usize) -> usize
    requires { at ≤ length input.now }
    ensures line { result ≡ at + line_length (drop at input.now) }
    ensures within { result ≤ length input.now }
{
    match first_newline(&input[at..]) {
        Some(length) => at + length,
        None => input.len(),
    }
}

// A line at its place, as the remark or the frame that it is.
fn item_of(place: usize, text: &[u8]) -> Item<'_>
    ensures { held result ≡ part (record { place = place; bytes = text.now }) }
{
    if text.starts_with(b"#") {
        Item::Remark { place, text }
    } else {
        Item::Frame { place, text }
    }
}

impl Limits {
    // The whole input.
    fn of(input: &[u8]) -> Limits
        ensures at { result.at ≡ 0 }
        ensures end { result.end ≡ length input.now }
    {
        Limits {
            at: 0,
            end: input.len(),
        }
    }
}

impl<'a> Reader<'a> {
    // A reader at the start of an input, whose lines, each with its newline, are the whole of it.
    pub fn new(input: &'a [u8]) -> Reader<'a>
        ensures lines { unread result ≡ lines_from 0 input.now }
        ensures whole { Whole input.now (unread result) }
    {
        Reader {
            input,
            limits: Limits::of(input),
        }
    }

    // Whether no line is left.
    fn at_end(&self) -> bool
        ensures { result ≡ nat_le (length self.now.input.now) self.now.limits.at }
    {
        self.limits.at >= self.input.len()
    }

    // The next line and its place, where one is left.
    fn next_line(&mut self) -> Option<(usize, &'a [u8])>
        ensures { Cuts (unread self.old) result (unread self.new) }
    {
        if self.at_end() {
            return None;
        }
        let input = self.input;
        let place = self.limits.at;
        let guard = LineGuard::narrow(&mut self.limits, line_end(input, place));
        Some((place, &input[guard.limits.at..guard.limits.end]))
    }
}

// Each item is the next line, as the remark or the frame that it is.
impl<'a> Iterator for Reader<'a> {
    type Item = Item<'a>;

    ghost next_gives = { λ s r t. Takes (unread s) r (unread t) };

    ghost remaining = { λ s. at_most (length (unread s)) };

    fn next(&mut self) -> Option<Item<'a>> {
        let (place, text) = self.next_line()?;
        Some(item_of(place, text))
    }
}
