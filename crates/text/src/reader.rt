// A reader over the bytes of an input: where it stands, and where what it may read ends.
ghost use Rattle.std.specs.Prelude.{◌≡◌, ◌≤◌, length};

// What a reader may read: from `at` on, up to `end`.
#[derive(Clone, Copy)]
pub struct Limits {
    pub(crate) at: usize,
    pub(crate) end: usize,
}

// Between two lines the reader's end is the input's end.
#[derive(Drop)]
pub struct Reader<'a> {
    pub(crate) input: &'a [u8],
    pub(crate) limits: Limits,
    ghost whole: { limits.end ≡ length input.now },
    ghost within: { limits.at ≤ length input.now },
}

// A line of the input without its newline, with its place: the offset of its first byte. A remark begins with '#'.
#[derive(Clone, Copy)]
pub enum Item<'a> {
    Remark { place: usize, text: &'a [u8] },
    Frame { place: usize, text: &'a [u8] },
}
