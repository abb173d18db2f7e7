// A frame in its two parts.
ghost use Rattle.std.specs.Prelude.{◌<◌, length};

use crate::command::Code;

// What a frame asks for, and the bytes after its code.
#[derive(Clone, Copy)]
pub(crate) struct Frame<'a> {
    pub code: Code,
    pub body: &'a [u8],
    ghost short: { length body.now < 32 },
}
