// The program record: reads standard input and answers each line of it on standard output.
#![tactic(auto)]

use bases::Image;
use session::answer_input;
use std::io::{Read, Write};
use text::items::LONGEST_INPUT;

// The bytes of the image that holds the cells: room for 800 of them.
const IMAGE_BYTES: usize = 44_800;

// The input, as far as it is needed: one byte more than an input may have tells that it is too long.
fn read_input(rt: &HostRuntime) -> anyhow::Result<Vec<u8>> {
    let mut input = Vec::new(rt.alloc());
    rt.stdin()
        .take(LONGEST_INPUT as u64 + 1)
        .read_to_end(&mut input)?;
    Ok(input)
}

fn answer(rt: &HostRuntime) -> anyhow::Result<()> {
    let input = read_input(rt)?;
    let image = Image::open(vec![in rt.alloc(); 0u8; IMAGE_BYTES]?);
    let (_record, output) = answer_input(rt.alloc(), image, input.as_slice())?;
    rt.stdout().write_all(output.as_slice())?;
    Ok(())
}

fn main(rt: HostRuntime) -> anyhow::Result<()> {
    answer(&rt)
}
