// Places in a print.
ghost use Rattle.std.specs.Prelude.{◌^◌, ◌<◌};
ghost use Rattle.std.specs.Int.Signed.{mag};

mod kind;
mod parts;

// A layer of a job, in order of jobs and then of layers. Raft layers are negative. The bounds are those of the types of
// the fields.
#[derive(Clone, Copy, PartialEq, Eq, PartialOrd, Ord)]
pub struct Place {
    job: u32,
    layer: i32,
    ghost jobs: { job < 2 ^ 32 },
    ghost layers: { mag layer < 2 ^ 31 },
}
