// Why a store refuses a call.
ghost use Rattle.std.specs.Prelude.{◌≡◌};
ghost use Rattle.store.specs.Faults.{number_and_place};

#[derive(Clone, Copy)]
pub enum Fault {
    // A claim exceeds the allowance, which is given.
    Allowance(u32),
    // A claim exceeds the space, which is given.
    Space(u32),
    // There is no cell of the number that is given.
    NoCell(u32),
}

impl Fault {
    // The refusal's number, whose first digit names the layer, and its place: numbers, since a line of an answer has them.
    pub fn number_and_place(self) -> (u8, u32)
        ensures { result ≡ number_and_place self }
    {
        match self {
            Fault::Allowance(allowance) => (0x31, allowance),
            Fault::Space(space) => (0x32, space),
            Fault::NoCell(number) => (0x33, number),
        }
    }
}
