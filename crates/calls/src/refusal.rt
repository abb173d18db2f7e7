// Why a ledger refuses a call.
ghost use Rattle.std.specs.Prelude.{◌≡◌};
ghost use Rattle.calls.specs.Refusals.{number_and_place};
ghost use Rattle.calls.specs.declared.refusal.Refusal.TheVariants.{Store};

use store::Fault;

#[derive(Clone, Copy)]
pub enum Refusal {
    // A change where the latest belief is 1,023, the last that there may be.
    Full,
    // A withdrawal of an operation that is not in the latest belief; its number is given.
    NoOperation(u32),
    // A question on a belief above the latest; its number is given.
    NoBelief(u32),
    // The store refused the claim of a change.
    Store(Fault),
}

impl Refusal {
    // The refusal's number, whose first digit names the layer, and its place: numbers, since a line of an answer has them.
    pub fn number_and_place(self) -> (u8, u32)
        ensures { result ≡ number_and_place self }
    {
        match self {
            Refusal::Full => (0x23, 1023),
            Refusal::NoOperation(operation) => (0x22, operation),
            Refusal::NoBelief(belief) => (0x21, belief),
            Refusal::Store(fault) => fault.number_and_place(),
        }
    }
}

// `?` carries a store's fault whole.
impl From<Fault> for Refusal {
    ghost from_gives = { λ fault r. r ≡ Store fault };

    fn from(cause: Fault) -> Refusal {
        Refusal::Store(cause)
    }
}
