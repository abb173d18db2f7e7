// What can go wrong in a trial.

use std::alloc::{AllocError, AllocFailed};
use store::Fault;

#[derive(Debug, Drop)]
pub enum Trouble {
    Memory,
    // the store refused a call
    Refused,
    // a version, its heights or its totals differ from the plain list's, or a call took too many gets or puts
    Differs,
}

// Conversions by hand: a derived one keeps what it converts, and a store's fault has no Debug that could show it.
impl From<AllocError> for Trouble {
    fn from(_e: AllocError) -> Trouble {
        Trouble::Memory
    }
}

impl<T: Drop> From<AllocFailed<T>> for Trouble {
    fn from(_e: AllocFailed<T>) -> Trouble {
        Trouble::Memory
    }
}

impl From<Fault> for Trouble {
    fn from(_f: Fault) -> Trouble {
        Trouble::Refused
    }
}

// Goes on where a comparison holds.
pub(crate) fn same(holds: bool) -> Result<(), Trouble> {
    if holds { Ok(()) } else { Err(Trouble::Differs) }
}
