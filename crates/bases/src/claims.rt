// What both base stores answer to a claim.
ghost use Rattle.std.specs.Prelude.{◌≡◌, ◌≤◌, List, length};
ghost use Rattle.bases.specs.Bases.{base};
ghost use Rattle.cells.specs.declared.Cell.{Cell};
ghost use Rattle.store.specs.Meaning.{claimed};

use store::Fault;

// The most cells that a base store takes.
pub const MOST_CELLS: u32 = 1_048_576;

// A claim of n cells where there are `len` of `capacity` cells.
pub fn claim(len: u32, capacity: u32, n: u32) -> Result<(), Fault>
    requires { len ≤ capacity }
    ensures { (cells : List Cell) → length cells ≡ len → result ≡ claimed (base cells capacity) n }
{
    let allowance = u32::MAX - len;
    let space = capacity - len;
    if n > allowance {
        Err(Fault::Allowance(allowance))
    } else if n > space {
        Err(Fault::Space(space))
    } else {
        Ok(())
    }
}
