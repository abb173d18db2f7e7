// The calls of an image.
ghost use Rattle.std.specs.Prelude.{◌≡◌, ℕ, ◌+◌, ◌*◌, ◌/◌, ◌≤◌, min, true, List, [], length, drop, is_err, vec_len};
ghost use Rattle.big_endian.specs.Numbers.{overwritten};
ghost use Rattle.cells.specs.Layout.{cell_width, cell_of, layout};
ghost use Rattle.store.specs.Meaning.{put_answer, after_put, got};
ghost use Rattle.bases.specs.Bases.{base, most_cells};
ghost use Rattle.bases.specs.Images.{image_meaning, image_buffer, Laid, put_bytes};
ghost use Rattle.bases.specs.Layouts.{image_bytes};
ghost use Rattle.std.proofs.Common.{arith};
ghost use Rattle.bases.specs.Imaging.{length_cells_in};

use super::Image;
use crate::claims;
use crate::claims::MOST_CELLS;
use big_endian::overwrite;
use cells::{CELL_BYTES, Cell, decode, encode};
use store::{Fault, Store};

impl Image {
    // An empty image in the bytes, for the whole cells that fit, at most `MOST_CELLS`.
    pub fn open(bytes: Vec<u8>) -> Image
        ensures meaning { image_meaning result ≡ base [] (min (vec_len bytes / cell_width) most_cells) }
        ensures buffer { image_buffer result ≡ bytes.items }
        ensures laid { Laid bytes.items result }
    {
        let capacity = (bytes.len() / CELL_BYTES).min(MOST_CELLS as usize) as u32;
        Image {
            bytes,
            len: 0,
            capacity,
        }
    }

    // The bytes, with the layouts of the cells in front.
    pub fn into_bytes(self) -> Vec<u8>
        ensures bytes { result.items ≡ image_buffer self }
        ensures laid { (handed : List ℕ) → Laid handed self → result.items ≡ image_bytes (image_meaning self).cells handed }
    {
        let Image {
            bytes,
            len: _,
            capacity: _,
        } = self;
        bytes
    }
}

impl Store for Image {
    ghost meaning = { image_meaning };

    ghost buffer = { image_buffer };

    ghost bounded = { λ s. let long = length_cells_in s.len s.bytes.items in omega arith };

    fn len(&self) -> u32 {
        self.len
    }

    fn claim(&self, n: u32) -> Result<(), Fault> {
        claims::claim(self.len, self.capacity, n)
    }

    fn put(&mut self, cell: Cell) -> Result<u32, Fault>
        ensures answer { result ≡ put_answer (image_meaning self.old) }
        ensures after { image_meaning self.new ≡ after_put (image_meaning self.old) cell }
        ensures untouched { is_err result ≡ true → image_buffer self.new ≡ image_buffer self.old }
        ensures bytes { image_buffer self.new ≡ put_bytes (image_meaning self.old) (image_buffer self.old) cell }
        ensures laid { (handed : List ℕ) → Laid handed self.old → Laid handed self.new }
    {
        self.claim(1)?;
        write_cell(&mut self.bytes, self.len, cell);
        self.len += 1;
        Ok(self.len)
    }

    fn get(&mut self, k: u32) -> Result<Cell, Fault>
        ensures answer { result ≡ got (image_meaning self.old) k }
        ensures same { image_meaning self.new ≡ image_meaning self.old }
        ensures untouched { image_buffer self.new ≡ image_buffer self.old }
        ensures whole { self.new ≡ self.old }
    {
        if k == 0 || k > self.len {
            return Err(Fault::NoCell(k));
        }
        Ok(read_cell(&self.bytes, k - 1))
    }
}

// Writes the cell after so many cells, and no other byte.
fn write_cell(bytes: &mut [u8], before: u32, cell: Cell)
    requires { (before + 1) * cell_width ≤ length bytes.old }
    ensures value { bytes.new ≡ overwritten bytes.old (before * cell_width) (layout cell) }
    ensures back { cell_of (layout cell) ≡ cell }
{
    let at = before as usize * CELL_BYTES;
    overwrite(bytes, at, &encode(cell));
}

// The cell that stands after so many cells.
fn read_cell(bytes: &[u8], before: u32) -> Cell
    requires { (before + 1) * cell_width ≤ length bytes.now }
    ensures { result ≡ cell_of (drop (before * cell_width) bytes.now) }
{
    let at = before as usize * CELL_BYTES;
    let mut cell = [0; CELL_BYTES];
    cell.copy_from_slice(&bytes[at..at + CELL_BYTES]);
    decode(&cell)
}
