// An image: a base store in bytes that are handed in, with its cells one after another from the first byte on.
ghost use Rattle.std.specs.Prelude.{◌≡◌, ◌*◌, ◌≤◌, vec_len, vec_items};
ghost use Rattle.bases.specs.Bases.{most_cells};
ghost use Rattle.bases.specs.Layouts.{cells_in, image_bytes};
ghost use Rattle.cells.specs.Layout.{cell_width};

// What the calls promise names the struct, so they stand in a file of their own.
pub mod calls;

// The bytes that were handed in, which begin with the layouts of its `len` cells.
#[derive(Drop)]
// A length beside the bytes, since they are fixed memory that is handed in, and given back whole.
pub struct Image {
    bytes: Vec<u8>,
    len: u32,
    capacity: u32,
    ghost within: { len ≤ capacity },
    ghost room: { capacity * cell_width ≤ vec_len bytes },
    ghost small: { capacity ≤ most_cells },
    ghost laid: { vec_items bytes ≡ image_bytes (cells_in len (vec_items bytes)) (vec_items bytes) },
}
