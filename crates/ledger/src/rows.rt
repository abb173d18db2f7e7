// The rows of beliefs, each at its belief's number.
ghost use Rattle.std.specs.Prelude.{◌≡◌, ◌<◌, length, slice_index_or, slice_set};

use crate::Row;

pub(crate) fn row_at<T: Copy>(rows: &[Row<T>], belief: u32) -> Row<T>
    requires { belief < length rows.now }
    ensures { result ≡ slice_index_or rows.now belief result }
{
    rows[belief as usize]
}

pub(crate) fn set_row<T: Copy>(rows: &mut [Row<T>], belief: u32, row: Row<T>)
    requires { belief < length rows.old }
    ensures { rows.new ≡ slice_set rows.old belief row }
{
    rows[belief as usize] = row;
}
