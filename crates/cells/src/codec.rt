// A cell as bytes, and bytes as a cell.
ghost use Rattle.std.specs.Prelude.{◌≡◌, ◌+◌, ◌≤◌, length};
ghost use Rattle.cells.specs.Layout.{layout, words_layout, cell_of, words_at, words_width, worth_at};

use crate::Cell;
use big_endian::{BigEndian, overwrite};
use words::EffectWords;

// The width of an effect's words.
pub const WORDS_BYTES: usize = 16;

// The width of a cell, and where its parts begin.
// Parts pushed one after another would have to be taken out as an array of this width again: that is no plainer.
pub const CELL_BYTES: usize = TOTAL + WORDS_BYTES;

const TIME: usize = 0;

const NUMBER: usize = 8;

const LEFT: usize = 12;

const RIGHT: usize = 16;

const HEIGHT: usize = 20;

const OWN: usize = 24;

const TOTAL: usize = OWN + WORDS_BYTES;

// The bytes of a cell.
pub fn encode(cell: Cell) -> [u8; CELL_BYTES]
    ensures value { result ≡ layout cell }
    ensures back { cell_of result ≡ cell }
{
    let mut bytes = [0; CELL_BYTES];
    overwrite(&mut bytes, TIME, &cell.time.to_bytes());
    overwrite(&mut bytes, NUMBER, &cell.number.to_bytes());
    overwrite(&mut bytes, LEFT, &cell.left.to_bytes());
    overwrite(&mut bytes, RIGHT, &cell.right.to_bytes());
    overwrite(&mut bytes, HEIGHT, &cell.height.to_bytes());
    overwrite(&mut bytes, OWN, &words_bytes(cell.own));
    overwrite(&mut bytes, TOTAL, &words_bytes(cell.total));
    bytes
}

// The bytes of an effect's words.
fn words_bytes(words: EffectWords) -> [u8; WORDS_BYTES]
    ensures { result ≡ words_layout words }
{
    let mut bytes = [0; WORDS_BYTES];
    overwrite(&mut bytes, 0, &words.first.to_bytes());
    overwrite(&mut bytes, 8, &words.second.to_bytes());
    bytes
}

// The cell that bytes lay out.
pub fn decode(bytes: &[u8; CELL_BYTES]) -> Cell
    ensures value { result ≡ cell_of bytes.now }
    ensures back { layout result ≡ bytes.now }
{
    Cell {
        time: number_at(bytes, TIME),
        number: number_at(bytes, NUMBER),
        left: number_at(bytes, LEFT),
        right: number_at(bytes, RIGHT),
        height: number_at(bytes, HEIGHT),
        own: words_at(bytes, OWN),
        total: words_at(bytes, TOTAL),
    }
}

// The words of an effect from place `at` on.
fn words_at(bytes: &[u8], at: usize) -> EffectWords
    requires { at + words_width ≤ length bytes.now }
    ensures { result ≡ words_at bytes.now at }
{
    EffectWords {
        first: number_at(bytes, at),
        second: number_at(bytes, at + 8),
    }
}

// The number that is written from place `at` on, in as many bytes as it has.
fn number_at<T: BigEndian<N>, const N: usize>(bytes: &[u8], at: usize) -> T
    requires { at + N ≤ length bytes.now }
    ensures { T.number result ≡ worth_at bytes.now at N }
{
    let mut part = [0; N];
    part.copy_from_slice(&bytes[at..at + N]);
    T::from_bytes(&part)
}
