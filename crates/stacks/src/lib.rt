// Any stack of layers is a store: functions over every store, and two stacks that are opened and used through them.
#![tactic(auto)]

ghost use Rattle.std.specs.Prelude.{◌≡◌, true, is_err, IfOk, vec_len};
ghost use Rattle.store.specs.Meaning.{fault_of, unless, claimed, after_put};
ghost use Rattle.bases.specs.Layouts.{image_bytes};
ghost use Rattle.stacks.specs.Copies.{after_copies};
ghost use Rattle.stacks.specs.Stacks.{image_stack, table_stack};

use bases::{Image, Table};
use cells::Cell;
use layers::{Cache, Quota};
use std::alloc::{AllocError, Global};
use store::{Fault, Store};

// Puts the cell, and gets it again by the number that it was given.
pub fn put_and_get<S: Store>(store: &mut S, cell: Cell) -> Result<Cell, Fault>
    ensures answer { result ≡ unless (fault_of (S.meaning store.old) 1) cell }
    ensures after { S.meaning store.new ≡ after_put (S.meaning store.old) cell }
    ensures untouched { is_err result ≡ true → S.buffer store.new ≡ S.buffer store.old }
{
    let number = store.put(cell)?;
    store.get(number)
}

// Claims n cells, and then puts the cell n times: all of them or none.
pub fn put_copies<S: Store>(store: &mut S, cell: Cell, n: u32) -> Result<(), Fault>
    ensures answer { result ≡ claimed (S.meaning store.old) n }
    ensures after { S.meaning store.new ≡ after_copies (S.meaning store.old) cell n }
    ensures untouched { is_err result ≡ true → S.buffer store.new ≡ S.buffer store.old }
{
    store.claim(n)?;
    for _i in 0..n {
        let _ = store.put(cell)?;
    }
    Ok(())
}

// Puts a cell into a cache over a quota over an image in the bytes, gets it again, and gives the bytes back.
pub fn through_image(bytes: Vec<u8>, quota: u32, cell: Cell) -> (Result<Cell, Fault>, Vec<u8>)
    ensures answer { result.0 ≡ unless (fault_of (image_stack (vec_len bytes) quota) 1) cell }
    ensures untouched { is_err result.0 ≡ true → result.1.items ≡ bytes.items }
    ensures laid { result.1.items ≡ image_bytes (after_put (image_stack (vec_len bytes) quota) cell).cells result.1.items }
{
    let mut stack = Cache::open(Quota::open(Image::open(bytes), quota));
    let answer = put_and_get(&mut stack, cell);
    (answer, stack.into_below().into_below().into_bytes())
}

// Puts a cell into a cache over a quota over a cache over a quota over a table, and gets it again.
pub fn through_table(
    heap: Global,
    capacity: u32,
    quota: u32,
    cell: Cell,
) -> Result<Result<Cell, Fault>, AllocError>
    ensures { IfOk result (λ answer. answer ≡ unless (fault_of (table_stack capacity quota) 1) cell) }
{
    let table = Table::open(heap, capacity)?;
    let mut stack = Cache::open(Quota::open(Cache::open(Quota::open(table, quota)), quota));
    Ok(put_and_get(&mut stack, cell))
}

#[cfg(test)]
mod tests {
    use super::*;
    use std::test::Fail;
    use words::EffectWords;

    // A cell that is told from others by its time.
    fn cell(time: u64) -> Cell {
        let own = EffectWords {
            first: 1,
            second: 2,
        };
        Cell {
            time,
            number: 3,
            left: 4,
            right: 5,
            height: 6,
            own,
            total: own,
        }
    }

    // The number and place of a refusal, if it is one.
    fn refusal<T: Drop>(answer: Result<T, Fault>) -> Option<(u8, u32)> {
        answer.err().map(|fault| fault.number_and_place())
    }

    // The time of the cell that was got, if one was.
    fn time(answer: Result<Cell, Fault>) -> Option<u64> {
        answer.ok().map(|cell| cell.time)
    }

    // 44,800 bytes hold 800 cells.
    #[test]
    fn fills_to_the_limit(rt: HostRuntime) -> Result<(), Fail> {
        let bytes = vec![in rt.alloc(); 7u8; 44_800]?;
        let mut stack = Cache::open(Quota::open(Image::open(bytes), 1_000));
        assert_eq!(rt;
            refusal(put_copies(&mut stack, cell(9), 801)),
            Some((0x32, 800))
        );
        assert_eq!(rt; refusal(put_copies(&mut stack, cell(9), 800)), None);
        assert_eq!(rt; stack.len(), 800);
        assert_eq!(rt; refusal(stack.put(cell(9))), Some((0x32, 0)));
        assert_eq!(rt; time(stack.get(800)), Some(9));
        Ok(())
    }

    // 130 bytes have room for two cells, and 18 bytes past them.
    #[test]
    fn leaves_the_bytes_past_its_cells(rt: HostRuntime) -> Result<(), Fail> {
        let bytes = vec![in rt.alloc(); 7u8; 130]?;
        let (answer, bytes) = through_image(bytes, 9, cell(258));
        assert_eq!(rt; time(answer), Some(258));
        assert!(rt; bytes.len() == 130);
        assert_eq!(rt; (bytes[5], bytes[6], bytes[7]), (0, 1, 2));
        assert_eq!(rt; (bytes[55], bytes[56], bytes[129]), (2, 7, 7));
        Ok(())
    }

    // Every refusal, with its place.
    #[test]
    fn refuses(rt: HostRuntime) -> Result<(), Fail> {
        let table = Table::open(rt.alloc(), 3)?;
        let mut stack = Cache::open(Quota::open(Cache::open(table), 2));
        assert_eq!(rt; refusal(stack.claim(3)), Some((0x31, 2)));
        assert_eq!(rt; refusal(put_copies(&mut stack, cell(1), 2)), None);
        assert_eq!(rt; refusal(stack.put(cell(1))), Some((0x31, 0)));
        assert_eq!(rt; refusal(stack.get(0)), Some((0x33, 0)));
        assert_eq!(rt; refusal(stack.get(3)), Some((0x33, 3)));
        let below = stack.into_below().into_below();
        assert_eq!(rt; refusal(below.claim(2)), Some((0x32, 1)));
        Ok(())
    }

    // Cells 1 and 17 share a line of the cache.
    #[test]
    fn shares_a_line(rt: HostRuntime) -> Result<(), Fail> {
        let mut stack = Cache::open(Table::open(rt.alloc(), 17)?);
        assert_eq!(rt; refusal(stack.put(cell(1))), None);
        assert_eq!(rt; refusal(put_copies(&mut stack, cell(2), 16)), None);
        assert_eq!(rt; time(stack.get(1)), Some(1));
        assert_eq!(rt; time(stack.get(17)), Some(2));
        assert_eq!(rt; time(stack.get(1)), Some(1));
        Ok(())
    }
}
