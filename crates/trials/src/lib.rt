// Trials of the tree: versions made in many orders, each compared with a plain sorted list, over a store that counts.
#![tactic(auto)]

mod compare;
mod counting;
mod plain;
mod trial;
mod trouble;
mod versions;

#[cfg(test)]
mod tests {
    use super::counting::Counting;
    use super::trial::enter_and_withdraw;
    use super::trouble::Trouble;
    use bases::Table;
    use std::alloc::Global;
    use std::test::Fail;

    // Three hundred operations over a fresh store, of which the operation of a number happened so many seconds after
    // the start; four or more share a time.
    fn run<F: Fn(u32) -> u64>(heap: Global, seconds_of: F) -> Result<(), Trouble>
        requires { F.IsAlwaysCallable seconds_of }
    {
        let store = Counting::open(Table::open(heap, 30_000)?);
        enter_and_withdraw(heap, store, seconds_of, 301)
    }

    #[test]
    fn ascending(rt: HostRuntime) -> Result<(), Fail> {
        run(rt.alloc(), |n| u64::from(n) / 4)?;
        Ok(())
    }

    #[test]
    fn descending(rt: HostRuntime) -> Result<(), Fail> {
        run(rt.alloc(), |n| 1000u64.saturating_sub(u64::from(n)) / 4)?;
        Ok(())
    }

    #[test]
    fn shuffled(rt: HostRuntime) -> Result<(), Fail> {
        run(rt.alloc(), |n| u64::from(n) * 389 % 97)?;
        Ok(())
    }
}
