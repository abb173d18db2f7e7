// The limits of the kinds, tried from both sides.
#![tactic(auto)]

#[cfg(test)]
mod tests {
    use counter::Counter;
    use times::{Clock, Place, Time};

    #[test]
    fn amounts(rt: HostRuntime) {
        assert!(rt; Counter::new(-1_000_000, 0, 1_000_000).is_some());
        assert!(rt; Counter::new(-1_000_001, 0, 1_000_000).is_none());
        assert!(rt; Counter::new(1_000_000, 0, 0).is_some());
        assert!(rt; Counter::new(1_000_001, 0, 0).is_none());
    }

    #[test]
    fn floors_and_ceilings(rt: HostRuntime) {
        assert!(rt; Counter::new(0, 7, 7).is_some());
        assert!(rt; Counter::new(0, 8, 7).is_none());
        assert!(rt; Counter::new(0, 0, 1_000_001).is_none());
    }

    #[test]
    fn clocks(rt: HostRuntime) {
        assert!(rt; Clock::new(1_099_511_627_775).is_some());
        assert!(rt; Clock::new(1_099_511_627_776).is_none());
    }

    #[test]
    fn layers(rt: HostRuntime) {
        let lowest = Place::new(5, -2_147_483_648);
        let highest = Place::new(5, 2_147_483_647);
        assert!(rt; lowest.not_after(highest));
        assert!(rt; !highest.not_after(lowest));
        assert_eq!(rt; lowest.to_word(), 0x5_8000_0000);
        assert_eq!(rt; highest.to_word(), 0x5_7fff_ffff);
    }
}
