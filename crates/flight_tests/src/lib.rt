// Flights to each ending, at the bounds and cut in two. The numbers are counted by hand, as the comments say.
#![tactic(auto)]

#[cfg(test)]
mod tests {
    use bay::{Bay, CounterBay};
    use flight::Flight;
    use flight::machine::{Ending, Outcome};
    use std::alloc::Global;
    use std::process::Abort;
    use std::test::Fail;

    // main(store) = let x = store in x + x
    const DOUBLE: [u8; 14] = [4, 1, 1, 1, 1, 0, 5, 3, 2, 0x0b, 0x12, 1, 0x12, 1];

    fn loaded(heap: Global, bytes: &[u8]) -> Result<Flight, Fail> {
        let Ok(flight) = Flight::load(heap, bytes) else {
            return Err(Fail::new("refused"));
        };
        Ok(flight)
    }

    fn stocked(count: u16) -> Result<CounterBay, Fail> {
        let mut bay = CounterBay::new();
        bay.fill(0, count)?;
        Ok(bay)
    }

    // twice(p) = p + p, and main(store) = twice(.. twice(store)), so often. Once costs 1 evaluation of the store; each twice
    // more costs 4 and twice what is inside.
    fn twice_and_twice(heap: Global, times: u8) -> Result<Vec<u8>, Fail> {
        let mut bytes = Vec::new(heap);
        bytes.extend_from_slice(&[4, 2, 1, 1, 1, 0, 3, 0x0b, 2, 2, 1, 1, 1, 0])?;
        bytes.push(times.saturating_add(1))?;
        for _ in 0..times {
            bytes.push(0x0a)?;
        }
        bytes.push(2)?;
        Ok(bytes)
    }

    #[test]
    fn done(rt: HostRuntime) -> Result<(), Fail> {
        let mut flight = loaded(rt.alloc(), &DOUBLE)?;
        let mut bay = stocked(5)?;
        let flown = flight.advance(&mut bay, 100);
        // 4 and 3 are drawn
        assert_eq!(rt; flown.outcome, Outcome::Done(7));
        assert_eq!(rt; flown.begun, 6);
        assert_eq!(rt; flight.log_len(), 6);
        assert_eq!(rt; flight.lookups(0), 2);
        assert_eq!(rt; bay.stock(0), 3);
        assert!(rt; flight.has_ended());
        Ok(())
    }

    #[test]
    fn empty(rt: HostRuntime) -> Result<(), Fail> {
        let mut flight = loaded(rt.alloc(), &DOUBLE)?;
        let mut bay = stocked(1)?;
        let flown = flight.advance(&mut bay, 100);
        assert_eq!(rt; flown.outcome, Outcome::Ended(Ending::Empty));
        assert_eq!(rt; flight.lookups(0), 1);
        assert!(rt; flight.has_ended());
        Ok(())
    }

    #[test]
    fn cut_anywhere(rt: HostRuntime) -> Result<(), Fail> {
        for cut in 0..6 {
            let mut flight = loaded(rt.alloc(), &DOUBLE)?;
            let mut bay = stocked(5)?;
            let first = flight.advance(&mut bay, cut);
            assert_eq!(rt; first.outcome, Outcome::InAir);
            assert_eq!(rt; first.begun, cut);
            assert!(rt; !flight.has_ended());
            let second = flight.advance(&mut bay, 100);
            assert_eq!(rt; second.outcome, Outcome::Done(7));
            assert_eq!(rt; second.begun, 6 - cut);
            assert_eq!(rt; flight.log_len(), 6);
        }
        Ok(())
    }

    #[test]
    fn long(rt: HostRuntime) -> Result<(), Fail> {
        let heap = rt.alloc();
        let eight = twice_and_twice(heap, 8)?;
        let mut flight = loaded(heap, eight.as_slice())?;
        let mut bay = stocked(9999)?;
        let flown = flight.advance(&mut bay, 5000);
        // 9998 down to 9743
        assert_eq!(rt; flown.outcome, Outcome::Done(2_526_848));
        assert_eq!(rt; flown.begun, 1276);
        assert_eq!(rt; flight.lookups(0), 256);
        let nine = twice_and_twice(heap, 9)?;
        let mut longer = loaded(heap, nine.as_slice())?;
        let mut other = stocked(9999)?;
        let stopped = longer.advance(&mut other, 5000);
        assert_eq!(rt; stopped.outcome, Outcome::Ended(Ending::Long));
        assert_eq!(rt; stopped.begun, 2048);
        Ok(())
    }

    // leg 0 is 59 sums deep, and main so many sums with leg 0 innermost: the first number of leg 0 stands 61 deeper than the sums of main.
    fn deep_plan(heap: Global, sums: u8) -> Result<Vec<u8>, Fail> {
        let mut bytes = Vec::new(heap);
        bytes.extend_from_slice(&[4, 2, 0, 1, 0, 119])?;
        for _ in 0..59 {
            bytes.push(0x0b)?;
        }
        for _ in 0..60 {
            bytes.push(1)?;
        }
        bytes.extend_from_slice(&[0, 1, 0])?;
        bytes.push(sums.saturating_mul(2).saturating_add(1))?;
        for _ in 0..sums {
            bytes.push(0x0b)?;
        }
        bytes.push(0x0a)?;
        for _ in 0..sums {
            bytes.push(1)?;
        }
        Ok(bytes)
    }

    #[test]
    fn deep(rt: HostRuntime) -> Result<(), Fail> {
        let heap = rt.alloc();
        let mut bay = CounterBay::new();
        let at_128 = deep_plan(heap, 67)?;
        let mut flight = loaded(heap, at_128.as_slice())?;
        assert_eq!(rt; flight.advance(&mut bay, 5000).outcome, Outcome::Done(0));
        let at_129 = deep_plan(heap, 68)?;
        let mut deeper = loaded(heap, at_129.as_slice())?;
        assert_eq!(rt;
            deeper.advance(&mut bay, 5000).outcome,
            Outcome::Ended(Ending::Deep)
        );
        Ok(())
    }

    // leg 0 takes eight arguments, leg 1 calls it twice, and each leg more calls the one before twice: leg 9 makes 4,096 bindings. One more
    // entry is main's store, so the log is full at the eighth argument of the last call.
    #[test]
    fn full_in_the_midst_of_a_call(rt: HostRuntime) -> Result<(), Fail> {
        let heap = rt.alloc();
        let mut bytes = Vec::new(heap);
        bytes.extend_from_slice(&[4, 11, 8, 1, 1, 1, 1, 1, 1, 1, 1, 1, 0, 1, 1])?;
        bytes.extend_from_slice(&[0, 1, 0, 19, 0x0b])?;
        for _ in 0..2 {
            bytes.extend_from_slice(&[0x0a, 1, 1, 1, 1, 1, 1, 1, 1])?;
        }
        for before in 1..9 {
            bytes.extend_from_slice(&[0, 1, 0, 3, 0x0b, 0x1a, before, 0x1a, before])?;
        }
        bytes.extend_from_slice(&[1, 1, 1, 0, 1, 0x1a, 9])?;
        let mut flight = loaded(heap, bytes.as_slice())?;
        let mut bay = stocked(1)?;
        let flown = flight.advance(&mut bay, 5000);
        assert_eq!(rt; flown.outcome, Outcome::Ended(Ending::Full));
        assert_eq!(rt; flight.log_len(), 4096);
        assert_eq!(rt; bay.stock(0), 1);
        Ok(())
    }

    #[test]
    fn lookups_are_counted_into_eight_places(rt: HostRuntime) -> Result<(), Fail> {
        let mut flight = loaded(rt.alloc(), &DOUBLE)?;
        let mut bay = stocked(5)?;
        let _ = flight.advance(&mut bay, 100);
        let mut counts = [77; 9];
        flight.count_lookups(&mut counts);
        assert_eq!(rt; &counts, &[2, 0, 0, 0, 0, 0, 0, 0, 77]);
        Ok(())
    }
}
