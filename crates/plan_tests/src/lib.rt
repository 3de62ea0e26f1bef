// The worked plan, its damaged forms and bad input of other kinds, as numbers and places.
#![tactic(auto)]

#[cfg(test)]
mod tests {
    use grader::grades::WORK_PLACES;
    use grader::stores::{ceilings, store_places};
    use listing::table::make::list_plan;
    use refusal::Refusal;
    use scales::scale::{Ceiling, Scale};
    use scales::span::Span;
    use std::alloc::Global;
    use std::process::Abort;
    use std::test::Fail;
    use typer::typed::read_typed;

    // main(store) = let x = store in x + x
    const DOUBLE: [u8; 14] = [4, 1, 1, 1, 1, 0, 5, 3, 2, 0x0b, 0x12, 1, 0x12, 1];

    fn refused(
        rt: &impl Abort,
        heap: Global,
        bytes: &[u8],
        number: u8,
        place: usize,
    ) -> Result<(), Fail> {
        let Err(fault) = read_typed(heap, bytes) else {
            return Err(Fail::new("accepted"));
        };
        let told = Refusal::from(fault);
        assert_eq!(rt; told.number, number);
        assert_eq!(rt; told.place, place);
        Ok(())
    }

    #[test]
    fn worked_plan(rt: HostRuntime) -> Result<(), Fail> {
        let Ok(typed) = read_typed(rt.alloc(), &DOUBLE) else {
            return Err(Fail::new("refused"));
        };
        assert_eq!(rt; typed.plan.legs.len(), 1);
        assert_eq!(rt; typed.plan.nodes.len(), 5);
        assert_eq!(rt; typed.levels.len(), 5);
        Ok(())
    }

    #[test]
    fn listing_of_the_worked_plan(rt: HostRuntime) -> Result<(), Fail> {
        let heap = rt.alloc();
        let Ok(listing) = list_plan(heap, &DOUBLE) else {
            return Err(Fail::new("refused"));
        };
        let text = format!(in heap; "{listing}")?;
        assert_eq!(rt;
            text.as_str(),
            "plan\n0 param many 2..2 {2}\n1 let many 2..2 {2}\n"
        );
        Ok(())
    }

    #[test]
    fn ceilings_of_the_worked_plan(rt: HostRuntime) -> Result<(), Fail> {
        let heap = rt.alloc();
        let mut work = vec![in heap; Span::zero(); WORK_PLACES]?;
        let mut answers = vec![in heap; Span::zero(); 2]?;
        let Ok(asked) = ceilings(heap, &DOUBLE, work.as_mut_slice(), answers.as_mut_slice()) else {
            return Err(Fail::new("refused"));
        };
        assert_eq!(rt; asked[0], Ceiling::Count(2));
        assert_eq!(rt; asked[1], Ceiling::Count(0));
        assert_eq!(rt; asked[7], Ceiling::Count(0));
        let Ok(places) = store_places(heap, &DOUBLE, work.as_mut_slice(), answers.as_mut_slice())
        else {
            return Err(Fail::new("refused"));
        };
        assert_eq!(rt; places.start, 0);
        assert_eq!(rt; places.end, 1);
        Ok(())
    }

    #[test]
    fn listing_of_a_damaged_plan(rt: HostRuntime) -> Result<(), Fail> {
        let bytes = [4, 1, 1, 1, 1, 0, 5, 3, 2, 0x0b, 0x12, 1, 0x12, 2];
        let Err(fault) = list_plan(rt.alloc(), &bytes) else {
            return Err(Fail::new("accepted"));
        };
        let told = Refusal::from(fault);
        assert_eq!(rt; told.number, 7);
        assert_eq!(rt; told.place, 4);
        Ok(())
    }

    #[test]
    fn damaged_forms(rt: HostRuntime) -> Result<(), Fail> {
        let heap = rt.alloc();
        refused(
            &rt,
            heap,
            &[4, 1, 1, 1, 1, 0, 5, 3, 2, 0x0b, 0x12, 1, 0x12, 0],
            2,
            12,
        )?;
        refused(
            &rt,
            heap,
            &[4, 1, 1, 1, 1, 0, 5, 3, 2, 0x0b, 0x12, 1, 0x12, 2],
            7,
            4,
        )?;
        refused(
            &rt,
            heap,
            &[4, 1, 1, 1, 1, 0, 5, 3, 2, 0x0b, 0x12, 1, 0x12, 1, 0],
            6,
            14,
        )?;
        refused(
            &rt,
            heap,
            &[4, 1, 1, 1, 1, 0, 5, 3, 2, 0x0b, 0x12, 1, 0x12],
            1,
            13,
        )?;
        refused(
            &rt,
            heap,
            &[4, 1, 1, 1, 1, 0, 4, 3, 2, 0x0b, 0x12, 1, 0x12, 1],
            5,
            5,
        )
    }

    #[test]
    fn other_bad_input(rt: HostRuntime) -> Result<(), Fail> {
        let heap = rt.alloc();
        refused(&rt, heap, &[], 1, 0)?;
        refused(&rt, heap, &[0; 4097], 3, 4096)?;
        refused(&rt, heap, &[4, 0], 3, 1)?;
        refused(&rt, heap, &[6, 1, 3, 0, 0], 4, 2)?;
        refused(&rt, heap, &[4, 1, 0, 1, 0, 1, 0], 8, 0)
    }
}
