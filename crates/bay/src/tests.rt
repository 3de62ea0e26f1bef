use super::*;
use refusal::Refusal;
use std::process::Abort;
use std::test::Fail;

// Draws a store to its end, and once past it.
fn runs_out<B: Bay>(rt: &impl Abort, bay: &mut B, store: u8, expected: &[u32]) {
    assert_eq!(rt; usize::from(bay.stock(store)), expected.len());
    let mut places = [77; 4];
    let came = draw_into(bay, store, &mut places);
    assert_eq!(rt; &places[0..came], expected);
    assert_eq!(rt; bay.stock(store), 0);
    assert_eq!(rt; bay.draw(store), None);
}

#[test]
fn counters_run_out(rt: HostRuntime) -> Result<(), Fail> {
    let mut bay = CounterBay::new();
    runs_out(&rt, &mut bay, 0, &[]);
    bay.fill(0, 9999)?;
    bay.fill(7, 3)?;
    assert_eq!(rt; bay.fill(8, 3), Err(BayFault::Over(8)));
    assert_eq!(rt; bay.fill(7, 10000), Err(BayFault::Over(7)));
    runs_out(&rt, &mut bay, 7, &[2, 1, 0]);
    runs_out(&rt, &mut bay, 8, &[]);
    assert_eq!(rt; bay.draw(0), Some(9998));
    assert_eq!(rt; bay.stock(0), 9998);
    Ok(())
}

#[test]
fn rolls_run_out(rt: HostRuntime) -> Result<(), Fail> {
    let mut bay = RollBay::new();
    runs_out(&rt, &mut bay, 2, &[]);
    bay.fill(2, &[u32::MAX, 0, 41])?;
    bay.fill(3, &[5; 32])?;
    assert_eq!(rt; bay.fill(8, &[1]), Err(BayFault::Over(8)));
    assert_eq!(rt; bay.fill(2, &[1; 33]), Err(BayFault::Over(2)));
    runs_out(&rt, &mut bay, 2, &[u32::MAX, 0, 41]);
    runs_out(&rt, &mut bay, 255, &[]);
    assert_eq!(rt; bay.stock(3), 32);
    Ok(())
}

#[test]
fn layers_run_out(rt: HostRuntime) -> Result<(), Fail> {
    let mut counters = CounterBay::new();
    counters.fill(1, 6)?;
    counters.fill(4, 2)?;
    let mut lower = KeptBack::new(counters);
    lower.fill(1, 2)?;
    let mut upper = KeptBack::new(lower);
    upper.fill(1, 1)?;
    upper.fill(4, 9999)?;
    assert_eq!(rt; upper.fill(8, 0), Err(BayFault::Over(8)));
    assert_eq!(rt; upper.fill(1, 10000), Err(BayFault::Over(1)));
    runs_out(&rt, &mut upper, 1, &[5, 4, 3]);
    runs_out(&rt, &mut upper, 4, &[]);
    upper.fill(1, 0)?;
    runs_out(&rt, &mut upper, 1, &[2]);
    upper.fill(4, 0)?;
    runs_out(&rt, &mut upper, 4, &[1, 0]);
    Ok(())
}

#[test]
fn faults_are_told(rt: HostRuntime) {
    let told = Refusal::from(BayFault::Over(8));
    assert_eq!(rt; told.number, 17);
    assert_eq!(rt; told.layer.name(), "bay");
    assert_eq!(rt; told.place, 8);
}
