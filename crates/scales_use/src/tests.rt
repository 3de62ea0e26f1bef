// The scales on examples, told by what their grades print.
use scales::pair::Pair;
use scales::rows;
use scales::scale::{Ceiling, Scale};
use scales::set::Set;
use scales::span::Span;
use scales::tally::Tally;
use std::alloc::Global;
use std::fmt::Display;
use std::process::Abort;
use std::test::Fail;

fn prints<D: Display + Drop>(
    rt: &impl Abort,
    heap: Global,
    grade: D,
    text: &str,
) -> Result<(), Fail> {
    let shown = grade.to_string(heap)?;
    assert!(rt; shown.as_str() == text);
    Ok(())
}

fn span(low: u16, high: Ceiling) -> Result<Span, Fail> {
    Span::new(low, high).ok_or_else(|| Fail::new("no span"))
}

fn set(members: &[u16]) -> Result<Set, Fail> {
    Set::new(members).ok_or_else(|| Fail::new("no set"))
}

#[test]
fn tallies(rt: HostRuntime) -> Result<(), Fail> {
    prints(&rt, rt.alloc(), Tally::One.add(Tally::One), "many")?;
    prints(&rt, rt.alloc(), Tally::Zero.mul(Tally::Many), "none")?;
    prints(&rt, rt.alloc(), Tally::Zero.join(Tally::One), "many")?;
    prints(&rt, rt.alloc(), Tally::one(), "one")?;
    assert!(rt; !Tally::Zero.leq(Tally::One));
    Ok(())
}

#[test]
fn spans(rt: HostRuntime) -> Result<(), Fail> {
    prints(
        &rt,
        rt.alloc(),
        span(1, Ceiling::Count(2))?.mul(span(2, Ceiling::Count(3))?),
        "2..6",
    )?;
    prints(
        &rt,
        rt.alloc(),
        span(5000, Ceiling::Count(6000))?.add(span(4000, Ceiling::Count(5000))?),
        "9000..inf",
    )?;
    let many = span(9999, Ceiling::Unbounded)?;
    prints(&rt, rt.alloc(), many.add(many), "9999..inf")?;
    prints(&rt, rt.alloc(), many.mul(Span::zero()), "0..0")?;
    prints(&rt, rt.alloc(), many.ceiling(), "inf")?;
    assert!(rt; Span::new(3, Ceiling::Count(2)).is_none());
    assert!(rt; Span::new(0, Ceiling::Count(10_000)).is_none());
    assert!(rt; many.low() == 9999);
    Ok(())
}

#[test]
fn sets(rt: HostRuntime) -> Result<(), Fail> {
    let one_or_two = set(&[1, 2])?;
    prints(
        &rt,
        rt.alloc(),
        one_or_two.mul(Set::one().add(Set::one())),
        "{2,4}",
    )?;
    prints(&rt, rt.alloc(), one_or_two.add(one_or_two), "{2,3,4}")?;
    prints(&rt, rt.alloc(), set(&[2])?.mul(set(&[3, 0])?), "{0,3,6}")?;
    prints(&rt, rt.alloc(), set(&[8])?.add(set(&[8, 9])?), "{15}")?;
    assert!(rt; set(&[8])?.add(set(&[8])?).ceiling() == Ceiling::Unbounded);
    assert!(rt; one_or_two.contains(2) && !one_or_two.contains(16));
    assert!(rt; Set::new(&[]).is_none());
    assert!(rt; Set::new(&[1, 16]).is_none());
    Ok(())
}

#[test]
fn pairs(rt: HostRuntime) -> Result<(), Fail> {
    let p = Pair {
        first: Tally::One,
        second: span(2, Ceiling::Count(2))?,
    };
    prints(&rt, rt.alloc(), p.add(Pair::zero()), "(one,2..2)")?;
    assert!(rt; p.ceiling() == Ceiling::Count(1));
    Ok(())
}

#[test]
fn rows_of_grades(rt: HostRuntime) -> Result<(), Fail> {
    let mut row = [Tally::Zero, Tally::One, Tally::One];
    rows::add_into(&mut row, &[Tally::One, Tally::One]);
    assert!(rt; rows::is_below(&[Tally::One, Tally::One, Tally::One], &row));
    assert!(rt; !rows::is_below(&row, &[Tally::One, Tally::One, Tally::One]));
    prints(&rt, rt.alloc(), rows::sum(&row), "many")
}
