// What is said of events before, between and after replies.
use crate::said_of;
use choice::case::{Case, Claim};
use span::Span;
use span::rate::Drift;
use std::test::Fail;
use trail::Moment;

fn drift(millionths: u64) -> Result<Drift, Fail> {
    Ok(Drift::new(millionths).ok_or("no drift")?)
}

fn moment(ticks: u64, claim: Option<Claim>) -> Moment {
    Moment {
        count: 0,
        ticks,
        marked: false,
        claim,
    }
}

// An event, a reply of server 0, an event, a reply of server 1, an event: ten ticks apart.
fn two_replies() -> [Moment; 7] {
    [
        moment(10, None),
        moment(10, Some(Claim::AtMost(0, 120))),
        moment(10, Some(Claim::AtLeast(0, 100))),
        moment(10, None),
        moment(10, Some(Claim::AtMost(1, 130))),
        moment(10, Some(Claim::AtLeast(1, 125))),
        moment(10, None),
    ]
}

#[test]
fn before_between_and_after(rt: HostRuntime) -> Result<(), Fail> {
    let d = drift(0)?;
    let moments = two_replies();
    let base = [Case::new(0, Span::Between(0, 1000))];
    assert_eq!(rt; said_of(&base, d, &moments, 0), Some((80, 90)));
    assert_eq!(rt; said_of(&base, d, &moments, 3), Some((110, 120)));
    assert_eq!(rt; said_of(&base, d, &moments, 6), Some((140, 150)));
    Ok(())
}

#[test]
fn over_all_choices(rt: HostRuntime) -> Result<(), Fail> {
    let d = drift(0)?;
    let moments = two_replies();
    let span = Span::Between(0, 1000);
    let base = [Case::new(1, span), Case::new(2, span)];
    assert_eq!(rt; said_of(&base, d, &moments, 0), Some((75, 110)));
    assert_eq!(rt; said_of(&base, d, &moments, 6), Some((135, 170)));
    let none = [Case::new(1, Span::Empty), Case::new(2, span)];
    assert_eq!(rt; said_of(&none, d, &moments, 0), Some((80, 110)));
    let no_one = [Case::new(1, Span::Empty), Case::new(2, Span::Empty)];
    assert_eq!(rt; said_of(&no_one, d, &moments, 0), None);
    Ok(())
}

#[test]
fn back_through_the_drift(rt: HostRuntime) -> Result<(), Fail> {
    let ever = Span::Between(0, 1 << 62);
    let moments = [
        moment(0, None),
        moment(1_000_000, Some(Claim::AtMost(0, 2_000_000))),
        moment(0, Some(Claim::AtLeast(0, 2_000_000))),
    ];
    assert_eq!(rt;
        said_of(&[Case::new(0, ever)], drift(1000)?, &moments, 0),
        Some((999_000, 1_001_000))
    );
    assert_eq!(rt;
        said_of(&[Case::new(1, ever)], drift(1000)?, &moments, 0),
        Some((0, 4_611_686_018_426_388_904))
    );
    Ok(())
}
