// What spans and drifts give on examples.
use crate::rate::Drift;
use crate::{CEILING, Span};
use std::test::Fail;

fn drift(millionths: u64) -> Result<Drift, Fail> {
    Ok(Drift::new(millionths).ok_or("no drift")?)
}

#[test]
fn worked_cases(rt: HostRuntime) -> Result<(), Fail> {
    let d = drift(100)?;
    assert_eq!(rt;
        Span::new(5, 7).later(d, 1_000_000),
        Span::Between(999_905, 1_000_107)
    );
    assert_eq!(rt; d.least(10), 10);
    assert_eq!(rt; d.most(10), 10);
    assert!(rt; d.allows(10, 10) && !d.allows(10, 11) && !d.allows(10, 9));
    Ok(())
}

#[test]
fn drifts_up_to_a_thousand(rt: HostRuntime) -> Result<(), Fail> {
    assert!(rt; Drift::new(1001).is_none());
    let d = drift(1000)?;
    assert_eq!(rt; drift(0)?.share(u64::MAX), 0);
    assert_eq!(rt; drift(0)?.least(u64::MAX), u64::MAX);
    assert_eq!(rt; drift(0)?.most(u64::MAX), u64::MAX);
    assert_eq!(rt; d.share(u64::MAX), 18_446_744_073_709_551);
    assert_eq!(rt; d.least(u64::MAX), 18_428_297_329_635_842_064);
    assert_eq!(rt; d.most(u64::MAX), u64::MAX);
    assert_eq!(rt; d.least(999), 999);
    assert_eq!(rt; d.most(1999), 2000);
    Ok(())
}

#[test]
fn times_end_at_the_ceiling(rt: HostRuntime) -> Result<(), Fail> {
    let d = drift(1000)?;
    assert_eq!(rt; Span::upto(1 << 61), Span::Between(0, 1 << 61));
    assert_eq!(rt; Span::upto(u64::MAX), Span::Between(0, CEILING));
    assert_eq!(rt;
        Span::Between(0, CEILING).later(d, 0),
        Span::Between(0, CEILING)
    );
    assert_eq!(rt; Span::Between(CEILING, CEILING).later(d, 1000), Span::Empty);
    assert_eq!(rt;
        Span::Between(0, CEILING).later(drift(0)?, CEILING),
        Span::Between(CEILING, CEILING)
    );
    assert_eq!(rt; Span::Between(0, CEILING).later(d, u64::MAX), Span::Empty);
    Ok(())
}

#[test]
fn cuts_may_leave_nothing(rt: HostRuntime) -> Result<(), Fail> {
    let s = Span::Between(10, 20);
    assert_eq!(rt; s.at_most(15), Span::Between(10, 15));
    assert_eq!(rt; s.at_most(9), Span::Empty);
    assert_eq!(rt; s.at_least(20), Span::Between(20, 20));
    assert_eq!(rt; s.at_least(21), Span::Empty);
    assert_eq!(rt; Span::new(2, 1), Span::Empty);
    assert_eq!(rt;
        Span::Empty.at_least(0).at_most(CEILING).later(drift(5)?, 1),
        Span::Empty
    );
    assert!(rt; s.contains(10) && s.contains(20) && !s.contains(21) && !Span::Empty.contains(0));
    assert!(rt; s.width() == 10 && Span::Empty.width() == 0);
    Ok(())
}

#[test]
fn back_through_the_drift(rt: HostRuntime) -> Result<(), Fail> {
    let d = drift(1000)?;
    assert_eq!(rt;
        Span::Between(2_000_000, 2_000_010).earlier(drift(100)?, 1_000_000),
        Span::Between(999_900, 1_000_110)
    );
    assert_eq!(rt; Span::Between(3, 5).earlier(d, 5), Span::Between(0, 0));
    assert_eq!(rt; Span::Between(3, 5).earlier(d, 6), Span::Empty);
    assert_eq!(rt; Span::Between(7, 5).earlier(d, 0), Span::Empty);
    assert_eq!(rt;
        Span::Between(u64::MAX, u64::MAX).earlier(d, u64::MAX),
        Span::Between(0, 18_446_744_073_709_551)
    );
    Ok(())
}

#[test]
fn times_of_both(rt: HostRuntime) {
    let s = Span::Between(10, 20);
    assert_eq!(rt; s.meet(Span::Between(15, 30)), Span::Between(15, 20));
    assert_eq!(rt; s.meet(Span::Between(0, 10)), Span::Between(10, 10));
    assert_eq!(rt; s.meet(Span::Between(21, 30)), Span::Empty);
    assert_eq!(rt; s.meet(Span::Empty), Span::Empty);
    assert_eq!(rt; Span::Empty.meet(s), Span::Empty);
}
