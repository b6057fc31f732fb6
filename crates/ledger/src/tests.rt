// The worked cases, through the code.
use crate::Ledger;
use choice::case::Claim;
use choice::row::{cut_row, move_row, new_row};
use choice::servers::Servers;
use span::Span;
use span::rate::{Drift, Stride};
use std::test::Fail;

// The stride of so many ticks of an exact clock.
fn exact(ticks: u64) -> Stride {
    Stride {
        least: ticks,
        most: ticks,
    }
}

fn servers(many: u8, faulty: u8) -> Result<Servers, Fail> {
    Ok(Servers::new(many, faulty).ok_or("too many servers")?)
}

// Whether a ledger says just the times from one to another.
fn says(ledger: &Ledger, at: usize, lo: u64, hi: u64) -> bool {
    let runs = ledger.runs();
    at < runs.len() && runs[at].lo == lo && runs[at].hi == hi
}

#[test]
fn two_agree(rt: HostRuntime) -> Result<(), Fail> {
    let mut ledger = Ledger::new(rt.alloc(), servers(3, 1)?, 1 << 61)?;
    ledger.hear(exact(0), 0, 10, 20);
    ledger.hear(exact(0), 1, 15, 25);
    ledger.hear(exact(0), 2, 40, 50);
    assert!(rt; ledger.runs().len() == 1 && says(&ledger, 0, 15, 20));
    assert_eq!(rt; ledger.named(), 4);
    Ok(())
}

#[test]
fn the_middle_decides(rt: HostRuntime) -> Result<(), Fail> {
    let mut ledger = Ledger::new(rt.alloc(), servers(3, 1)?, 1 << 61)?;
    ledger.hear(exact(0), 0, 10, 20);
    ledger.hear(exact(0), 1, 18, 30);
    ledger.hear(exact(0), 2, 28, 40);
    assert!(rt; ledger.runs().len() == 2 && says(&ledger, 0, 18, 20) && says(&ledger, 1, 28, 30));
    assert_eq!(rt; ledger.named(), 0);
    ledger.pass(exact(1));
    ledger.hear(exact(0), 1, 19, 21);
    assert!(rt; ledger.runs().len() == 1 && says(&ledger, 0, 19, 21));
    assert_eq!(rt; ledger.named(), 4);
    Ok(())
}

#[test]
fn a_reply_bounds_its_asking(rt: HostRuntime) -> Result<(), Fail> {
    let mut row = new_row(rt.alloc(), servers(1, 0)?, Span::upto(1 << 61))?;
    cut_row(&mut row, Claim::AtMost(0, 105));
    move_row(&mut row, exact(30));
    cut_row(&mut row, Claim::AtLeast(0, 95));
    assert_eq!(rt; row.len(), 1);
    assert!(rt; row[0].choice == 0 && row[0].lo == 95 && row[0].hi == 135);
    Ok(())
}

#[test]
fn no_world_is_left(rt: HostRuntime) -> Result<(), Fail> {
    let mut ledger = Ledger::new(rt.alloc(), servers(1, 0)?, 1 << 61)?;
    ledger.hear(exact(0), 0, 10, 20);
    ledger.hear(exact(0), 0, 30, 40);
    assert!(rt; ledger.runs().is_empty());
    Ok(())
}

// Ten servers of which four may be faulty: 210 choices of just four.
#[test]
fn ten_servers(rt: HostRuntime) -> Result<(), Fail> {
    let mut ledger = Ledger::new(rt.alloc(), servers(10, 4)?, 1 << 61)?;
    for server in 0..6u8 {
        ledger.hear(exact(0), server, 1000, 2000);
    }
    assert!(rt; ledger.runs().len() == 1 && says(&ledger, 0, 1000, 2000));
    for server in 6..10u8 {
        ledger.hear(exact(0), server, 5000, 6000);
    }
    assert!(rt; ledger.runs().len() == 1 && says(&ledger, 0, 1000, 2000));
    assert_eq!(rt; ledger.named(), 0b11_1100_0000);
    Ok(())
}
