// What the hand shows on examples.
use crate::Hand;
use choice::runs::Run;
use span::CEILING;

fn run(lo: u64, hi: u64) -> Run {
    Run { lo, hi }
}

#[test]
fn catches_up_and_stands_still(rt: HostRuntime) {
    let equal = [run(10, 21), run(40, 51)];
    let hand = Hand::new().heard(&equal, 7);
    assert_eq!(rt; hand.shown(), Some(10));
    let hand = hand.passed(&equal, 3);
    assert_eq!(rt; hand.shown(), Some(13));
    let hand = hand.heard(&equal, 3).passed(&equal, 1000);
    assert_eq!(rt; hand.shown(), Some(15));
    let far = [run(0, CEILING)];
    assert_eq!(rt; hand.passed(&far, 1_000_000).shown(), Some(1_000_515));
    assert_eq!(rt; hand.passed(&far, u64::MAX).shown(), Some(1 << 61));
}

#[test]
fn goes_over_gaps(rt: HostRuntime) {
    let runs = [run(0, 10), run(100, 300)];
    let hand = Hand::new().heard(&runs, 0);
    assert_eq!(rt; hand.passed(&runs, 5).shown(), Some(5));
    let hand = hand.passed(&runs, 15);
    assert_eq!(rt; hand.shown(), Some(100));
    assert!(rt; hand.is_sound(&runs));
    let behind = hand.passed(&[run(0, 99)], 5);
    assert_eq!(rt; behind.shown(), Some(100));
    assert!(rt; !behind.is_sound(&[run(0, 99)]));
}

#[test]
fn runs_freely_until_a_reply(rt: HostRuntime) {
    let runs = [run(0, 1000)];
    let hidden = Hand::new().lost(3).passed(&runs, 4);
    assert_eq!(rt; hidden.shown(), None);
    assert!(rt; !hidden.is_sound(&runs));
    let hand = hidden.heard(&[run(100, 100)], 5).heard(&[], 50);
    assert_eq!(rt; hand.shown(), Some(150));
    let hand = hand.passed(&[run(7, 7)], 10);
    assert_eq!(rt; hand.shown(), Some(160));
    assert_eq!(rt; hand.heard(&runs, 10).shown(), Some(170));
    assert_eq!(rt;
        hand.heard(&runs, 10).passed(&[run(7, 7)], 10).shown(),
        Some(170)
    );
    assert_eq!(rt; hand.lost(u64::MAX).shown(), Some(CEILING));
}
