//! What replies are accepted, on an example.
ghost use Rattle.std.specs.Prelude.{◌<◌};

use crate::hmac::HmacSignatures;
use crate::reply::{accepts_reply, signed_reply};
use wire::input::Reading;

const READING: Reading = Reading {
    server: 3,
    nonce: [9; 32],
    midpoint: 1_000_000,
    radius: 250,
};

// The message with one of its bits turned over.
fn flipped(mut message: [u8; 110], bit: usize) -> [u8; 110]
    requires { bit < 880 }
{
    message[bit / 8] ^= 1 << (bit % 8);
    message
}

#[test]
fn no_flipped_bit_is_accepted(rt: HostRuntime) {
    let key = [7; 32];
    let message = signed_reply(&HmacSignatures, &key, &READING);
    assert!(rt; accepts_reply(&HmacSignatures, &key, &message));
    for i in 0..880 {
        assert!(rt; !accepts_reply(&HmacSignatures, &key, &flipped(message, i)));
    }
    assert!(rt; !accepts_reply(&HmacSignatures, &[8; 32], &message));
}

#[test]
fn no_part_is_accepted(rt: HostRuntime) {
    let key = [7; 32];
    let message = signed_reply(&HmacSignatures, &key, &READING);
    for n in 0..110 {
        assert!(rt; !accepts_reply(&HmacSignatures, &key, &message[0..n]));
    }
}
