//! What texts are on examples.
use crate::hex::{read_line, write_line};
use crate::text::read_input_line;
use wire::input::Input;
use wire::refusal::Refusal;

#[test]
fn texts(rt: HostRuntime) {
    let mut out = [0; 8];
    assert!(rt; write_line(&[0x1f, 0xa0], &mut out) == Some(5));
    assert!(rt; out == *b"1fa0\n\0\0\0");
    let mut bytes = [0; 2];
    assert!(rt; matches!(read_line(b"1Fa0", &mut bytes), Ok(2)));
    assert!(rt; bytes == [0x1f, 0xa0]);
    assert!(rt; matches!(read_line(b"", &mut bytes), Err(Refusal::Malformed)));
    assert!(rt; matches!(read_line(b"1fa", &mut bytes), Err(Refusal::Malformed)));
    assert!(rt; matches!(read_line(b"1fag", &mut bytes), Err(Refusal::Malformed)));
    assert!(rt; matches!(read_line(b"1fa0b1", &mut bytes), Err(Refusal::Malformed)));
}

#[test]
fn a_message(rt: HostRuntime) {
    let mut room = [0; 16];
    assert!(rt; matches!(read_input_line(b"13", &mut room), Ok(Input::Mark)));
}
