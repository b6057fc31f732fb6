//! What messages to the box are on examples.
use crate::input::{Input, read_input};
use crate::refusal::Refusal;
use std::test::Fail;

#[test]
fn messages_to_the_box(rt: HostRuntime) {
    let count = [17, 0, 0, 0, 0, 0, 0, 1, 2];
    assert!(rt; matches!(read_input(&count), Ok(Input::Count(258))));
    assert!(rt; matches!(read_input(&[18, 3]), Ok(Input::Ask(3))));
    assert!(rt; matches!(read_input(&[19]), Ok(Input::Mark)));
    let event = [20, 0, 0, 0, 0, 0, 0, 0, 9];
    assert!(rt; matches!(read_input(&event), Ok(Input::Event(9))));
    assert!(rt; matches!(read_input(&[21, 1]), Err(Refusal::Malformed)));
}

#[test]
fn refusals_by_number(rt: HostRuntime) {
    assert!(rt; u8::from(Refusal::Full) == 10);
    assert!(rt; Refusal::try_from(3) == Ok(Refusal::UnknownNonce));
    assert!(rt; Refusal::try_from(11) == Err(Refusal::Malformed));
}

#[test]
fn settings(rt: HostRuntime) -> Result<(), Fail> {
    let mut bytes = [0; 71];
    bytes[0] = 16;
    bytes[1] = 2;
    bytes[2] = 1;
    bytes[6] = 100;
    let Ok(Input::Settings(settings)) = read_input(&bytes) else {
        return Err(Fail::new("no settings"));
    };
    assert!(rt; settings.servers == 2 && settings.faulty == 1 && settings.drift == 100);
    assert!(rt; settings.keys.len() == 64);
    bytes[2] = 2;
    assert!(rt; matches!(read_input(&bytes), Err(Refusal::OutOfRange)));
    bytes[1] = 3;
    assert!(rt; matches!(read_input(&bytes), Err(Refusal::Malformed)));
    Ok(())
}

#[test]
fn a_reply_cut_at_every_length(rt: HostRuntime) -> Result<(), Fail> {
    let mut bytes = [0; 111];
    bytes[0] = 2;
    bytes[1] = 7;
    bytes[45] = 5;
    for n in 0..110 {
        assert!(rt; matches!(read_input(&bytes[0..n]), Err(Refusal::Malformed)));
    }
    assert!(rt; matches!(read_input(&bytes), Err(Refusal::Malformed)));
    let Ok(Input::Reply(reply)) = read_input(&bytes[0..110]) else {
        return Err(Fail::new("no reply"));
    };
    let reading = reply.reading;
    assert!(rt; reading.server == 7 && reading.midpoint == 0 && reading.radius == 5);
    Ok(())
}
