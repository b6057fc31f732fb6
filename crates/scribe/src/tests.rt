//! What lines of the record are on examples.
use crate::write::{hand_bytes, refused_bytes, write_reckoned};
use choice::runs::Run;
use hextext::hex::next_line;
use lines::line::{Hand, Line, next_run, read_entry};
use lines::text::read_entry_line;
use std::test::Fail;
use wire::refusal::Refusal;

#[test]
fn reckoned_lines(rt: HostRuntime) -> Result<(), Fail> {
    let runs = [Run { lo: 1, hi: 258 }, Run { lo: 600, hi: 601 }];
    let mut bytes = [0; 60];
    assert!(rt; write_reckoned(&mut bytes[0..43], 5, &runs, 3).is_none());
    assert!(rt; write_reckoned(&mut bytes, 5, &runs, 3) == Some(44));
    let Ok(Line::Reckoned(line)) = read_entry(&bytes[0..44]) else {
        return Err(Fail::new("no line"));
    };
    assert!(rt; line.count == 5 && line.named == 3);
    let Some((first, rest)) = next_run(line.runs) else {
        return Err(Fail::new("no run"));
    };
    assert!(rt; first.lo == 1 && first.hi == 258);
    let Some((second, [])) = next_run(rest) else {
        return Err(Fail::new("no second run"));
    };
    assert!(rt; second.lo == 600 && second.hi == 601);
    Ok(())
}

#[test]
fn a_record(rt: HostRuntime) -> Result<(), Fail> {
    let mut room = [0; 16];
    let Some((first, rest)) = next_line(b"1502\n16000000000000000701\n") else {
        return Err(Fail::new("no line"));
    };
    assert!(rt;
        matches!(
            read_entry_line(first, &mut room),
            Ok(Line::Refused(Refusal::OutOfRange))
        )
    );
    let Some((second, rest)) = next_line(rest) else {
        return Err(Fail::new("no second line"));
    };
    let line = read_entry_line(second, &mut room);
    assert!(rt;
        matches!(
            line,
            Ok(Line::Hand(Hand {
                time: 7,
                sound: true
            }))
        )
    );
    assert!(rt; next_line(rest).is_none());
    assert!(rt;
        hand_bytes(&Hand {
            time: 7,
            sound: true,
        }) == [22, 0, 0, 0, 0, 0, 0, 0, 7, 1]
    );
    assert!(rt; refused_bytes(Refusal::Full) == [21, 10]);
    Ok(())
}
