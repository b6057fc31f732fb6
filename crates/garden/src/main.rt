// Plays a script from standard input and prints each moment; a line that is refused ends it.
#![tactic(auto)]

use anyhow::anyhow;
use choice::case::is_faulty;
use choice::runs::Run;
use play::Player;
use play::scene::Moment;
use std::io::{BufRead, BufReader};

// The runs of times that are said. A run of the library `choice` has no one text, so that it is printed here and has no `Display`.
fn print_runs(rt: &HostRuntime, runs: &[Run]) -> anyhow::Result<()> {
    print!(rt; " runs")?;
    for Run { lo, hi } in runs {
        print!(rt; " {lo}-{hi}")?;
    }
    Ok(())
}

// The named servers.
fn print_named(rt: &HostRuntime, named: u16) -> anyhow::Result<()> {
    print!(rt; " named")?;
    for server in (0..10u8).filter(|server| is_faulty(named, *server)) {
        print!(rt; " {server}")?;
    }
    Ok(())
}

// The hand, and whether its time may be.
fn print_hand(rt: &HostRuntime, hand: Option<u64>, sound: bool) -> anyhow::Result<()> {
    if let Some(time) = hand {
        let sound = if sound { "sound" } else { "not sound" };
        print!(rt; " hand {time} {sound}")?;
    }
    Ok(())
}

// A moment of the world that is played, and the runs that are said then.
fn print_moment(rt: &HostRuntime, moment: &Moment, runs: &[Run]) -> anyhow::Result<()> {
    let Moment {
        count,
        truth,
        said,
        width,
        named,
        hand,
        sound,
    } = *moment;
    let said = if said { "said" } else { "not said" };
    print!(rt; "count {count} true {truth} {said} width {width}")?;
    print_runs(rt, runs)?;
    print_named(rt, named)?;
    print_hand(rt, hand, sound)?;
    println!(rt)?;
    Ok(())
}

// Plays one line, and prints the moment after it.
fn play(rt: &HostRuntime, player: &mut Player, number: u64, line: &[u8]) -> anyhow::Result<()> {
    match player.line(rt.alloc(), line) {
        Ok(Some(moment)) => print_moment(rt, &moment, player.runs()),
        Ok(None) => Ok(()),
        Err(fault) => {
            println!(rt; "line {number} is refused: {fault}")?;
            Err(anyhow!("no world of these rules"))
        }
    }
}

fn main(rt: HostRuntime) -> anyhow::Result<()> {
    let input = BufReader::new(rt.alloc(), rt.stdin())?;
    let mut player = Player::new();
    for (number, line) in (1..).zip(input.split(rt.alloc(), b'\n')) {
        play(&rt, &mut player, number, &line?)?;
    }
    Ok(())
}
