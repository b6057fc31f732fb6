// The box: reads a message from each line of standard input. It knows none yet, and refuses each as an unknown one.
#![tactic(auto)]

use std::io::{BufRead, BufReader};

// The message 'refused, for the first reason': an unknown kind.
const REFUSED: &str = "1501";

fn main(rt: HostRuntime) -> anyhow::Result<()> {
    let input = BufReader::new(rt.alloc(), rt.stdin())?;
    for line in input.split(rt.alloc(), b'\n') {
        line?;
        println!(rt; "{REFUSED}")?;
    }
    Ok(())
}
