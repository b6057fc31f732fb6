// Reads settings and a record that the box wrote, and says whether it is as written. No line of a record can be worked out yet: an empty one is as written.
#![tactic(auto)]

use anyhow::anyhow;
use std::{env, fs};

fn main(rt: HostRuntime) -> anyhow::Result<()> {
    let mut args = env::args(&rt)?.skip(1);
    let (Some(_settings), Some(record), None) = (args.next(), args.next(), args.next()) else {
        return Err(anyhow!("usage: record SETTINGS RECORD"));
    };
    let text = fs::read_to_string(&rt, record.as_str())?;
    let Some(first) = text.lines().next() else {
        return Ok(println!(rt; "as written")?);
    };
    println!(rt; "1: {first}")?;
    Err(anyhow!("the record differs"))
}
