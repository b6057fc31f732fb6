//! Answers lines of hex by hashes in hex: `MESSAGE` by its SHA-256, and `KEY MESSAGE` by the HMAC-SHA-256 under the key.
#![tactic(auto)]

ghost use Rattle.std.specs.Prelude.{◌≡◌, ℕ, ◌<◌, IfOk, MatchResult, ◌≢◌};
ghost use Rattle.digest_vectors.specs.Hex.{Coded, Hashed, digit, hex_of};

use anyhow::anyhow;
use digest::{hmac_sha256, sha256};
use std::alloc::Global;
use std::io::{BufRead, BufReader, BufWriter, Write};

/// The value of a digit.
// By hand: the kit's and the repository's readers of hex take capital letters too, which no text here may have.
fn value(character: u8) -> anyhow::Result<u8>
    ensures { MatchResult result (λ d. (d < 16) × (digit d ≡ character)) (λ _. (d : ℕ) → d < 16 → digit d ≢ character) }
{
    match character {
        b'0'..=b'9' => Ok(character - b'0'),
        b'a'..=b'f' => Ok(character - b'a' + 10),
        _ => Err(anyhow!("a character is no digit")),
    }
}

/// The bytes that a text in hex stands for.
fn from_hex(alloc: Global, text: &[u8]) -> anyhow::Result<Vec<u8>>
    ensures { IfOk result (λ v. hex_of v.items ≡ text.now) }
{
    let mut bytes = Vec::new(alloc);
    let mut left = text;
    while let [high, low, rest @ ..] = left {
        let x = value(*high)?;
        let y = value(*low)?;
        bytes.push(x * 16 + y)?;
        left = rest;
    }
    if !left.is_empty() {
        return Err(anyhow!("half a byte"));
    }
    Ok(bytes)
}

/// The SHA-256 of the message that `text` stands for.
fn hashed(alloc: Global, text: &[u8]) -> anyhow::Result<[u8; 32]>
    ensures { IfOk result (λ d. Hashed text.now d) }
{
    let message = from_hex(alloc, text)?;
    Ok(sha256(&message))
}

/// The HMAC-SHA-256 of the message that `text` stands for, under the key that `key` stands for.
fn coded(alloc: Global, key: &[u8], text: &[u8]) -> anyhow::Result<[u8; 32]>
    ensures { IfOk result (λ d. Coded key.now text.now d) }
{
    let secret = from_hex(alloc, key)?;
    let message = from_hex(alloc, text)?;
    Ok(hmac_sha256(&secret, &message))
}

/// The answer to a line: the code where it has a key before a space, else the hash.
fn answer(alloc: Global, line: &str) -> anyhow::Result<[u8; 32]> {
    match line.split_once(' ') {
        Some((key, message)) => coded(alloc, key.as_bytes(), message.as_bytes()),
        None => hashed(alloc, line.as_bytes()),
    }
}

fn main(rt: HostRuntime) -> anyhow::Result<()> {
    let mut out = BufWriter::new(rt.alloc(), rt.stdout())?;
    for line in BufReader::new(rt.alloc(), rt.stdin())?.lines(rt.alloc()) {
        for byte in answer(rt.alloc(), line?.as_str())? {
            write!(out, "{byte:02x}")?;
        }
        writeln!(out)?;
    }
    out.flush()?;
    Ok(())
}
