//! The hash for callers in C or Rust, to whom neither an array nor a `Result` can be returned, so that a `bool` says whether it was written.
#![tactic(auto)]

ghost use Rattle.std.specs.Prelude.{◌≡◌, true, length, MatchBool};
ghost use Rattle.digest.specs.Sha256.{sha256};

/// Writes the SHA-256 hash of `message` to `out`, and answers whether `out` has 32 bytes; where it has not, it stays as it is.
#[unsafe(no_mangle)]
pub extern "C" fn digest_sha256(message: &[u8], out: &mut [u8]) -> bool
    ensures value { MatchBool result (out.new ≡ sha256 message.now) (out.new ≡ out.old) }
    ensures succeeds { length out.old ≡ 32 → result ≡ true }
{
    if out.len() != 32 {
        return false;
    }
    out.copy_from_slice(&digest::sha256(message));
    true
}
