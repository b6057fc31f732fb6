//! A comparison that does not stop where two values differ.
ghost use Rattle.std.specs.Prelude.{◌≡◌, Decides};

/// Whether two hashes, codes or signatures of one length are equal.
///
/// It reads every byte of both whatever it finds, so that the steps it takes do not tell where they differ. That is
/// how it is written: no contract speaks of time.
pub fn same<const N: usize>(a: &[u8; N], b: &[u8; N]) -> bool
    ensures decides { Decides result (a.now ≡ b.now) }
{
    let differs = a
        .iter()
        .zip(b)
        .fold(0, |differs, (x, y)| differs | (*x ^ *y));
    differs == 0
}
