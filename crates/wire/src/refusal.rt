//! Why the box refuses a message, and what it notices besides; each has a number.
ghost use Rattle.std.specs.Prelude.{◌≡◌};
ghost use Rattle.std.specs.Option.{ok_or};
ghost use Rattle.wire.specs.Refusals.{number_of, refusal_of};
ghost use Rattle.wire.specs.declared.refusal.Refusal.TheVariants.{Malformed};

/// A refusal or a notice of the box.
#[derive(Clone, Copy, Debug, PartialEq, Eq)]
pub enum Refusal {
    /// The kind is unknown, the length is bad, or a line is no hexadecimal text.
    Malformed = 1,
    /// There is no such server, the midpoint is above 2^62, the radius above 2^31, or settings are out of range.
    OutOfRange = 2,
    /// The nonce was not sent to this server, or was answered.
    UnknownNonce = 3,
    /// The signature is wrong.
    WrongSignature = 4,
    /// The reply came after more than ten seconds, or the request is closed.
    TooLate = 5,
    /// No such event is kept.
    UnknownEvent = 6,
    /// A notice: no world is left.
    NoWorldLeft = 7,
    /// The local clock went back.
    ClockWentBack = 8,
    /// A notice: the oldest moment that was kept went.
    OldestMomentGone = 9,
    /// There would be a 17th pending request or a 257th event.
    Full = 10,
}

impl From<Refusal> for u8 {
    ghost from_gives = { λ refusal number. number ≡ number_of refusal };

    fn from(refusal: Refusal) -> u8 {
        refusal as u8
    }
}

impl TryFrom<u8> for Refusal {
    /// A number that no refusal has is malformed.
    type Error = Refusal;

    ghost try_from_gives = { λ number r. r ≡ ok_or (refusal_of number) Malformed };

    fn try_from(number: u8) -> Result<Refusal, Refusal> {
        match number {
            1 => Ok(Refusal::Malformed),
            2 => Ok(Refusal::OutOfRange),
            3 => Ok(Refusal::UnknownNonce),
            4 => Ok(Refusal::WrongSignature),
            5 => Ok(Refusal::TooLate),
            6 => Ok(Refusal::UnknownEvent),
            7 => Ok(Refusal::NoWorldLeft),
            8 => Ok(Refusal::ClockWentBack),
            9 => Ok(Refusal::OldestMomentGone),
            10 => Ok(Refusal::Full),
            _ => Err(Refusal::Malformed),
        }
    }
}
