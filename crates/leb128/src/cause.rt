//! Why the bytes of a saved book are refused.

ghost use Rattle.std.specs.Prelude.{◌≡◌};
ghost use Rattle.leb128.specs.Causes.{cause_number};

/// The rule that bytes break: the one fault type of every reader of a book.
#[derive(Clone, Copy, Debug, PartialEq, Eq)]
pub enum Cause {
    /// The bytes end too early.
    Ended,
    /// A number has more bytes than its shortest spelling.
    LongSpelling,
    /// A number's fifth byte is above 0x0F.
    TooLarge,
    /// A step of 0.
    ZeroStep,
    /// An address above 0xFFFE.
    HighAddress,
    /// A value beyond its field or its rule.
    BadValue,
    /// Over 128 meters.
    ManyMeters,
    /// Over 1,024 records in all.
    ManyRecords,
    /// Records without a standing.
    NoStanding,
}

/// What a reader answers: the value and the bytes behind it, or the cause of the refusal.
pub type Parsed<'a, T> = Result<(T, &'a [u8]), Cause>;

impl From<Cause> for u8 {
    ghost from_gives = { λ cause number. number ≡ cause_number cause };

    /// The refusal's number; all rules on values share one.
    fn from(cause: Cause) -> u8 {
        match cause {
            Cause::Ended => 51,
            Cause::LongSpelling | Cause::TooLarge => 52,
            Cause::ZeroStep
            | Cause::HighAddress
            | Cause::BadValue
            | Cause::ManyMeters
            | Cause::ManyRecords
            | Cause::NoStanding => 53,
        }
    }
}
