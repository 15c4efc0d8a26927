// Why a call was declined: one case for each number, and the words a technician reads.
// The numbers are listed once, in specs/Declines.antt, and the contracts of every crate use that list.
ghost use Rattle.std.specs.Prelude.{◌≡◌};
ghost use Rattle.rules.specs.Declines.{number_of};
ghost use Rattle.rules.specs.declared.decline.Decline.TheVariants.{NoMemory};

use std::alloc::AllocError;
use std::error::Error;
use std::fmt;

#[derive(Clone, Copy, PartialEq, Eq, Debug)]
pub enum Decline {
    TextTooLong,
    ByteNotAllowed,
    NoFinalLineFeed,
    NotAForm,
    OutsideRange,
    LowerAboveUpper,
    Full,
    TooFewEntries,
    NotOfKind,
    NoSuchPlace,
    DefaultStays,
    OutOfOrder,
    SameDecision,
    NoSuchField,
    NoWithdrawalLayer,
    AlreadyWithdrawn,
    NoteFull,
    NotWithdrawn,
    TooManyTests,
    NoMemory,
}

impl Decline {
    // A match, and no discriminants: it reads as the list in specs/ does, and a number given twice is refused by proof.
    pub fn number(&self) -> u8
        ensures { result ≡ number_of self.now }
    {
        match self {
            Decline::TextTooLong => 1,
            Decline::ByteNotAllowed => 2,
            Decline::NoFinalLineFeed => 3,
            Decline::NotAForm => 4,
            Decline::OutsideRange => 5,
            Decline::LowerAboveUpper => 6,
            Decline::Full => 7,
            Decline::TooFewEntries => 8,
            Decline::NotOfKind => 9,
            Decline::NoSuchPlace => 10,
            Decline::DefaultStays => 11,
            Decline::OutOfOrder => 12,
            Decline::SameDecision => 13,
            Decline::NoSuchField => 14,
            Decline::NoWithdrawalLayer => 15,
            Decline::AlreadyWithdrawn => 16,
            Decline::NoteFull => 17,
            Decline::NotWithdrawn => 18,
            Decline::TooManyTests => 19,
            Decline::NoMemory => 99,
        }
    }

    // No derive of messages (`thiserror`): the number, which stands before the words, is listed once, in `number`, and the
    // library stands on std alone.
    fn meaning(&self) -> &'static str {
        match self {
            Decline::TextTooLong => "the text is longer than 65536 bytes",
            Decline::ByteNotAllowed => "a byte that is not allowed in a table text",
            Decline::NoFinalLineFeed => "the text is empty or its last line does not end",
            Decline::NotAForm => "no form that is due here begins so",
            Decline::OutsideRange => "a value lies outside its field's range",
            Decline::LowerAboveUpper => "the lower end lies above the upper end",
            Decline::Full => "there is no room for one more",
            Decline::TooFewEntries => "the diagram needs more entries than there are",
            Decline::NotOfKind => "no request or decision of this kind has these numbers",
            Decline::NoSuchPlace => "the table has no such place",
            Decline::DefaultStays => "the default rule is not swapped or deleted",
            Decline::OutOfOrder => "the first place of a swap must be above the second",
            Decline::SameDecision => "the rule has that decision already",
            Decline::NoSuchField => "the kind of request has no such field",
            Decline::NoWithdrawalLayer => "no withdrawal layer stands on this field",
            Decline::AlreadyWithdrawn => "the value is withdrawn already",
            Decline::NoteFull => "the withdrawal layer keeps no more values",
            Decline::NotWithdrawn => "the value is not withdrawn",
            Decline::TooManyTests => "there are more than 1024 tests",
            Decline::NoMemory => "there is not enough memory",
        }
    }
}

// The number first, then its meaning, as "declined 11: the default rule is not swapped or deleted".
impl fmt::Display for Decline {
    fn fmt<W: fmt::Write>(&self, f: &mut fmt::Formatter<W>) -> fmt::Result {
        write!(f, "declined {}: {}", self.number(), self.meaning())
    }
}

impl Error for Decline {}

// Only setting up claims memory, and where there is not enough it is declined 99.
impl From<AllocError> for Decline {
    ghost from_gives = { λ _ r. r ≡ NoMemory };

    fn from(_e: AllocError) -> Self {
        Self::NoMemory
    }
}
