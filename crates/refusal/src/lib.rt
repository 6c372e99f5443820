// Why a call is refused. Each cause has the number that document 01 gives it: 1 to 30 are those of the standard's Table 17, with its
// names; those from 8192 on are the project's own.
#![tactic(auto)]

ghost use Rattle.std.specs.Prelude.{ℕ, ◌≡◌, refl, Some, decimal};
ghost use Rattle.refusal.specs.Numbers.{number};
ghost use Rattle.refusal.specs.declared.Refusal.{Refusal};

use std::error::Error;
use std::fmt;

#[derive(Clone, Copy, Debug, PartialEq, Eq, Hash)]
pub enum Refusal {
    InvalidPayloadType = 1,
    DoiNotSupported = 2,
    SituationNotSupported = 3,
    InvalidCookie = 4,
    InvalidMajorVersion = 5,
    InvalidMinorVersion = 6,
    InvalidExchangeType = 7,
    InvalidFlags = 8,
    InvalidMessageId = 9,
    InvalidProtocolId = 10,
    InvalidSpi = 11,
    AttributesNotSupported = 13,
    NoProposalChosen = 14,
    BadProposalSyntax = 15,
    PayloadMalformed = 16,
    InvalidIdInformation = 18,
    InvalidCertEncoding = 19,
    InvalidHashInformation = 23,
    AuthenticationFailed = 24,
    UnsupportedExchangeType = 29,
    UnequalPayloadLengths = 30,
    BufferTooSmall = 8192,
    BookUnlawful = 8193,
    AcceptedBefore = 8194,
    CallUnexpected = 8195,
    GivenUp = 8196,
    BehindWindow = 8197,
    CounterAtEnd = 8198,
    TableFull = 8199,
    EntryPresent = 8200,
    NoCapture = 8201,
    ListFull = 8202,
}

impl Refusal {
    // The number that document 01 gives it.
    pub fn number(self) -> u16
        ensures { result ≡ number self }
    {
        self as u16
    }
}

// What a call can be refused by: a refusal, or any number where a caller has no more than that.
pub trait Numbered: Copy {
    ghost numbered: { Self → ℕ };

    ghost of: { Refusal → Self };

    fn numbered(self) -> u16
        ensures { result ≡ numbered self };

    fn of(refusal: Refusal) -> Self
        ensures { result ≡ of refusal };

    ghost same_number: { (refusal : Refusal) → numbered (of refusal) ≡ number refusal };
}

impl Numbered for Refusal {
    ghost numbered = { number };

    ghost of = { λ refusal. refusal };

    ghost same_number = { λ refusal. refl };

    fn numbered(self) -> u16 {
        self.number()
    }

    fn of(refusal: Refusal) -> Refusal {
        refusal
    }
}

impl Numbered for u16 {
    ghost numbered = { λ n. n };

    ghost of = { number };

    ghost same_number = { λ refusal. refl };

    fn numbered(self) -> u16 {
        self
    }

    fn of(refusal: Refusal) -> u16 {
        refusal.number()
    }
}

impl From<Refusal> for u32 {
    ghost from_gives = { λ refusal n. n ≡ number refusal };

    fn from(refusal: Refusal) -> u32 {
        refusal as u32
    }
}

// It is printed as its number.
impl fmt::Display for Refusal {
    ghost output = { λ refusal. Some (decimal (number refusal)) };

    fn fmt<W: fmt::Write>(&self, f: &mut fmt::Formatter<W>) -> fmt::Result {
        let number = *self as u16;
        write!(f, "{number}")
    }
}

impl Error for Refusal {}
