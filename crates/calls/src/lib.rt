// How a call is turned down: the refusals with document 01's numbers, what a call then leaves in each kind of lent part (specs/), and the laws that each call's
// proof cites (proofs/). And how one part is copied to another.
#![tactic(auto)]

ghost use Rattle.std.specs.Prelude.{◌≡◌, Some};
ghost use Rattle.calls.specs.Refusal.{number_of};
ghost use Rattle.calls.specs.Reason.{reason};

use std::fmt;

pub mod copy;

// The discriminants are the numbers.
#[derive(Clone, Copy, Debug, PartialEq, Eq)]
pub enum Refusal {
    RateOrLayout = 1,
    Size = 2,
    Length = 3,
    DegreeSum = 4,
    DegreeTooHigh = 5,
    Malformed = 6,
    Misencoded = 7,
    Value = 8,
    WideCheck = 9,
    NoWord = 10,
    Padding = 11,
}

impl Refusal {
    ghost use Rattle.calls.specs.Refusal.{number_of};
    ghost use Rattle.calls.specs.Parts.{touches_nothing};

    pub fn number(self) -> u8
        ensures { result ≡ number_of self }
    {
        self as u8
    }

    // Whether the call that it turned down left every part as given.
    pub fn touches_nothing(self) -> bool
        ensures { result ≡ touches_nothing self }
    {
        self.number() <= 3
    }
}

impl From<Refusal> for u8 {
    ghost from_gives = { λ r n. n ≡ number_of r };

    fn from(refusal: Refusal) -> u8 {
        refusal.number()
    }
}

impl fmt::Display for Refusal {
    ghost output = { λ refusal. Some (reason refusal) };

    fn fmt<W: fmt::Write>(&self, f: &mut fmt::Formatter<W>) -> fmt::Result {
        let reason = match self {
            Refusal::RateOrLayout => "no such rate, layout or fallback",
            Refusal::Size => "more than 256 symbols or checks",
            Refusal::Length => "a part of the wrong length",
            Refusal::DegreeSum => "degrees that sum to more than 512",
            Refusal::DegreeTooHigh => "a degree above the number of checks",
            Refusal::Malformed => "the parts hold no graph with a column order",
            Refusal::Misencoded => "the encoder is not that of the graph and order",
            Refusal::Value => "a value out of its range",
            Refusal::WideCheck => "a check of more than 32 edges",
            Refusal::NoWord => "rounds that ended without a word",
            Refusal::Padding => "padding bits that are not zero",
        };
        f.write_str(reason)
    }
}
