// What a call is refused for.
ghost use Rattle.std.specs.Prelude.{◌≡◌};

use std::error::Error;
use std::fmt;

/// Why a call is refused, under the papers' numbers: the first reason that applies is given, and nothing lent is altered.
#[derive(Clone, Copy, Debug, PartialEq, Eq)]
pub enum Refusal {
    /// Not 2,064 bytes, or they break a rule of a site image.
    Image = 1,
    /// An end is 0 or above the number of meters, or both ends are equal.
    Ends = 2,
    /// A weight of 0.
    Weight = 3,
    /// That link is there.
    Present = 4,
    /// No such link.
    Absent = 5,
    /// No record is free.
    Full = 6,
    /// No such kind, or its parameter is outside its limits; in `begin`, the number of meters is not 1 to 48.
    Kind = 7,
    /// More than 8,192 bits.
    Bits = 8,
    /// The row slice is shorter than the row, or the bits or the plan have another length than needed.
    Length = 9,
    /// The row's number is at or above the bit count.
    Row = 10,
    /// A lent bit is neither 0 nor 1.
    NotBits = 11,
    /// The bytes to code are no plan, or the bits to decode code none.
    NoPlan = 12,
    /// The margin is above 1,000,000.
    Margin = 18,
}

impl Refusal {
    ghost use Rattle.site.specs.Refusal.{number_of};

    /// The papers' number.
    // A method and no From: contracts and definitions speak of the number.
    pub fn number(self) -> u64
        ensures { result ≡ number_of self }
    {
        self as u64
    }

    fn words(self) -> &'static str {
        match self {
            Refusal::Image => "no site image",
            Refusal::Ends => "bad ends",
            Refusal::Weight => "a weight of 0",
            Refusal::Present => "that link is there",
            Refusal::Absent => "no such link",
            Refusal::Full => "no record is free",
            Refusal::Kind => "no such kind",
            Refusal::Bits => "too many bits",
            Refusal::Length => "a wrong length",
            Refusal::Row => "no such row",
            Refusal::NotBits => "neither 0 nor 1",
            Refusal::NoPlan => "no plan",
            Refusal::Margin => "too large a margin",
        }
    }
}

impl fmt::Display for Refusal {
    fn fmt<W: fmt::Write>(&self, f: &mut fmt::Formatter<W>) -> fmt::Result {
        write!(f, "refused {}: {}", self.number(), self.words())
    }
}

// For callers of the library: the programs here print the number alone.
impl Error for Refusal {}
