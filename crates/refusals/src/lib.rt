// Why a call is refused: one enum for the whole product. Every refusal has a number, and where several conditions hold
// the one with the lowest number answers. docs/refusals.md has the list with its conditions.
#![tactic(auto)]

ghost use Rattle.std.specs.Prelude.{◌≡◌, Some};
ghost use Rattle.refusals.specs.Numbers.{number_of, Numbered, text_of};

use std::error::Error;
use std::fmt;

#[derive(Clone, Copy, PartialEq, Eq, Debug)]
pub enum Refusal {
    SetupOutOfBounds = 1,
    BufferTooShort = 2,
    UnknownSite = 3,
    UnknownParty = 4,
    DayOutOfRange = 5,
    NoSuchProfile = 6,
    AlreadyRunning = 7,
    NotServed = 8,
    DayNotAllowed = 9,
    NoSituation = 10,
    SituationsFull = 11,
    UnknownDial = 12,
    IndexTooLarge = 13,
    IndexAlreadyStands = 14,
    IndexOutOfOrder = 15,
    IndexesFull = 16,
    NoIndex = 17,
    CoverageDiffers = 18,
    ValueOutOfBounds = 19,
    MarksDiffer = 20,
    TableNotAsMarked = 21,
    FileEndsInsideRecord = 22,
    UnknownLetter = 23,
}

impl Refusal {
    // The refusal's number, 1 to 23.
    pub fn number(self) -> u8
        ensures { result ≡ number_of self }
    {
        self as u8
    }
}

// `refused with` and the number.
impl fmt::Display for Refusal {
    ghost output = { λ r. Some (text_of r) };

    fn fmt<W: fmt::Write>(&self, f: &mut fmt::Formatter<W>) -> fmt::Result {
        write!(f, "refused with {}", self.number())
    }
}

impl Error for Refusal {}

// A number names one refusal only, and all numbers lie between 1 and 23.
pub fn numbers_tell_refusals_apart()
    ensures { Numbered }
{}
