// What a book of sites knows: situations, indexes, the six calls that change them; and what a book holds after any
// calls, told from the calls alone (specs/). No storage and no search: those are the crates above. docs/book.md has the
// rules.
#![tactic(auto)]

ghost use Rattle.std.specs.Prelude.{◌≡◌};
ghost use Rattle.book_rules.specs.declared.SetUpError.TheVariants.{Refused, OutOfMemory};
ghost use Rattle.book_rules.specs.Refusing.{site_of};
ghost use Rattle.book_rules.specs.Laws.{TellsOne, AlwaysOrderly, TestsRule};

use refusals::Refusal;
use std::alloc::{AllocError, AllocFailed};

// The terms on which a site is served: the balance party on whose account, the class (metering configuration) and the
// subscribed power in kVA. They are numbers as they come in, since a call takes any and answers those that mean nothing
// with a refusal.
#[derive(Clone, Copy, PartialEq, Eq, Debug)]
pub struct Terms {
    pub party: u8,
    pub class: u8,
    pub power: u8,
}

// A situation of a site: its terms over the days from its start to its end, the end day not counted; a situation without
// an end runs on. The day on which it starts is where it is kept.
#[derive(Clone, Copy, PartialEq, Eq, Debug)]
pub struct Situation {
    pub end: Option<u8>,
    pub terms: Terms,
}

// An index of a dial in Wh, at the start of the day where it is kept.
#[derive(Clone, Copy, PartialEq, Eq, Debug)]
pub struct Index {
    pub value: u32,
}

// How a site stands: by its last situation, the one that starts latest.
#[derive(Clone, Copy, PartialEq, Eq, Debug)]
pub enum Standing {
    Never,
    Running(u8),
    Ended { start: u8, end: u8 },
}

// The six calls that change a book. Days are counted from the first day of the book, from 0. Site, day and dial are any
// numbers, as those of the terms: each call refuses for itself what there is not.
#[derive(Clone, Copy, PartialEq, Eq, Debug)]
pub enum Call {
    Open {
        site: u16,
        day: u8,
        terms: Terms,
    },
    Modify {
        site: u16,
        day: u8,
        terms: Terms,
    },
    End {
        site: u16,
        day: u8,
    },
    Correct {
        site: u16,
        day: u8,
        terms: Terms,
    },
    Enter {
        site: u16,
        dial: u8,
        day: u8,
        value: u32,
    },
    Strike {
        site: u16,
        dial: u8,
        day: u8,
    },
}

impl Call {
    // The site that is called for.
    pub fn site(self) -> u16
        ensures { result ≡ site_of self }
    {
        match self {
            Call::Open { site, .. }
            | Call::Modify { site, .. }
            | Call::End { site, .. }
            | Call::Correct { site, .. }
            | Call::Enter { site, .. }
            | Call::Strike { site, .. } => site,
        }
    }
}

// What a book is set up with: the date of its first day, how many days, balance parties and sites, and the places for
// situations and indexes.
#[derive(Clone, Copy, PartialEq, Eq, Debug)]
pub struct SetUp {
    pub first: u32,
    pub days: u8,
    pub parties: u8,
    pub sites: u16,
    pub situation_places: usize,
    pub index_places: usize,
}

// Why there is no book: its set-up is refused, or there is no memory for it.
#[derive(Clone, Copy, PartialEq, Eq, Debug)]
pub enum SetUpError {
    Refused(Refusal),
    OutOfMemory,
}

impl From<Refusal> for SetUpError {
    ghost from_gives = { λ e r. r ≡ Refused e };

    fn from(refusal: Refusal) -> SetUpError {
        SetUpError::Refused(refusal)
    }
}

impl From<AllocError> for SetUpError {
    ghost from_gives = { λ e r. r ≡ OutOfMemory };

    fn from(_: AllocError) -> SetUpError {
        SetUpError::OutOfMemory
    }
}

impl<T: Drop> From<AllocFailed<T>> for SetUpError {
    ghost from_gives = { λ e r. r ≡ OutOfMemory };

    fn from(failed: AllocFailed<T>) -> SetUpError {
        SetUpError::from(AllocError::from(failed))
    }
}

// A situation with the day on which it starts.
#[derive(Clone, Copy, PartialEq, Eq, Debug)]
pub struct Service {
    pub start: u8,
    pub situation: Situation,
}

// The calls tell what a book holds: every list of calls tells some content, and only one.
pub fn histories_tell_one_content()
    ensures { TellsOne }
{}

// After any calls the situations of a site do not overlap, the indexes of a dial never fall, and all lie within the book.
pub fn contents_are_orderly()
    ensures { AlwaysOrderly }
{}

// The tests in the order of their numbers find the refusal that the rules give.
pub fn tests_find_the_refusal()
    ensures { TestsRule }
{}
