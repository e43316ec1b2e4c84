// The spans of a dial as a book holds them, and what decides on the energy of one: the situation of its days, the
// sub-profile of the dial, and the anomaly that keeps the energy from a party. docs/spans.md has the rules.
#![tactic(auto)]

ghost use Rattle.std.specs.Prelude.{◌≡◌, ◌*◌};
ghost use Rattle.spans.specs.Numbers.{number_of};

use book::store::Book;
use std::ops::Range;

pub mod finding;
pub mod judging;

// A dial of a site, as a book knows it. Site and dial are any numbers: where there is no such dial, no span is found.
#[derive(Clone, Copy)]
pub struct SiteDial<'a> {
    pub book: &'a Book,
    pub site: u16,
    pub dial: u8,
}

// A span of a dial: the day of its first index, the day of its last, which is no day of the span, and the energy between
// the two in Wh. Of any numbers: a judgement looks at what lies before day 35 of it.
#[derive(Clone, Copy, PartialEq, Eq, Debug)]
pub struct DialSpan {
    pub from: u8,
    pub to: u8,
    pub energy: u32,
}

impl DialSpan {
    // The half-hours of its days, counted from the first of day 0.
    pub fn half_hours(self) -> Range<usize>
        ensures { (result.start ≡ 48 * self.from) × (result.end ≡ 48 * self.to) }
    {
        48 * usize::from(self.from)..48 * usize::from(self.to)
    }
}

// Why the energy of a span goes to no party, each with its number; of several the lowest counts.
#[derive(Clone, Copy, PartialEq, Eq, Debug)]
pub enum Anomaly {
    // some day has no situation
    NoSituation = 1,
    // its days lie in several situations
    SeveralSituations = 2,
    // the profile lacks the dial
    NoDial = 3,
    // the weights add to 0
    ZeroWeight = 4,
    // the usage factor is extreme
    ExtremeFactor = 5,
}

impl Anomaly {
    // The number of an anomaly, 1 to 5.
    pub fn number(self) -> u8
        ensures { result ≡ number_of self }
    {
        self as u8
    }
}

// What a span lies on that lies in one situation whose profile has the dial. The sub-profile is a number, by which weights
// and thresholds are asked for.
#[derive(Clone, Copy, PartialEq, Eq, Debug)]
pub struct Grounds {
    pub party: u8,
    pub power: u8,
    pub sub_profile: u8,
}
