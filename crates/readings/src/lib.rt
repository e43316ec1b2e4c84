// Readings of one dial from lines of text, and the curve between two of them.
#![tactic(auto)]

ghost use Rattle.std.specs.Prelude.{◌≡◌, ◌+◌, ◌-◌, ◌*◌, ◌<◌, ◌≤◌, length};
ghost use Rattle.readings.specs.Lines.{reading_shaped, reading_of};
ghost use Rattle.sharing.specs.Shares.{total as figures_total};

use calendar::date_on;
use std::fmt;
use text_fields::{day, decimal};

pub mod spans;

// What is wrong with a line, or with two readings.
#[derive(Clone, Copy, PartialEq, Eq, Debug)]
pub enum Problem {
    NotAReading,
    NoSuchDay,
    NotLater,
    TooManyDays,
    IndexFalls,
    IndexTooLarge,
}

impl fmt::Display for Problem {
    fn fmt<W: fmt::Write>(&self, f: &mut fmt::Formatter<W>) -> fmt::Result {
        f.write_str(match self {
            Problem::NotAReading => {
                "expected a day, a space and an index of at most nine digits, as 2007-01-01 12000"
            }
            Problem::NoSuchDay => "the calendar of 2001 to 2099 has no such day",
            Problem::NotLater => "the day is not after that of the reading before",
            Problem::TooManyDays => "the day is more than 35 days after that of the reading before",
            Problem::IndexFalls => "the index is below that of the reading before",
            Problem::IndexTooLarge => "the index is over 999999999",
        })
    }
}

// A meter reading: the index of a dial, in Wh, at the start of the day of a date.
#[derive(Clone, Copy, PartialEq, Eq, Debug)]
pub struct Reading {
    pub date: u32,
    pub index: u32,
}

// A space stands behind the ten bytes of a day.
fn has_day_and_space(line: &[u8]) -> bool
    ensures { result ≡ reading_shaped line.now }
{
    matches!(line.get(10), Some(b' '))
}

impl Reading {
    // The reading that a line tells, as 2007-01-01 12000. A `TryFrom` of the bytes would say no more than this name does.
    pub fn from_line(line: &[u8]) -> Result<Reading, Problem>
        ensures { result ≡ reading_of line.now }
    {
        if !has_day_and_space(line) {
            return Err(Problem::NotAReading);
        }
        let civil = day(&line[..10]).ok_or(Problem::NotAReading)?;
        let index = decimal(&line[11..]).ok_or(Problem::NotAReading)?;
        let date = date_on(civil).ok_or(Problem::NoSuchDay)?;
        Ok(Reading { date, index })
    }
}

// The sum of a curve's figures, in Wh.
pub fn total(curve: &[u32]) -> u128
    ensures { result ≡ figures_total curve.now }
{
    curve.iter().map(|figure| u128::from(*figure)).sum()
}
