// worked_examples: holds what the calendar answers against tables from outside, prints each row with what it got, and
// ends with an error where one differs. The special days of 2005 are in data/special-days-2005.csv.
#![tactic(auto)]

use anyhow::{Context, ensure};
use calendar::{Place, civil_date, date_on, place_of};
use std::alloc::{AllocError, Global};
use std::{fs, io};
use text_fields::{day, decimal};

// A day whose place is known.
#[derive(Clone, Copy)]
struct Row<'a> {
    date: u32,
    name: &'a str,
    holiday: bool,
    known: Place,
}

fn main(rt: HostRuntime) -> anyhow::Result<()> {
    run(&rt)
}

fn run(rt: &HostRuntime) -> anyhow::Result<()> {
    let table = fs::read_to_string(rt, "special-days-2005.csv")?;
    let holidays = holidays_of(rt.alloc(), table.as_str())?;
    // a flag, since every row is printed, also after one that does not hold
    let mut all_hold = true;
    for line in table.as_str().lines().skip(1) {
        let row = row_of(line).context("a row of the table cannot be read")?;
        all_hold &= holds(rt, &row, holidays.as_slice())?;
    }
    all_hold &= bridges_into_april(rt)?;
    ensure!(all_hold, "a place differs from its known one");
    Ok(())
}

// The dates of the rows that are holidays.
fn holidays_of(heap: Global, table: &str) -> Result<Vec<u32>, AllocError> {
    table
        .lines()
        .skip(1)
        .filter_map(row_of)
        .filter(|row| row.holiday)
        .map(|row| row.date)
        .collect(heap)
}

// The month of the holiday counts, not that of the day before it.
fn bridges_into_april(rt: &HostRuntime) -> io::Result<bool> {
    let row = Row {
        date: 819,
        name: "the Monday before 1 April 2003, a holiday",
        holiday: false,
        known: Place { week: 14, day: 6 },
    };
    holds(rt, &row, &[820])
}

// Prints a row with what the calendar answers, and tells whether that is the known place.
fn holds(rt: &HostRuntime, row: &Row<'_>, holidays: &[u32]) -> io::Result<bool> {
    let (Some(civil), Some(place)) = (civil_date(row.date), place_of(row.date, holidays)) else {
        println!(rt; "{}: NO DATE", row.name)?;
        return Ok(false);
    };
    let same = place == row.known;
    let verdict = if same {
        "as known"
    } else {
        "WHICH IS NOT THE KNOWN PLACE"
    };
    println!(rt;
        "{civil} {}: week {} day {}, {verdict}",
        row.name, place.week, place.day
    )?;
    Ok(same)
}

// A row of the table: date, name, whether a holiday, week, day of the calendar, day counted.
fn row_of(line: &str) -> Option<Row<'_>> {
    let mut fields = line.split(',');
    let date = date_on(day(fields.next()?.as_bytes())?)?;
    let name = fields.next()?;
    let holiday = fields.next()? == "yes";
    let week = small(fields.next()?)?;
    let counted = small(fields.nth(1)?)?;
    Some(Row {
        date,
        name,
        holiday,
        known: Place { week, day: counted },
    })
}

fn small(text: &str) -> Option<u8> {
    u8::try_from(decimal(text.as_bytes())?).ok()
}
