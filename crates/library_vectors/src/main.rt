// library_vectors: runs whole cases from outside, in data/library.txt, and holds what the crates answer against them. It
// prints a line for each case and ends with an error where anything differs. So far it reads the lines on the calendar,
// on weights and on calls; those on sheets, curves and factors are passed over.
#![tactic(auto)]

use anyhow::ensure;
use book::store::Book;
use calendar::{Place, place_of};
use calling::{book_of, is_answered_so};
use std::alloc::{AllocError, Global};
use std::{array, fs, io};
use weighing::{Summary, weigh};
use words::{after, first, narrow, number, words_after};

mod calling;
mod weighing;
mod words;

// The source at the bottom of a case.
#[derive(Clone, Copy)]
enum Bottom {
    Flat { half_hours: usize },
    ByCoefficients { modulus: u32, zeros: u32 },
}

// What has been read of a case so far.
#[derive(Drop)]
struct Case {
    number: u32,
    first: u32,
    days: u32,
    bottom: Bottom,
    holidays: Vec<u32>,
    layers: Vec<(i16, usize)>,
    book: Option<Book>,
    compared: u32,
    differing: u32,
}

fn main(rt: HostRuntime) -> anyhow::Result<()> {
    run(&rt)
}

fn run(rt: &HostRuntime) -> anyhow::Result<()> {
    let text = fs::read_to_string(rt, "library.txt")?;
    let mut case = new_case(rt.alloc(), 0);
    let mut differing: u32 = 0;
    for line in text.as_str().lines() {
        if let Some(number) = number(line, "case", 0) {
            case = new_case(rt.alloc(), number);
        } else if line.is_empty() {
            tell(rt, &case)?;
            differing = differing.saturating_add(case.differing);
        } else {
            read_line(&mut case, rt.alloc(), line)?;
        }
    }
    ensure!(differing == 0, "a case differs");
    Ok(())
}

fn tell(rt: &HostRuntime, case: &Case) -> io::Result<()> {
    println!(rt;
        "case {}: {} lines compared, {} differ",
        case.number, case.compared, case.differing
    )
}

fn new_case(heap: Global, number: u32) -> Case {
    Case {
        number,
        first: 0,
        days: 0,
        bottom: Bottom::ByCoefficients {
            modulus: 1,
            zeros: 0,
        },
        holidays: Vec::new(heap),
        layers: Vec::new(heap),
        book: None,
        compared: 0,
        differing: 0,
    }
}

// A line of a case: what it sets is kept, what it tells is compared.
fn read_line(case: &mut Case, heap: Global, line: &str) -> Result<(), AllocError> {
    // a match and no table of functions, since each step takes other things
    match first(line) {
        "setup" => {
            case.first = number(line, "first", 0).unwrap_or(0);
            case.days = number(line, "days", 0).unwrap_or(0);
            case.book = book_of(heap, line);
        }
        "call" => {
            let same = is_answered_so(&mut case.book, line);
            compare(case, same);
        }
        "source" => read_source(case, line)?,
        "layer" => case.layers.push(layer_of(line))?,
        "calendar" => {
            let same = calendar_agrees(case, line);
            compare(case, same);
        }
        "weights" => {
            let sub_profile = narrow(number(line, "weights", 0).unwrap_or(8));
            let same = weigh(case, heap, sub_profile)? == summary_of(line);
            compare(case, same);
        }
        _ => {}
    }
    Ok(())
}

// Counts lines as they come, of several kinds in turn: no iterator gives them.
fn compare(case: &mut Case, same: bool) {
    case.compared = case.compared.saturating_add(1);
    if !same {
        case.differing = case.differing.saturating_add(1);
    }
}

fn read_source(case: &mut Case, line: &str) -> Result<(), AllocError> {
    if let Some(half_hours) = number(line, "flat", 0) {
        case.bottom = Bottom::Flat {
            half_hours: half_hours as usize,
        };
        return Ok(());
    }
    // Once flat, a case stays so, whatever source line comes later.
    if !matches!(case.bottom, Bottom::Flat { .. }) {
        case.bottom = Bottom::ByCoefficients {
            modulus: number(line, "m", 0).unwrap_or(1),
            zeros: number(line, "z", 0).unwrap_or(0),
        };
    }
    let holidays = words_after(line, "holidays").take(64);
    case.holidays
        .extend(holidays.map_while(|word| word.parse::<u32>().ok()))
}

fn layer_of(line: &str) -> (i16, usize) {
    let threshold = after(line, "ts", 0).and_then(|text| text.parse::<i16>().ok());
    (
        threshold.unwrap_or(0),
        number(line, "n", 0).unwrap_or(0) as usize,
    )
}

fn summary_of(line: &str) -> Summary {
    Summary {
        first: array::from_fn(|n| number(line, "first", n).unwrap_or(0)),
        sum: u64::from(number(line, "sum", 0).unwrap_or(0)),
        checksum: u64::from(number(line, "checksum", 0).unwrap_or(0)),
    }
}

// Week and day of each day, as 13.7, are those of the calendar; of a longer case the first 35 days are looked at.
fn calendar_agrees(case: &Case, line: &str) -> bool {
    let mut words = words_after(line, "calendar");
    (0..case.days.min(35)).all(|k| {
        let place = place_of(case.first.saturating_add(k), case.holidays.as_slice());
        place.is_some() && words.next().and_then(place_told) == place
    })
}

fn place_told(text: &str) -> Option<Place> {
    let (week, day) = text.split_once('.')?;
    Some(Place {
        week: week.parse::<u8>().ok()?,
        day: day.parse::<u8>().ok()?,
    })
}
