// replay_list: reads a set-up and calls from standard input, replays them and prints the answer to each call and what the
// book then holds. docs/book.md has the form of a line.
#![tactic(auto)]

use anyhow::{Context, bail};
use book::store::Book;
use book_rules::{Call, SetUp, SetUpError, Terms};
use refusals::Refusal;
use replay::replayed;
use std::io;

mod lines;

fn main(rt: HostRuntime) -> anyhow::Result<()> {
    run(&rt)
}

fn run(rt: &HostRuntime) -> anyhow::Result<()> {
    let (set_up, calls) = read(rt)?;
    match replayed(rt.alloc(), set_up, calls.as_slice()) {
        Err(SetUpError::Refused(refusal)) => println!(rt; "set-up {refusal}")?,
        Err(SetUpError::OutOfMemory) => bail!("there is no memory for the book"),
        Ok(result) => {
            print_answers(rt, result.answers.as_slice())?;
            print_contents(rt, &result.book, set_up)?;
        }
    }
    Ok(())
}

// The set-up and the calls of the input. Empty lines and lines that begin with # are passed over.
fn read(rt: &HostRuntime) -> anyhow::Result<(SetUp, Vec<Call>)> {
    let mut set_up: Option<SetUp> = None;
    let mut calls: Vec<Call> = Vec::new(rt.alloc());
    // As in curve, with which this program shares no library; what they do with a line differs.
    for (number, line) in (1u64..).zip(rt.lines(rt.alloc())) {
        let line = line?;
        let text = line.as_str();
        if text.is_empty() || text.starts_with('#') {
            continue;
        }
        match (set_up, lines::set_up_of(text), lines::call_of(text)) {
            (None, Some(first), _) => set_up = Some(first),
            (Some(_), _, Some(call)) => calls.push(call)?,
            _ => bail!("line {number}: neither a call nor the set-up that comes first"),
        }
    }
    Ok((set_up.context("there is no set-up")?, calls))
}

fn print_answers(rt: &HostRuntime, answers: &[Result<(), Refusal>]) -> io::Result<()> {
    for (k, answer) in answers.iter().enumerate() {
        match answer {
            Ok(()) => println!(rt; "call {k}: made")?,
            Err(refusal) => println!(rt; "call {k}: {refusal}")?,
        }
    }
    Ok(())
}

fn print_contents(rt: &HostRuntime, book: &Book, set_up: SetUp) -> io::Result<()> {
    for site in 0..set_up.sites {
        for day in 0..36u8 {
            print_situation(rt, book, site, day)?;
        }
        for dial in 1..3u8 {
            for day in 0..36u8 {
                if let Some(index) = book.index_standing(site, dial, day) {
                    println!(rt; "site {site} dial {dial} day {day}: {} Wh", index.value)?;
                }
            }
        }
    }
    Ok(())
}

fn print_situation(rt: &HostRuntime, book: &Book, site: u16, day: u8) -> io::Result<()> {
    let Some(situation) = book.situation_starting(site, day) else {
        return Ok(());
    };
    let Terms {
        party,
        class,
        power,
    } = situation.terms;
    match situation.end {
        Some(end) => println!(rt;
            "site {site} from day {day} to day {end}: party {party}, class {class}, {power} kVA"
        ),
        None => println!(rt;
            "site {site} from day {day} on: party {party}, class {class}, {power} kVA"
        ),
    }
}
