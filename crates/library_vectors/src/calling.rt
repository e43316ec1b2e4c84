// Calls of a book, as a line has them, and their answers.
use crate::words::{after, narrow, number};
use book::store::Book;
use book_rules::{Call, SetUp, Terms};
use std::alloc::Global;

// The book that a set-up line asks for, if it is one.
pub(crate) fn book_of(heap: Global, line: &str) -> Option<Book> {
    let set_up = SetUp {
        first: number(line, "first", 0)?,
        days: narrow(number(line, "days", 0)?),
        parties: narrow(number(line, "parties", 0)?),
        sites: narrow(number(line, "sites", 0)?),
        situation_places: number(line, "places", 0)? as usize,
        index_places: number(line, "places", 1)? as usize,
    };
    Book::new(heap, set_up).ok()
}

// The value of a word of the form KEY=VALUE.
fn valued(line: &str, key: &str) -> Option<u32> {
    let (_, value) = line
        .split_whitespace()
        .filter_map(|word| word.split_once('='))
        .find(|(name, _)| *name == key)?;
    value.parse::<u32>().ok()
}

fn terms_of(line: &str) -> Option<Terms> {
    Some(Terms {
        party: narrow(valued(line, "party")?),
        class: narrow(valued(line, "cls")?),
        power: narrow(valued(line, "power")?),
    })
}

fn call_of(line: &str) -> Option<Call> {
    let site = narrow(valued(line, "site")?);
    let day = narrow(valued(line, "day")?);
    match after(line, "call", 0)? {
        "O" => Some(Call::Open {
            site,
            day,
            terms: terms_of(line)?,
        }),
        "M" => Some(Call::Modify {
            site,
            day,
            terms: terms_of(line)?,
        }),
        "E" => Some(Call::End { site, day }),
        "C" => Some(Call::Correct {
            site,
            day,
            terms: terms_of(line)?,
        }),
        "I" => Some(Call::Enter {
            site,
            dial: narrow(valued(line, "dial")?),
            day,
            value: valued(line, "value")?,
        }),
        "S" => Some(Call::Strike {
            site,
            dial: narrow(valued(line, "dial")?),
            day,
        }),
        _ => None,
    }
}

// Makes the call of a line: the number that it is answered with, 0 where it is made. A number, since the file tells one.
fn answer(book: &mut Book, line: &str) -> Option<u32> {
    let answer = book.make(call_of(line)?);
    Some(
        answer
            .err()
            .map_or(0, |refusal| u32::from(refusal.number())),
    )
}

// Whether the call of a line is answered as the line says.
pub(crate) fn is_answered_so(book: &mut Option<Book>, line: &str) -> bool {
    let answer = book.as_mut().and_then(|book| answer(book, line));
    answer.is_some() && answer == number(line, "answers", 0)
}
