// What a line says: a word, and then numbers. A number that is too wide for its place stands at the widest one, which every
// rule refuses.
use book_rules::{Call, SetUp, Terms};
use num_traits::Bounded;

// The number at a place behind the first word.
fn number(line: &str, place: usize) -> Option<u32> {
    line.split_whitespace().nth(place)?.parse::<u32>().ok()
}

// As in library_vectors: a line in each program is no more than a library for it.
fn narrow<T: Bounded + TryFrom<u32, Error: Drop>>(line: &str, place: usize) -> Option<T> {
    Some(T::try_from(number(line, place)?).unwrap_or(T::max_value()))
}

fn terms(line: &str) -> Option<Terms> {
    Some(Terms {
        party: narrow(line, 3)?,
        class: narrow(line, 4)?,
        power: narrow(line, 5)?,
    })
}

// setup FIRST-DATE DAYS PARTIES SITES SITUATION-PLACES INDEX-PLACES
pub(crate) fn set_up_of(line: &str) -> Option<SetUp> {
    if line.split_whitespace().next()? != "setup" {
        return None;
    }
    Some(SetUp {
        first: number(line, 1)?,
        days: narrow(line, 2)?,
        parties: narrow(line, 3)?,
        sites: narrow(line, 4)?,
        situation_places: number(line, 5)? as usize,
        index_places: number(line, 6)? as usize,
    })
}

// open|modify|correct SITE DAY PARTY CLASS POWER, end SITE DAY, enter SITE DIAL DAY VALUE, strike SITE DIAL DAY
pub(crate) fn call_of(line: &str) -> Option<Call> {
    match line.split_whitespace().next()? {
        "open" => Some(Call::Open {
            site: narrow(line, 1)?,
            day: narrow(line, 2)?,
            terms: terms(line)?,
        }),
        "modify" => Some(Call::Modify {
            site: narrow(line, 1)?,
            day: narrow(line, 2)?,
            terms: terms(line)?,
        }),
        "end" => Some(Call::End {
            site: narrow(line, 1)?,
            day: narrow(line, 2)?,
        }),
        "correct" => Some(Call::Correct {
            site: narrow(line, 1)?,
            day: narrow(line, 2)?,
            terms: terms(line)?,
        }),
        "enter" => Some(Call::Enter {
            site: narrow(line, 1)?,
            dial: narrow(line, 2)?,
            day: narrow(line, 3)?,
            value: number(line, 4)?,
        }),
        "strike" => Some(Call::Strike {
            site: narrow(line, 1)?,
            dial: narrow(line, 2)?,
            day: narrow(line, 3)?,
        }),
        _ => None,
    }
}
