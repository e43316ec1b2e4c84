// The book of the tests of refusals, and calls of it. It is compared with a twin that never saw the refused calls.
use book::store::Book;
use book_rules::{Call, SetUp, Terms};
use std::alloc::Global;
use std::process::Abort;
use std::test::Fail;

pub(crate) const GOOD: Terms = Terms {
    party: 0,
    class: 1,
    power: 6,
};

// Of the next two, only the party is wrong, and party and class are.
pub(crate) const STRANGE_PARTY: Terms = Terms {
    party: 2,
    class: 1,
    power: 6,
};

pub(crate) const STRANGE_PARTY_AND_CLASS: Terms = Terms {
    party: 2,
    class: 9,
    power: 6,
};

pub(crate) const NO_PARTY: Terms = Terms {
    party: 2,
    class: 9,
    power: 0,
};

pub(crate) const NO_CLASS: Terms = Terms {
    party: 1,
    class: 9,
    power: 6,
};

pub(crate) const NO_POWER: Terms = Terms {
    party: 1,
    class: 3,
    power: 37,
};

// Three days, two parties, three sites: site 0 runs since day 1, site 1 was served from 0 to 2, site 2 never; dial 1 of
// site 0 shows 100 on day 1 and 200 on day 3. Two places of each kind are taken.
const BEFORE: [Call; 5] = [
    Call::Open {
        site: 0,
        day: 1,
        terms: GOOD,
    },
    Call::Open {
        site: 1,
        day: 0,
        terms: GOOD,
    },
    Call::End { site: 1, day: 2 },
    Call::Enter {
        site: 0,
        dial: 1,
        day: 1,
        value: 100,
    },
    Call::Enter {
        site: 0,
        dial: 1,
        day: 3,
        value: 200,
    },
];

fn prepared(rt: &impl Abort, heap: Global, places: usize) -> Result<Book, Fail> {
    let set_up = SetUp {
        first: 0,
        days: 3,
        parties: 2,
        sites: 3,
        situation_places: places,
        index_places: places,
    };
    let mut book = Book::new(heap, set_up)?;
    for call in BEFORE {
        assert!(rt; book.make(call).is_ok());
    }
    Ok(book)
}

// The tables of refusing_tests and pair_tests tell refusals by number, since they are read beside the rules' list, which goes
// by numbers; sites, days and dials are numbers, as the calls take them.
fn number(answer: Result<(), refusals::Refusal>) -> u8 {
    answer.err().map_or(0, |refusal| refusal.number())
}

fn are_same(one: &Book, other: &Book) -> bool {
    let are_same_on = |site: u16, day: u8| {
        one.situation_starting(site, day) == other.situation_starting(site, day)
            && (0..4u8).all(|dial| {
                one.index_standing(site, dial, day) == other.index_standing(site, dial, day)
            })
    };
    (0..4u16).all(|site| (0..37u8).all(|day| are_same_on(site, day)))
        && one.free_situation_places() == other.free_situation_places()
        && one.free_index_places() == other.free_index_places()
}

// Each call gets its refusal and changes nothing, in a book of so many places.
pub(crate) fn all_refused(
    rt: &impl Abort,
    heap: Global,
    places: usize,
    cases: &[(Call, u8)],
) -> Result<(), Fail> {
    let twin = prepared(rt, heap, places)?;
    let mut book = prepared(rt, heap, places)?;
    for (call, expected) in cases {
        assert_eq!(rt; number(book.make(*call)), *expected);
        assert!(rt; are_same(&book, &twin), "changed by a refused call");
    }
    Ok(())
}

pub(crate) fn opening(site: u16, day: u8, terms: Terms) -> Call {
    Call::Open { site, day, terms }
}

pub(crate) fn change(site: u16, day: u8, terms: Terms) -> Call {
    Call::Modify { site, day, terms }
}

pub(crate) fn ending(site: u16, day: u8) -> Call {
    Call::End { site, day }
}

pub(crate) fn correction(site: u16, day: u8, terms: Terms) -> Call {
    Call::Correct { site, day, terms }
}

pub(crate) fn entry(site: u16, dial: u8, day: u8, value: u32) -> Call {
    Call::Enter {
        site,
        dial,
        day,
        value,
    }
}

pub(crate) fn striking(site: u16, dial: u8, day: u8) -> Call {
    Call::Strike { site, dial, day }
}
