// The book of these tests, three days with four sites, and what its dials are metered by.
use book::store::Book;
use book_rules::{Call, SetUp, Terms};
use factors::Thresholds;
use judgements::MeteredDial;
use refusals::Refusal;
use sources::Flat;
use spans::SiteDial;
use std::alloc::Global;
use std::process::Abort;
use std::test::Fail;
use temperature::TemperatureLayer;

// Three days have 144 half-hours.
pub(crate) const HALF_HOURS: usize = 144;

// RES1, which has dial 1 only, with sub-profile 0.
const SMALL: Terms = Terms {
    party: 1,
    class: 1,
    power: 6,
};

// RES2, which has both dials, with sub-profiles 6 and 7.
const LARGE: Terms = Terms {
    party: 0,
    class: 3,
    power: 36,
};

// Site 0 is served throughout, and site 1 too; site 2 never; site 3 throughout, by another situation from day 1 on.
const SITUATIONS: [Call; 4] = [
    Call::Open {
        site: 0,
        day: 0,
        terms: SMALL,
    },
    Call::Open {
        site: 1,
        day: 0,
        terms: LARGE,
    },
    Call::Open {
        site: 3,
        day: 0,
        terms: SMALL,
    },
    Call::Modify {
        site: 3,
        day: 1,
        terms: LARGE,
    },
];

// Site, dial, day and value.
const INDEXES: [(u16, u8, u8, u32); 14] = [
    (0, 1, 1, 1_000),
    (0, 1, 2, 1_103),
    (0, 2, 0, 5),
    (0, 2, 1, 6),
    (1, 1, 0, 10),
    (1, 1, 2, 110),
    (1, 1, 3, 157),
    (1, 2, 0, 900),
    (1, 2, 1, 949),
    (2, 1, 0, 7),
    (2, 1, 1, 57),
    (2, 2, 1, 3),
    (3, 1, 0, 0),
    (3, 1, 2, 2),
];

pub(crate) fn small_book(rt: &impl Abort, heap: Global) -> Result<Book, Fail> {
    let set_up = SetUp {
        first: 0,
        days: 3,
        parties: 2,
        sites: 4,
        situation_places: 4,
        index_places: 14,
    };
    let mut book = Book::new(heap, set_up)?;
    for call in SITUATIONS {
        assert!(rt; book.make(call).is_ok());
    }
    for (site, dial, day, value) in INDEXES {
        assert!(rt; book.enter(site, dial, day, value).is_ok());
    }
    Ok(book)
}

pub(crate) fn metered<'a, S>(
    book: &'a Book,
    site: u16,
    dial: u8,
    source: &'a S,
    thresholds: &'a Thresholds,
) -> MeteredDial<'a, S> {
    MeteredDial {
        at: SiteDial { book, site, dial },
        source,
        thresholds,
    }
}

// Weighs 0 until noon of day 1, then 10,000, and 20,000 on day 2: a gradient of 1,000 takes 10,000 off where it is 10
// degrees warmer than normal, and adds as much where it is 10 degrees colder.
pub(crate) fn uneven() -> Result<TemperatureLayer<Flat>, Refusal> {
    let mut source = TemperatureLayer::over(Flat::over(HALF_HOURS));
    let mut measured = [0; HALF_HOURS];
    measured[..72].fill(100);
    measured[96..].fill(-100);
    source.load(500, &[1_000; 8], &[0; HALF_HOURS], &measured)?;
    Ok(source)
}
