use crate::prepared_book::entry;
use book::store::Book;
use book_rules::{Call, Service, SetUp, Situation, Standing, Terms};
use std::alloc::Global;
use std::process::Abort;
use std::test::Fail;

const SMALL: Terms = Terms {
    party: 0,
    class: 1,
    power: 6,
};

const LARGE: Terms = Terms {
    party: 1,
    class: 2,
    power: 36,
};

fn new_book(heap: Global) -> Result<Book, Fail> {
    let set_up = SetUp {
        first: 0,
        days: 3,
        parties: 2,
        sites: 1,
        situation_places: 3,
        index_places: 2,
    };
    Ok(Book::new(heap, set_up)?)
}

fn made(rt: &impl Abort, book: &mut Book, calls: &[Call]) {
    for call in calls {
        assert!(rt; book.make(*call).is_ok());
    }
}

fn served(start: u8, end: Option<u8>, terms: Terms) -> Option<Service> {
    Some(Service {
        start,
        situation: Situation { end, terms },
    })
}

#[test]
fn end_moved_back_and_opened_again(rt: HostRuntime) -> Result<(), Fail> {
    let mut book = new_book(rt.alloc())?;
    assert_eq!(rt; book.standing_of(0), Some(Standing::Never));
    assert_eq!(rt; book.standing_of(1), None);
    made(
        &rt,
        &mut book,
        &[Call::Open {
            site: 0,
            day: 0,
            terms: SMALL,
        }],
    );
    assert_eq!(rt; book.standing_of(0), Some(Standing::Running(0)));
    made(
        &rt,
        &mut book,
        &[Call::End { site: 0, day: 3 }, Call::End { site: 0, day: 1 }],
    );
    assert_eq!(rt;
        book.standing_of(0),
        Some(Standing::Ended { start: 0, end: 1 })
    );
    made(
        &rt,
        &mut book,
        &[Call::Open {
            site: 0,
            day: 1,
            terms: LARGE,
        }],
    );
    assert_eq!(rt; book.service_of(0, 0), served(0, Some(1), SMALL));
    assert_eq!(rt; book.service_of(0, 1), served(1, None, LARGE));
    assert_eq!(rt; book.service_of(0, 255), served(1, None, LARGE));
    assert_eq!(rt; book.service_of(1, 0), None);
    Ok(())
}

#[test]
fn modified_and_corrected(rt: HostRuntime) -> Result<(), Fail> {
    let mut book = new_book(rt.alloc())?;
    made(
        &rt,
        &mut book,
        &[
            Call::Open {
                site: 0,
                day: 0,
                terms: SMALL,
            },
            Call::Modify {
                site: 0,
                day: 2,
                terms: LARGE,
            },
        ],
    );
    assert_eq!(rt; book.service_of(0, 1), served(0, Some(2), SMALL));
    made(
        &rt,
        &mut book,
        &[Call::Correct {
            site: 0,
            day: 0,
            terms: LARGE,
        }],
    );
    assert_eq!(rt; book.service_of(0, 1), served(0, Some(2), LARGE));
    assert_eq!(rt; book.service_of(0, 2), served(2, None, LARGE));
    assert_eq!(rt; book.free_situation_places(), Some(1));
    made(&rt, &mut book, &[Call::End { site: 0, day: 3 }]);
    assert_eq!(rt;
        book.standing_of(0),
        Some(Standing::Ended { start: 2, end: 3 })
    );
    Ok(())
}

#[test]
fn struck_and_entered_again_in_a_full_book(rt: HostRuntime) -> Result<(), Fail> {
    let mut book = new_book(rt.alloc())?;
    made(&rt, &mut book, &[entry(0, 1, 0, 7), entry(0, 1, 3, 7)]);
    assert_eq!(rt; book.free_index_places(), Some(0));
    assert!(rt; book.strike(0, 1, 3).is_ok());
    assert!(rt; book.index_standing(0, 1, 3).is_none());
    assert!(rt; book.index_standing(0, 1, 0).is_some());
    made(&rt, &mut book, &[entry(0, 2, 3, 999_999_999)]);
    assert_eq!(rt; book.free_index_places(), Some(0));
    Ok(())
}
