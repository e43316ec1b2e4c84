use book::store::Book;
use book_rules::{SetUp, SetUpError};
use refusals::Refusal;
use std::alloc::Global;
use std::test::Fail;

fn refused(heap: Global, first: u32, days: u8, parties: u8, sites: u16) -> Option<SetUpError> {
    let set_up = SetUp {
        first,
        days,
        parties,
        sites,
        situation_places: 0,
        index_places: 0,
    };
    Book::new(heap, set_up).err()
}

#[test]
fn bounds(rt: HostRuntime) {
    let cases: [(u32, u8, u8, u16, bool); 14] = [
        (0, 1, 1, 1, true),
        (36_124, 35, 16, 256, true),
        (36_158, 1, 1, 1, true),
        (0, 0, 1, 1, false),
        (0, 36, 1, 1, false),
        (36_125, 35, 1, 1, false),
        (36_158, 2, 1, 1, false),
        (36_159, 1, 1, 1, false),
        (u32::MAX, 1, 1, 1, false),
        (0, 1, 0, 1, false),
        (0, 1, 17, 1, false),
        (0, 1, 1, 0, false),
        (0, 1, 1, 257, false),
        (u32::MAX, 255, 255, u16::MAX, false),
    ];
    for (first, days, parties, sites, good) in cases {
        let answer = refused(rt.alloc(), first, days, parties, sites);
        assert_eq!(rt;
            answer,
            if good {
                None
            } else {
                Some(SetUpError::Refused(Refusal::SetupOutOfBounds))
            }
        );
    }
}

#[test]
fn places(rt: HostRuntime) -> Result<(), Fail> {
    let cases: [(usize, Option<usize>, Option<usize>); 4] = [
        (0, Some(0), Some(0)),
        (1_024, Some(1_024), Some(1_024)),
        (1_025, Some(1_024), Some(1_025)),
        (usize::MAX, Some(1_024), Some(8_192)),
    ];
    for (given, situations, indexes) in cases {
        let set_up = SetUp {
            first: 0,
            days: 1,
            parties: 1,
            sites: 1,
            situation_places: given,
            index_places: given,
        };
        let book = Book::new(rt.alloc(), set_up)?;
        assert_eq!(rt; book.free_situation_places(), situations);
        assert_eq!(rt; book.free_index_places(), indexes);
    }
    Ok(())
}
