use calendar::{CivilDate, Place, civil_date, date_on, place_of};
use std::test::Fail;

// Year, month and day.
type Day = (u16, u8, u8);

struct Case {
    day: Day,
    holiday: Day,
    week: u8,
    counts_as: u8,
    why: &'static str,
}

const NO_HOLIDAY: Day = (0, 0, 0);

const CASES: [Case; 17] = [
    Case {
        day: (2001, 1, 1),
        holiday: NO_HOLIDAY,
        week: 1,
        counts_as: 1,
        why: "the first date, a Monday",
    },
    Case {
        day: (2099, 12, 31),
        holiday: NO_HOLIDAY,
        week: 1,
        counts_as: 4,
        why: "the last date, past week 52",
    },
    Case {
        day: (2004, 2, 29),
        holiday: NO_HOLIDAY,
        week: 9,
        counts_as: 7,
        why: "29 February",
    },
    Case {
        day: (2004, 3, 1),
        holiday: NO_HOLIDAY,
        week: 10,
        counts_as: 1,
        why: "the day after 29 February",
    },
    Case {
        day: (2004, 12, 31),
        holiday: NO_HOLIDAY,
        week: 1,
        counts_as: 5,
        why: "the last day of a leap year",
    },
    Case {
        day: (2012, 12, 31),
        holiday: NO_HOLIDAY,
        week: 2,
        counts_as: 1,
        why: "of a leap year that began on a Sunday",
    },
    Case {
        day: (2012, 12, 30),
        holiday: NO_HOLIDAY,
        week: 1,
        counts_as: 7,
        why: "the day before that",
    },
    Case {
        day: (2007, 4, 30),
        holiday: (2007, 5, 1),
        week: 18,
        counts_as: 6,
        why: "a Monday before a holiday Tuesday",
    },
    Case {
        day: (2007, 5, 1),
        holiday: (2007, 5, 1),
        week: 18,
        counts_as: 7,
        why: "the holiday itself",
    },
    Case {
        day: (2007, 5, 2),
        holiday: (2007, 5, 1),
        week: 18,
        counts_as: 3,
        why: "the Wednesday after it",
    },
    Case {
        day: (2002, 9, 30),
        holiday: (2002, 10, 1),
        week: 40,
        counts_as: 1,
        why: "a Monday before a holiday in October",
    },
    Case {
        day: (2004, 10, 1),
        holiday: (2004, 9, 30),
        week: 40,
        counts_as: 6,
        why: "a Friday after a holiday in September",
    },
    Case {
        day: (2005, 4, 1),
        holiday: (2005, 3, 31),
        week: 14,
        counts_as: 5,
        why: "a Friday after a holiday in March",
    },
    Case {
        day: (2003, 3, 31),
        holiday: (2003, 4, 1),
        week: 14,
        counts_as: 6,
        why: "a Monday before a holiday in April",
    },
    Case {
        day: (2003, 3, 31),
        holiday: (2003, 4, 8),
        week: 14,
        counts_as: 1,
        why: "a holiday a week later",
    },
    Case {
        day: (2005, 5, 4),
        holiday: (2005, 5, 5),
        week: 19,
        counts_as: 3,
        why: "a Wednesday before a holiday Thursday",
    },
    Case {
        day: (2005, 5, 6),
        holiday: (2005, 5, 5),
        week: 19,
        counts_as: 6,
        why: "a Friday after a holiday Thursday",
    },
];

fn date(day: Day) -> Option<u32> {
    let (year, month, day) = day;
    date_on(CivilDate { year, month, day })
}

#[test]
fn places(rt: HostRuntime) -> Result<(), Fail> {
    for case in CASES.iter() {
        // the entry past the last date names none; the repeated one does no harm
        let holiday = date(case.holiday).unwrap_or(40_000);
        let holidays = [40_000, holiday, 36_159, holiday];
        let place = place_of(date(case.day).ok_or("no date")?, &holidays);
        assert_eq!(rt;
            place,
            Some(Place {
                week: case.week,
                day: case.counts_as,
            }),
            "{}",
            case.why
        );
    }
    Ok(())
}

#[test]
fn dates_out_of_range(rt: HostRuntime) {
    assert_eq!(rt; place_of(36_159, &[36_159]), None);
    assert_eq!(rt; place_of(u32::MAX, &[]), None);
    assert_eq!(rt; civil_date(36_159), None);
    // 28 March 2003 is date 816: an entry of 65,536 more is another number
    assert_eq!(rt;
        place_of(816, &[816 + 65_536]),
        Some(Place { week: 13, day: 5 })
    );
}

#[test]
fn days_of_the_calendar(rt: HostRuntime) {
    let none: [Day; 8] = [
        (2000, 12, 31),
        (2100, 1, 1),
        (2007, 2, 29),
        (2004, 2, 30),
        (2007, 4, 31),
        (2007, 13, 1),
        (2007, 0, 1),
        (2007, 1, 0),
    ];
    for day in none {
        assert_eq!(rt; date(day), None);
    }
    assert_eq!(rt; date((2001, 1, 1)), Some(0));
    assert_eq!(rt; date((2099, 12, 31)), Some(36_158));
    assert_eq!(rt; date((2004, 2, 29)), Some(1_154));
    assert_eq!(rt;
        civil_date(1_154),
        Some(CivilDate {
            year: 2004,
            month: 2,
            day: 29,
        })
    );
    assert_eq!(rt;
        civil_date(36_158),
        Some(CivilDate {
            year: 2099,
            month: 12,
            day: 31,
        })
    );
}
