use crate::small_book::{HALF_HOURS, metered, small_book, uneven};
use book::store::Book;
use curves::curve;
use factors::Thresholds;
use sources::{Flat, ProfileSource};
use std::process::Abort;
use std::test::Fail;

// What the curve of a dial is: figures as runs, how many alike and what each is.
struct Case {
    site: u16,
    dial: u8,
    days: Option<(u8, u8)>,
    runs: &'static [(usize, u32)],
    why: &'static str,
}

// Shared evenly: R(t) is E·t div n, with n half-hours in the span.
const EVEN: [Case; 8] = [
    Case {
        site: 0,
        dial: 1,
        days: Some((1, 2)),
        // 7t div 48 grows before t = 7, 14, 21, 28, 35, 42, 48
        runs: &[
            (48, 0),
            (6, 2),
            (1, 3),
            (6, 2),
            (1, 3),
            (6, 2),
            (1, 3),
            (6, 2),
            (1, 3),
            (6, 2),
            (1, 3),
            (6, 2),
            (1, 3),
            (5, 2),
            (1, 3),
            (48, 0),
        ],
        why: "103 Wh over the 48 of day 1: R(t) = 2t + 7t div 48",
    },
    Case {
        site: 1,
        dial: 1,
        days: Some((0, 3)),
        runs: &[
            (23, 1),
            (1, 2),
            (23, 1),
            (1, 2),
            (23, 1),
            (1, 2),
            (23, 1),
            (1, 2),
            (1, 0),
            (47, 1),
        ],
        why: "100 Wh over 96: R(t) = t + t div 24; then 47 over 48: R(t) = t - 1 for t > 0",
    },
    Case {
        site: 1,
        dial: 2,
        days: Some((0, 1)),
        runs: &[(47, 1), (1, 2), (96, 0)],
        why: "49 Wh over 48: R(t) = t + t div 48",
    },
    Case {
        site: 2,
        dial: 2,
        days: None,
        runs: &[(144, 0)],
        why: "one index",
    },
    Case {
        site: 3,
        dial: 2,
        days: None,
        runs: &[(144, 0)],
        why: "no index",
    },
    Case {
        site: 2,
        dial: 1,
        days: Some((0, 1)),
        runs: &[(23, 1), (1, 2), (23, 1), (1, 2), (96, 0)],
        why: "no situation: 50 Wh over 48 all the same, R(t) = t + t div 24",
    },
    Case {
        site: 0,
        dial: 2,
        days: Some((0, 1)),
        runs: &[(47, 0), (1, 1), (96, 0)],
        why: "the profile lacks the dial: 1 Wh over 48 all the same",
    },
    Case {
        site: 3,
        dial: 1,
        days: Some((0, 2)),
        runs: &[(47, 0), (1, 1), (47, 0), (1, 1), (48, 0)],
        why: "several situations: 2 Wh over 96 all the same, R(t) = t div 48",
    },
];

// Shared by the weights of `uneven`, where there is no anomaly.
const UNEVEN: [Case; 5] = [
    Case {
        site: 0,
        dial: 1,
        days: Some((1, 2)),
        // 7t div 24 grows before t = 4, 7, 11, 14, 18, 21, 24
        runs: &[
            (72, 0),
            (3, 4),
            (1, 5),
            (2, 4),
            (1, 5),
            (3, 4),
            (1, 5),
            (2, 4),
            (1, 5),
            (3, 4),
            (1, 5),
            (2, 4),
            (1, 5),
            (2, 4),
            (1, 5),
            (48, 0),
        ],
        why: "103 Wh over the 24 of day 1 that have weight: R(t) = 4t + 7t div 24, t from noon",
    },
    Case {
        site: 1,
        dial: 1,
        days: Some((0, 3)),
        runs: &[
            (72, 0),
            (5, 4),
            (1, 5),
            (5, 4),
            (1, 5),
            (5, 4),
            (1, 5),
            (5, 4),
            (1, 5),
            (1, 0),
            (47, 1),
        ],
        why: "100 Wh over 24 of days 0 and 1: R(t) = 4t + t div 6; then 47 over 48 that weigh the same",
    },
    Case {
        site: 1,
        dial: 2,
        days: Some((0, 1)),
        runs: &[(47, 1), (1, 2), (96, 0)],
        why: "all weights of the span are 0: by 1 each",
    },
    Case {
        site: 2,
        dial: 1,
        days: Some((0, 1)),
        runs: &[(23, 1), (1, 2), (23, 1), (1, 2), (96, 0)],
        why: "no situation: by 1 each",
    },
    Case {
        site: 3,
        dial: 1,
        days: Some((0, 2)),
        runs: &[(47, 0), (1, 1), (47, 0), (1, 1), (48, 0)],
        why: "several situations: by 1 each, and not by the source",
    },
];

// Places past the half-hours stay as they were.
fn drawn<S: ProfileSource>(
    rt: &impl Abort,
    book: &Book,
    source: &S,
    k: u32,
    cases: &[Case],
) -> Result<(), Fail> {
    let thresholds = Thresholds::of(k, &[0; 8])?;
    for case in cases {
        let mut figures = [77; HALF_HOURS + 2];
        let of = metered(book, case.site, case.dial, source, &thresholds);
        assert_eq!(rt; curve(&of, &mut figures), Ok(case.days), "{}", case.why);
        let mut rest = figures.as_slice();
        for (count, figure) in case.runs {
            let (run, later) = rest.split_at_checked(*count).ok_or("too many runs")?;
            assert!(rt; run.iter().all(|place| place == figure), "{}", case.why);
            rest = later;
        }
        assert_eq!(rt; rest, [77, 77].as_slice(), "{}", case.why);
    }
    Ok(())
}

#[test]
fn curves_by_equal_weights(rt: HostRuntime) -> Result<(), Fail> {
    let book = small_book(&rt, rt.alloc())?;
    drawn(&rt, &book, &Flat::over(HALF_HOURS), 10_000, &EVEN)
}

#[test]
fn curves_by_uneven_weights(rt: HostRuntime) -> Result<(), Fail> {
    let book = small_book(&rt, rt.alloc())?;
    drawn(&rt, &book, &uneven()?, 10_000, &UNEVEN)
}

// With k 0 any energy is extreme, so that no span goes by the weights.
#[test]
fn curves_of_extremes(rt: HostRuntime) -> Result<(), Fail> {
    let book = small_book(&rt, rt.alloc())?;
    drawn(&rt, &book, &uneven()?, 0, &EVEN)
}
