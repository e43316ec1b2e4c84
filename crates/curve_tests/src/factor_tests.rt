use crate::small_book::{HALF_HOURS, metered, small_book, uneven};
use book::store::Book;
use curves::factor;
use factors::Thresholds;
use sources::{Flat, ProfileSource};
use std::process::Abort;
use std::test::Fail;

// Site, dial, day, the factor as the pair 20,000·E and S, and why.
type Case = (u16, u8, u8, Option<(u64, u64)>, &'static str);

const FLAT: [Case; 12] = [
    (0, 1, 0, None, "before the first index"),
    (0, 1, 1, Some((2_060_000, 480_000)), "103 Wh in one day"),
    (0, 1, 2, None, "from the last index on"),
    (1, 1, 0, Some((2_000_000, 960_000)), "100 Wh in two days"),
    (1, 1, 1, Some((2_000_000, 960_000)), "the second of them"),
    (1, 1, 2, Some((940_000, 480_000)), "47 Wh in the next span"),
    (1, 2, 0, Some((980_000, 480_000)), "49 Wh in one day"),
    (2, 2, 1, None, "one index makes no span"),
    (3, 2, 0, None, "no index"),
    (2, 1, 0, None, "no situation"),
    (3, 1, 1, None, "several situations"),
    (0, 2, 0, None, "the profile lacks the dial"),
];

const UNEVEN: [Case; 5] = [
    (
        0,
        1,
        1,
        Some((2_060_000, 240_000)),
        "half of day 1 weighs 0",
    ),
    (1, 1, 0, Some((2_000_000, 240_000)), "so does all of day 0"),
    (
        1,
        1,
        2,
        Some((940_000, 960_000)),
        "day 2 weighs twice as much",
    ),
    (1, 2, 0, None, "all weights of the span are 0"),
    (2, 1, 0, None, "no situation"),
];

fn told<S: ProfileSource>(
    rt: &impl Abort,
    book: &Book,
    source: &S,
    cases: &[Case],
) -> Result<(), Fail> {
    let thresholds = Thresholds::of(10_000, &[0; 8])?;
    for (site, dial, day, expected, why) in cases {
        let of = metered(book, *site, *dial, source, &thresholds);
        assert_eq!(rt; factor(&of, *day), Ok(*expected), "{}", why);
    }
    Ok(())
}

#[test]
fn factors_by_equal_weights(rt: HostRuntime) -> Result<(), Fail> {
    let book = small_book(&rt, rt.alloc())?;
    told(&rt, &book, &Flat::over(HALF_HOURS), &FLAT)
}

#[test]
fn factors_by_uneven_weights(rt: HostRuntime) -> Result<(), Fail> {
    let book = small_book(&rt, rt.alloc())?;
    told(&rt, &book, &uneven()?, &UNEVEN)
}

// 200,000·103 is 20,600,000, and kVA·S is 6·480,000, which is 2,880,000: extreme over k times that, or under 2·theta - k
// times it.
#[test]
fn no_factor_where_it_is_extreme(rt: HostRuntime) -> Result<(), Fail> {
    let told = Some((2_060_000, 480_000));
    let cases: [(u32, u32, u32, Option<(u64, u64)>, &str); 4] = [
        (7, 0, 0, None, "over 20,160,000"),
        (8, 0, 0, told, "not over 23,040,000"),
        (10, 9, 0, None, "under 23,040,000"),
        (
            10,
            8,
            50_000,
            told,
            "not under 17,280,000; another sub-profile's theta counts for nothing",
        ),
    ];
    let book = small_book(&rt, rt.alloc())?;
    let source = Flat::over(HALF_HOURS);
    for (k, theta, other, expected, why) in cases {
        let thetas = [theta, other, other, other, other, other, other, other];
        let thresholds = Thresholds::of(k, &thetas)?;
        let of = metered(&book, 0, 1, &source, &thresholds);
        assert_eq!(rt; factor(&of, 1), Ok(expected), "{}", why);
    }
    Ok(())
}
