use coefficients::Coefficients;
use sources::ProfileSource;
use std::array;

// Each number tells its place: i mod 1,000 + 500.
fn list() -> [u16; 3_161] {
    array::from_fn(|i| (i % 1_000 + 500) as u16)
}

#[test]
fn coverage(rt: HostRuntime) {
    let cases: [(u32, usize, usize, &str); 8] = [
        (0, 1, 48, "the first day"),
        (36_158, 1, 48, "the last day"),
        (36_124, 35, 1_680, "the last horizon"),
        (36_125, 35, 0, "one day past the last date"),
        (0, 0, 0, "no day"),
        (0, 36, 0, "more than 35 days"),
        (36_159, 1, 0, "past the last date"),
        (u32::MAX, 35, 0, "a first date that would wrap"),
    ];
    for (first, days, covered, why) in cases {
        assert_eq!(rt;
            Coefficients::over(&list(), first, days, &[]).covered(),
            covered,
            "{}",
            why
        );
    }
    assert_eq!(rt; Coefficients::over(&[1_000; 3_159], 0, 1, &[]).covered(), 0);
    assert_eq!(rt;
        Coefficients::over(&[1_000; 3_160], 0, 1, &[]).weight(7, 47),
        Some(10_000)
    );
}

#[test]
fn weights(rt: HostRuntime) {
    // 29 April 2007, a Sunday, is date 2,309; 1 May is a holiday
    let source = Coefficients::over(&list(), 2_309, 3, &[2_311]);
    let cases: [(u8, usize, Option<u32>, &str); 7] = [
        // week 17 is list[16], day 7 list[58], half-hour 0 of day 7 list[347]: 516·558·847
        (0, 0, Some(2_439), "Sunday"),
        // sub-profile 3 begins at 1,185; week 18 list[1202], day 6 list[1242], day 6 half-hour 0 list[1484]: 702·742·984
        (3, 48, Some(5_125), "the bridging Monday counts as Saturday"),
        // sub-profile 7 begins at 2,765; list[2782], day 7 list[2823], half-hour 47 of day 7 list[3159]: 1282·1323·659
        (
            7,
            143,
            Some(11_177),
            "the holiday counts as Sunday; the last number of the list",
        ),
        // week 18 list[17], day 6 list[57], half-hour 0 of day 6 list[299]: 517·557·799, which rounds up
        (0, 48, Some(2_301), "the same Monday for sub-profile 0"),
        (7, 144, None, "past what is covered"),
        (8, 0, None, "no such sub-profile"),
        (255, usize::MAX, None, "no such question"),
    ];
    for (sub_profile, half_hour, weight, why) in cases {
        assert_eq!(rt; source.weight(sub_profile, half_hour), weight, "{}", why);
    }
}

#[test]
fn cut_at_a_million(rt: HostRuntime) {
    let source = Coefficients::over(&[65_535; 3_160], 0, 1, &[]);
    assert_eq!(rt; source.weight(0, 0), Some(1_000_000));
    assert_eq!(rt;
        Coefficients::over(&[0; 3_160], 0, 1, &[]).weight(0, 0),
        Some(0)
    );
}
