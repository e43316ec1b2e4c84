use readings::spans::Span;
use readings::{Problem, Reading, total};
use sources::Flat;
use std::test::Fail;

#[test]
fn lines(rt: HostRuntime) {
    let cases: [(&str, Result<Reading, Problem>); 14] = [
        (
            "2007-01-01 12000",
            Ok(Reading {
                date: 2_191,
                index: 12_000,
            }),
        ),
        ("2001-01-01 0", Ok(Reading { date: 0, index: 0 })),
        (
            "2099-12-31 999999999",
            Ok(Reading {
                date: 36_158,
                index: 999_999_999,
            }),
        ),
        (
            "2007-01-01 0012",
            Ok(Reading {
                date: 2_191,
                index: 12,
            }),
        ),
        ("2007-01-01 1000000000", Err(Problem::NotAReading)),
        ("2007-01-01 ", Err(Problem::NotAReading)),
        ("2007-01-01", Err(Problem::NotAReading)),
        ("2007-01-01;12000", Err(Problem::NotAReading)),
        ("2007/01/01 12000", Err(Problem::NotAReading)),
        ("2007-01-01 12 000", Err(Problem::NotAReading)),
        ("2007-01-01 -5", Err(Problem::NotAReading)),
        ("", Err(Problem::NotAReading)),
        ("2007-02-29 12000", Err(Problem::NoSuchDay)),
        ("2000-12-31 12000", Err(Problem::NoSuchDay)),
    ];
    for (line, reading) in cases {
        assert_eq!(rt; Reading::from_line(line.as_bytes()), reading, "{}", line);
    }
}

#[test]
fn pairs(rt: HostRuntime) {
    let first = Reading {
        date: 100,
        index: 500,
    };
    let cases: [(u32, u32, Option<Problem>); 7] = [
        (101, 500, None),
        (135, 999_999_999, None),
        (100, 600, Some(Problem::NotLater)),
        (99, 400, Some(Problem::NotLater)),
        (136, 400, Some(Problem::TooManyDays)),
        (135, 499, Some(Problem::IndexFalls)),
        (135, 1_000_000_000, Some(Problem::IndexTooLarge)),
    ];
    for (date, index, answer) in cases {
        assert_eq!(rt; Span::between(first, Reading { date, index }).err(), answer);
    }
}

#[test]
fn curves(rt: HostRuntime) -> Result<(), Fail> {
    let first = Reading { date: 10, index: 0 };
    let span = Span::between(
        first,
        Reading {
            date: 11,
            index: 50,
        },
    )?;
    assert!(rt;
        span.curve(rt.alloc(), &Flat::over(47), 0)?.is_none(),
        "too few half-hours covered"
    );
    assert!(rt;
        span.curve(rt.alloc(), &Flat::over(49), 0)?.is_none(),
        "too many"
    );
    assert!(rt;
        span.curve(rt.alloc(), &Flat::over(48), 8)?.is_none(),
        "no such sub-profile"
    );
    let curve = span
        .curve(rt.alloc(), &Flat::over(48), 7)?
        .ok_or("no curve")?;
    assert_eq!(rt; curve.len(), 48);
    assert_eq!(rt; total(curve.as_slice()), 50);
    // 50·24 div 48 is 25, 50·25 div 48 is 26: half-hour 24 gets 1, half-hour 47 gets 2
    assert_eq!(rt; curve.get(24).copied(), Some(1));
    assert_eq!(rt; curve.get(47).copied(), Some(2));
    Ok(())
}
