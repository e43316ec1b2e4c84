use amounts::Amount;
use amounts::plain::Plain;
use amounts::split::Split;

const MOST: i64 = 1_000_000_000_000_000_000;

#[test]
fn plain_told(rt: HostRuntime) {
    let cases: [(i64, i64, u64); 7] = [
        (0, 0, 0),
        (-5, -5, 5),
        (MOST, MOST, 1_000_000_000_000_000_000),
        (MOST + 1, MOST, 1_000_000_000_000_000_000),
        (-MOST - 1, -MOST, 1_000_000_000_000_000_000),
        (i64::MAX, MOST, 1_000_000_000_000_000_000),
        (i64::MIN, -MOST, 1_000_000_000_000_000_000),
    ];
    for (wh, energy, size) in cases {
        assert_eq!(rt;
            (Plain { wh }.energy_told(), Plain { wh }.size_told()),
            (energy, size)
        );
    }
}

#[test]
fn split_told(rt: HostRuntime) {
    let cases: [(i64, i64, i64, i64, u64); 6] = [
        (0, 0, 0, 0, 0),
        (-5, 3, 2, -2, 10),
        (999_999_999, 0, 1, 999_999_999, 1_000_000_000),
        // added exactly before anything is cut
        (i64::MAX, i64::MIN, 0, -1, 1_000_000_000_000_000_000),
        (
            i64::MIN,
            i64::MIN,
            i64::MIN,
            -MOST,
            1_000_000_000_000_000_000,
        ),
        (MOST, 1, 0, MOST, 1_000_000_000_000_000_000),
    ];
    for (first, second, pieces, energy, size) in cases {
        let amount = Split {
            first,
            second,
            pieces,
        };
        assert_eq!(rt; (amount.energy_told(), amount.size_told()), (energy, size));
    }
}

#[test]
fn pieces_joined_and_taken_off(rt: HostRuntime) {
    assert_eq!(rt;
        Plain::none().join(Plain::of(7, 1)).join(Plain::of(0, 2)),
        Plain { wh: 7 }
    );
    assert_eq!(rt; Plain::none().take_off(Plain::of(7, 2)), Plain { wh: -7 });
    let joined = Split::none()
        .join(Split::of(7, 1))
        .join(Split::of(0, 1))
        .join(Split::of(5, 2));
    assert_eq!(rt;
        joined,
        Split {
            first: 7,
            second: 5,
            pieces: 3,
        },
        "a piece of 0 Wh counts"
    );
    assert_eq!(rt;
        joined.take_off(Split::of(9, 2)),
        Split {
            first: 7,
            second: -4,
            pieces: 2,
        }
    );
    assert_eq!(rt;
        Split::none().take_off(joined),
        Split {
            first: -7,
            second: -5,
            pieces: -3,
        }
    );
}

// Nothing traps, whatever the numbers.
#[test]
fn ends_of_the_range(rt: HostRuntime) {
    let most = Split {
        first: i64::MAX,
        second: i64::MIN,
        pieces: i64::MAX,
    };
    assert_ne!(rt; most.join(most).energy_told(), 1);
    assert_ne!(rt;
        most.take_off(Split {
            first: i64::MIN,
            second: i64::MAX,
            pieces: i64::MIN,
        })
        .energy_told(),
        1
    );
    assert_eq!(rt;
        Plain { wh: i64::MIN }.join(Plain { wh: -1 }).energy_told(),
        -MOST
    );
}
