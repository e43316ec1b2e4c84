use sharing::share;

struct Case {
    energy: u32,
    weights: [u32; 4],
    figures: [u32; 4],
    why: &'static str,
}

const CASES: [Case; 7] = [
    Case {
        energy: 10,
        weights: [1, 1, 1, 0],
        figures: [3, 3, 4, 0],
        why: "thirds, and a half-hour of weight 0",
    },
    Case {
        energy: 5,
        weights: [0, 2, 1, 0],
        figures: [0, 3, 2, 0],
        why: "weight 0 first",
    },
    Case {
        energy: 0,
        weights: [1, 2, 3, 4],
        figures: [0, 0, 0, 0],
        why: "no energy",
    },
    Case {
        energy: 7,
        weights: [0, 0, 0, 9],
        figures: [0, 0, 0, 7],
        why: "all weight in the last half-hour",
    },
    Case {
        energy: 1,
        weights: [1, 1, 1, 1],
        figures: [0, 0, 0, 1],
        why: "less energy than half-hours",
    },
    Case {
        energy: 999_999_999,
        weights: [1_000_000, 0, 0, 1_000_000],
        figures: [499_999_999, 0, 0, 500_000_000],
        why: "the bounds",
    },
    Case {
        energy: 100,
        weights: [10, 20, 30, 40],
        figures: [10, 20, 30, 40],
        why: "no rounding",
    },
];

#[test]
fn figures(rt: HostRuntime) {
    for case in CASES.iter() {
        // the place past the weights stays as it was
        let mut places = [9, 9, 9, 9, 77];
        let sum: u64 = case.weights.iter().map(|weight| u64::from(*weight)).sum();
        assert_eq!(rt;
            share(case.energy, &case.weights, &mut places),
            Some(sum),
            "{}",
            case.why
        );
        let [a, b, c, d, past] = places;
        assert_eq!(rt; [a, b, c, d], case.figures, "{}", case.why);
        assert_eq!(rt; past, 77, "{}", case.why);
    }
}

#[test]
fn one_half_hour(rt: HostRuntime) {
    let mut places = [0];
    assert_eq!(rt; share(144_000, &[17], &mut places), Some(17));
    assert_eq!(rt; places, [144_000]);
}

// Nothing is answered and nothing is written.
#[test]
fn out_of_bounds(rt: HostRuntime) {
    let mut places = [5, 5];
    assert_eq!(rt; share(1_000_000_000, &[1, 1], &mut places), None);
    assert_eq!(rt; share(10, &[0, 0], &mut places), None);
    assert_eq!(rt; share(10, &[], &mut places), None);
    assert_eq!(rt; share(10, &[1, 1_000_001], &mut places), None);
    assert_eq!(rt; share(10, &[1, 1, 1], &mut places), None);
    assert_eq!(rt; places, [5, 5]);
}

#[test]
fn longest_span(rt: HostRuntime) {
    let mut places = [0; 1_681];
    assert_eq!(rt;
        share(999_999_999, &[1_000_000; 1_680], &mut places),
        Some(1_680_000_000)
    );
    assert_eq!(rt; share(10, &[1; 1_681], &mut places), None);
    assert_eq!(rt; places[1_679], 595_239);
    assert_eq!(rt; places[1_680], 0);
}
