use factors::Thresholds;
use factors::sets::usage_factor_of;
use refusals::Refusal;
use std::test::Fail;

#[test]
fn threshold_sets(rt: HostRuntime) {
    assert_eq!(rt; Thresholds::of(0, &[0; 8]).err(), None);
    assert_eq!(rt; Thresholds::of(50_000, &[50_000; 8]).err(), None);
    assert_eq!(rt;
        Thresholds::of(1, &[0, 0, 0, 0, 0, 0, 0, 0, 99_999]).err(),
        None,
        "a ninth theta is not read"
    );
    assert_eq!(rt;
        Thresholds::of(60_000, &[60_000; 7]).err(),
        Some(Refusal::BufferTooShort),
        "before numbers out of bounds"
    );
    assert_eq!(rt;
        Thresholds::of(50_001, &[0; 8]).err(),
        Some(Refusal::ValueOutOfBounds)
    );
    assert_eq!(rt;
        Thresholds::of(0, &[0, 0, 0, 0, 0, 0, 0, 50_001]).err(),
        Some(Refusal::ValueOutOfBounds)
    );
    assert_eq!(rt;
        Thresholds::of(u32::MAX, &[u32::MAX; 8]).err(),
        Some(Refusal::ValueOutOfBounds)
    );
}

struct Case {
    k: u32,
    theta: u32,
    kva: u8,
    energy: u32,
    weights: u64,
    extreme: bool,
    why: &'static str,
}

const CASES: [Case; 10] = [
    Case {
        k: 10_000,
        theta: 0,
        kva: 6,
        energy: 144_000,
        weights: 480_000,
        extreme: false,
        why: "equal to the upper bound",
    },
    Case {
        k: 10_000,
        theta: 0,
        kva: 6,
        energy: 144_001,
        weights: 480_000,
        extreme: true,
        why: "over it",
    },
    Case {
        k: 10_000,
        theta: 6_000,
        kva: 6,
        energy: 28_800,
        weights: 480_000,
        extreme: false,
        why: "equal to the lower bound",
    },
    Case {
        k: 10_000,
        theta: 6_000,
        kva: 6,
        energy: 28_799,
        weights: 480_000,
        extreme: true,
        why: "under it",
    },
    Case {
        k: 10_000,
        theta: 5_000,
        kva: 6,
        energy: 0,
        weights: 480_000,
        extreme: false,
        why: "a lower bound of 0",
    },
    Case {
        k: 10_000,
        theta: 5_001,
        kva: 36,
        energy: 0,
        weights: 10_000,
        extreme: true,
        why: "no energy under a bound above 0",
    },
    Case {
        k: 50_000,
        theta: 0,
        kva: 36,
        energy: 0,
        weights: 480_000,
        extreme: false,
        why: "a lower bound below 0",
    },
    Case {
        k: 0,
        theta: 0,
        kva: 36,
        energy: 1,
        weights: 480_000,
        extreme: true,
        why: "k of 0, and some energy",
    },
    Case {
        k: 0,
        theta: 0,
        kva: 36,
        energy: 0,
        weights: 480_000,
        extreme: false,
        why: "k of 0, and none",
    },
    Case {
        k: 50_000,
        theta: 50_000,
        kva: 255,
        energy: u32::MAX,
        weights: u64::MAX,
        extreme: true,
        why: "the largest numbers: under the lower bound",
    },
];

#[test]
fn extremes(rt: HostRuntime) -> Result<(), Fail> {
    for case in CASES.iter() {
        let set = Thresholds::of(case.k, &[0, 0, 0, 0, 0, case.theta, 0, 0])?;
        assert_eq!(rt;
            set.is_extreme(5, case.kva, case.energy, case.weights),
            Some(case.extreme),
            "{}",
            case.why
        );
        assert_eq!(rt;
            set.is_extreme(8, case.kva, case.energy, case.weights),
            None
        );
    }
    Ok(())
}

#[test]
fn usage_factors(rt: HostRuntime) {
    assert_eq!(rt;
        usage_factor_of(144_000, 480_000),
        (2_880_000_000, 480_000),
        "6 kW, never divided"
    );
    assert_eq!(rt; usage_factor_of(0, 0), (0, 0));
    assert_eq!(rt;
        usage_factor_of(u32::MAX, u64::MAX),
        (85_899_345_900_000, u64::MAX)
    );
}
