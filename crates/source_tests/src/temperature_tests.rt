use refusals::Refusal;
use sources::{Flat, ProfileSource};
use std::process::Abort;
use temperature::TemperatureLayer;

struct Case {
    gradient: u16,
    threshold: i16,
    normal: i16,
    measured: i16,
    weight: u32,
    twice: u32,
    why: &'static str,
}

// Weights of 10,000 under one layer and under two that are alike.
const CASES: [Case; 8] = [
    Case {
        gradient: 168,
        threshold: 150,
        normal: 61,
        measured: 10,
        weight: 10_857,
        twice: 11_787,
        why: "colder than normal",
    },
    Case {
        gradient: 168,
        threshold: 50,
        normal: 61,
        measured: 60,
        weight: 10_000,
        twice: 10_000,
        why: "above the threshold",
    },
    Case {
        gradient: 168,
        threshold: 50,
        normal: 61,
        measured: 40,
        weight: 10_168,
        twice: 10_339,
        why: "normal is cut at the threshold",
    },
    Case {
        gradient: 2_000,
        threshold: 500,
        normal: 500,
        measured: -500,
        weight: 210_000,
        twice: 1_000_000,
        why: "as cold as can be, cut at the second",
    },
    Case {
        gradient: 2_000,
        threshold: 500,
        normal: -500,
        measured: 500,
        weight: 0,
        twice: 0,
        why: "the factor is negative",
    },
    Case {
        gradient: 1_000,
        threshold: 500,
        normal: 0,
        measured: 100,
        weight: 0,
        twice: 0,
        why: "the factor is 0",
    },
    Case {
        gradient: 999,
        threshold: 500,
        normal: 0,
        measured: 100,
        weight: 10,
        twice: 0,
        why: "nearly 0; 10 times 0.001 rounds to 0",
    },
    Case {
        gradient: 5,
        threshold: 500,
        normal: 1,
        measured: 0,
        weight: 10_001,
        twice: 10_002,
        why: "half a ten-thousandth goes up",
    },
];

#[test]
fn weights_under_layers(rt: HostRuntime) {
    for case in CASES.iter() {
        let gradients = [case.gradient; 8];
        let mut one = TemperatureLayer::over(Flat::over(1));
        assert_eq!(rt;
            one.weight(0, 0),
            Some(10_000),
            "a new layer passes weights through"
        );
        assert_eq!(rt;
            one.load(case.threshold, &gradients, &[case.normal], &[case.measured]),
            Ok(())
        );
        assert_eq!(rt; one.weight(7, 0), Some(case.weight), "{}", case.why);
        let mut two = TemperatureLayer::over(one);
        assert_eq!(rt;
            two.load(case.threshold, &gradients, &[case.normal], &[case.measured]),
            Ok(())
        );
        assert_eq!(rt; two.weight(7, 0), Some(case.twice), "{}", case.why);
        assert_eq!(rt;
            (two.covered(), two.weight(7, 1), two.weight(8, 0)),
            (1, None, None)
        );
    }
}

// What a load of these answers. A refusal leaves the weight of half-hour 0 as it was.
fn load(
    rt: &impl Abort,
    threshold: i16,
    gradients: &[u16],
    normal: &[i16],
    measured: &[i16],
) -> Result<(), Refusal> {
    let mut layer = TemperatureLayer::over(Flat::over(1_680));
    let _ = layer.load(500, &[100; 8], &[10], &[0]);
    let before = layer.weight(0, 0);
    let answer = layer.load(threshold, gradients, normal, measured);
    if answer.is_err() {
        assert_eq!(rt; layer.weight(0, 0), before, "changed by a refused load");
    }
    answer
}

#[test]
fn refusals_of_a_load(rt: HostRuntime) {
    let short = Err(Refusal::BufferTooShort);
    let unequal = Err(Refusal::CoverageDiffers);
    let bounds = Err(Refusal::ValueOutOfBounds);
    assert_eq!(rt; load(&rt, 0, &[0; 8], &[], &[]), Ok(()));
    assert_eq!(rt;
        load(&rt, -500, &[2_000; 8], &[500; 1_680], &[-500; 1_680]),
        Ok(())
    );
    assert_eq!(rt;
        load(&rt, 500, &[0, 0, 0, 0, 0, 0, 0, 0, 9_999], &[1], &[1]),
        Ok(()),
        "a ninth gradient is not read"
    );
    assert_eq!(rt;
        load(&rt, 501, &[0; 7], &[1], &[]),
        short,
        "before all others"
    );
    assert_eq!(rt;
        load(&rt, 501, &[0; 8], &[1], &[]),
        unequal,
        "before numbers out of bounds"
    );
    assert_eq!(rt; load(&rt, 0, &[0; 8], &[0; 1_681], &[0; 1_681]), unequal);
    assert_eq!(rt; load(&rt, 501, &[0; 8], &[], &[]), bounds);
    assert_eq!(rt; load(&rt, -501, &[0; 8], &[], &[]), bounds);
    assert_eq!(rt;
        load(&rt, 0, &[0, 0, 0, 0, 0, 0, 0, 2_001], &[], &[]),
        bounds
    );
    assert_eq!(rt; load(&rt, 0, &[0; 8], &[0, 501], &[0, 0]), bounds);
    assert_eq!(rt; load(&rt, 0, &[0; 8], &[0, 0], &[0, -501]), bounds);
}

#[test]
fn second_load_is_shorter(rt: HostRuntime) {
    let mut layer = TemperatureLayer::over(Flat::over(4));
    assert_eq!(rt;
        layer.load(500, &[100; 8], &[10, 10, 10], &[0, 0, 0]),
        Ok(())
    );
    // half-hour 0 is loaded again, 1 and 2 keep their temperatures under the new gradient, 3 was never loaded
    assert_eq!(rt; layer.load(500, &[200; 8], &[20], &[0]), Ok(()));
    assert_eq!(rt;
        (
            layer.weight(0, 0),
            layer.weight(0, 1),
            layer.weight(0, 2),
            layer.weight(0, 3),
        ),
        (Some(10_400), Some(10_200), Some(10_200), Some(10_000))
    );
}

#[test]
fn flat_source(rt: HostRuntime) {
    let cases: [(usize, usize); 6] = [
        (0, 0),
        (1, 1),
        (49, 49),
        (1_680, 1_680),
        (1_681, 0),
        (usize::MAX, 0),
    ];
    for (told, covered) in cases {
        let flat = Flat::over(told);
        assert_eq!(rt; flat.covered(), covered);
        assert_eq!(rt; flat.weight(7, covered), None);
        assert_eq!(rt;
            flat.weight(0, 0),
            if covered > 0 { Some(10_000) } else { None }
        );
    }
}
