// A source of an odd number of half-hours, whose weights follow a formula and mean anything past its bounds; and one
// that covers nothing.
ghost use Rattle.std.specs.Prelude.{◌≡◌, ℕ, ◌+◌, ◌*◌, ◌≤◌};

use sources::ProfileSource;

#[derive(Clone, Copy)]
struct Slope {}

impl ProfileSource for Slope {
    ghost covers = { λ _. 49 };

    ghost weighs = { λ _ sub t. 20000 * t + sub };

    fn covered(&self) -> usize {
        49
    }

    fn weight(&self, sub_profile: u8, half_hour: usize) -> Option<u32> {
        (sub_profile <= 7 && half_hour < 49).then(|| 20_000 * half_hour as u32
            + u32::from(sub_profile))
    }
}

#[derive(Clone, Copy)]
struct Nowhere {}

impl ProfileSource for Nowhere {
    ghost covers = { λ _. 0 };

    ghost weighs = { λ _ _ _. 5000000 };

    fn covered(&self) -> usize {
        0
    }

    fn weight(&self, _sub_profile: u8, _half_hour: usize) -> Option<u32> {
        None
    }
}

#[cfg(test)]
mod tests {
    use super::*;
    use temperature::TemperatureLayer;

    // Asks a source, of any kind, at the edges of what it covers.
    fn edges<S: ProfileSource>(source: &S) -> [Option<u32>; 4] {
        let end = source.covered();
        [
            source.weight(7, end.saturating_sub(1)),
            source.weight(7, end),
            source.weight(8, 0),
            source.weight(255, end),
        ]
    }

    #[test]
    fn odd_sources_in_generic_code(rt: HostRuntime) {
        assert_eq!(rt; edges(&Slope {}), [Some(960_007), None, None, None]);
        assert_eq!(rt; edges(&Nowhere {}), [None, None, None, None]);
        // a new layer passes them through
        assert_eq!(rt;
            edges(&TemperatureLayer::over(Slope {})),
            [Some(960_007), None, None, None]
        );
        assert_eq!(rt;
            edges(&TemperatureLayer::over(TemperatureLayer::over(Nowhere {}))),
            [None, None, None, None]
        );
    }
}
