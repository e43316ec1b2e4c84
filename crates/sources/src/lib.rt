// Profile sources: where the weights of half-hours come from. docs/sources.md has the rules.
#![tactic(auto)]

ghost use Rattle.std.specs.Prelude.{◌≡◌, ℕ, ◌<◌, ◌≤◌, IfSome};
ghost use Rattle.sources.specs.Meaning.{Short, Light, answer, coverable, nearest};

// A source of weights, in ten-thousandths. Its meaning is given by the ghost members. No more is asked of a source than
// the clauses say: of sub-profiles past 7 and half-hours past those covered, `weighs` may be anything. The two laws are
// clauses of `covered`, so that a source may borrow what it weighs by; `within` is what they say of one answer.
pub trait ProfileSource {
    ghost covers: { Self → ℕ };

    ghost weighs: { Self → ℕ → ℕ → ℕ };

    // The number of half-hours covered.
    fn covered(&self) -> usize
        ensures told { result ≡ covers self.now }
        ensures short { Short (covers self.now) }
        ensures light { Light (covers self.now) (weighs self.now) };

    // The weight of a half-hour for a sub-profile; none for a sub-profile past 7 or a half-hour that is not covered. Both
    // are any numbers, since a question past the bounds is one that may be asked.
    fn weight(&self, sub_profile: u8, half_hour: usize) -> Option<u32>
        ensures answer { result ≡ answer (covers self.now) (weighs self.now) sub_profile half_hour }
        ensures within { IfSome result (λ w. (w ≤ 1000000) × (half_hour < 1680)) };
}

// A weight that is given in billionths, in ten-thousandths: to the nearest (the half goes up), cut at the largest weight,
// as the rules cut it.
pub fn nearest_weight(billionths: u64) -> u32
    ensures { result ≡ nearest billionths }
{
    (billionths.saturating_add(50_000) / 100_000).min(1_000_000) as u32
}

// The flat source: the same weight everywhere.
#[derive(Clone, Copy)]
pub struct Flat {
    half_hours: usize,
    ghost short: { half_hours ≤ 1680 },
}

impl Flat {
    // Covers the half-hours it is told, or none if they are more than 1,680.
    pub fn over(half_hours: usize) -> Flat
        ensures { result.half_hours ≡ coverable half_hours }
    {
        Flat {
            half_hours: if half_hours > 1_680 { 0 } else { half_hours },
        }
    }
}

impl ProfileSource for Flat {
    ghost covers = { λ s. s.half_hours };

    ghost weighs = { λ _ _ _. 10000 };

    fn covered(&self) -> usize {
        self.half_hours
    }

    fn weight(&self, sub_profile: u8, half_hour: usize) -> Option<u32> {
        (sub_profile <= 7 && half_hour < self.covered()).then_some(10_000)
    }
}
