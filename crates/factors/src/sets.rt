// Making threshold sets, and the extreme test. `energy` and `weights` are two numbers, since the rules name them apart, E and S.
ghost use Rattle.std.specs.Prelude.{◌≡◌, ℕ, ◌+◌, ◌*◌, ◌^◌, ◌<◌, ◌≤◌, true, ◌&&◌, length, if◌then◌else◌, Some, None, MatchResult, nat_le, slice_index, slice_index_or};
ghost use Rattle.factors.specs.Sets.{refusal};
ghost use Rattle.factors.specs.Extremes.{usage_factor, extreme, TestTellsExtremes};

use super::Thresholds;
use refusals::Refusal;

// k·kVA·S and the like, which may pass 64 bits.
fn product(a: u64, b: u128) -> u128
    requires { (a < 2 ^ 33) × (b < 2 ^ 72) }
    ensures value { result ≡ a * b }
    ensures bound { result < 2 ^ 105 }
{
    u128::from(a) * b
}

#[tactic(auto, unfolding(crate::specs::Extremes::extreme))]
fn is_extreme_at(k: u32, theta: u32, kva: u8, energy: u32, weights: u64) -> bool
    ensures { result ≡ extreme k theta kva energy weights }
{
    let per_threshold = u128::from(kva) * u128::from(weights);
    let used = 200_000 * u128::from(energy);
    let over = product(u64::from(k), per_threshold);
    used > over || used + over < product(2 * u64::from(theta), per_threshold)
}

impl Thresholds {
    // A threshold set of k and the first eight thetas. Refused with 2 for fewer than eight, then 19 for a number over
    // 50,000.
    pub fn of(k: u32, thetas: &[u32]) -> Result<Thresholds, Refusal>
        ensures { MatchResult result (λ s. (refusal k thetas.now ≡ None) × (s.k ≡ k) × ((sub : ℕ) → sub < 8 → slice_index s.thetas sub ≡ slice_index thetas.now sub)) (λ e. refusal k thetas.now ≡ Some e) }
    {
        let thetas = *thetas.first_chunk::<8>().ok_or(Refusal::BufferTooShort)?;
        if k > 50_000 || !thetas.iter().all(|theta| *theta <= 50_000) {
            return Err(Refusal::ValueOutOfBounds);
        }
        Ok(Thresholds { k, thetas })
    }

    // Whether the usage factor of a span of this energy and sum of weights is extreme at this power; none for a
    // sub-profile past 7. It may be asked of any numbers.
    pub fn is_extreme(&self, sub_profile: u8, kva: u8, energy: u32, weights: u64) -> Option<bool>
        ensures { result ≡ (if nat_le sub_profile 7 then Some (extreme self.now.k (slice_index_or self.now.thetas sub_profile 0) kva energy weights) else None) }
    {
        let theta = self.thetas.get(usize::from(sub_profile))?;
        Some(is_extreme_at(self.k, *theta, kva, energy, weights))
    }
}

// The usage factor of a span, as the pair 20,000·E and S.
pub fn usage_factor_of(energy: u32, weights: u64) -> (u64, u64)
    ensures { result ≡ usage_factor energy weights }
{
    (20_000 * u64::from(energy), weights)
}

// The test says of every span whether its usage factor is extreme.
pub fn test_tells_extremes()
    ensures { TestTellsExtremes }
{}
