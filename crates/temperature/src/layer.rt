// The weights of the temperature layer.
ghost use Rattle.std.specs.Prelude.{◌≡◌, ℕ, ◌<◌, ◌≤◌, length, replicate, pos, ◌*ℤ◌, ◌≤ℤ◌, unsigned_abs, Some, None};
ghost use Rattle.temperature.specs.Adjusting.{colder, factor, scaled, adjusted};
ghost use Rattle.temperature.specs.Loading.{refusal, answered, After};

use crate::loading::Load;
use crate::{TemperatureLayer, Temperatures};
use refusals::Refusal;
use sources::{ProfileSource, nearest_weight};

fn colder_by(threshold: i16, normal: i16, measured: i16) -> i32
    ensures value { result ≡ colder threshold normal measured }
    ensures bound { unsigned_abs result ≤ 65535 }
{
    i32::from(threshold.min(normal)) - i32::from(threshold.min(measured))
}

fn times(gradient: u16, d: i32) -> i64
    requires { unsigned_abs d ≤ 65535 }
    ensures value { result ≡ pos gradient *ℤ d }
    ensures bound { unsigned_abs result ≤ 4294836225 }
{
    i64::from(gradient) * i64::from(d)
}

fn factor_of(gradient: u16, threshold: i16, normal: i16, measured: i16) -> i64
    ensures value { result ≡ factor gradient (colder threshold normal measured) }
    ensures bound { result ≤ℤ pos 4294936225 }
{
    let d = colder_by(threshold, normal, measured);
    100_000 + times(gradient, d)
}

fn scaled_by(weight: u32, factor: i64) -> u32
    requires { (weight ≤ 1000000) × (factor ≤ℤ pos 4294936225) }
    ensures { result ≡ scaled weight factor }
{
    let Ok(factor) = u64::try_from(factor) else {
        return 0;
    };
    nearest_weight(u64::from(weight) * factor)
}

impl Temperatures {
    // A weight of a half-hour, adjusted. The sub-profile is a number, as the source below was asked for it.
    fn adjust(&self, weight: u32, sub_profile: u8, half_hour: usize) -> u32
        requires weight { weight ≤ 1000000 }
        requires sub_profile { sub_profile ≤ 7 }
        requires half_hour { half_hour < 1680 }
        ensures value { result ≡ adjusted self.now (λ _ _. weight) sub_profile half_hour }
        ensures bound { result ≤ 1000000 }
    {
        let gradient = self.gradients[usize::from(sub_profile)];
        let factor = factor_of(
            gradient,
            self.threshold,
            self.normal[half_hour],
            self.measured[half_hour],
        );
        scaled_by(weight, factor)
    }
}

impl<S> TemperatureLayer<S> {
    // A new layer holds zeros: it passes the weights below through.
    pub fn over(below: S) -> TemperatureLayer<S>
        ensures below { result.below ≡ below }
        ensures held { result.held ≡ record { normal = replicate 1680 (pos 0); measured = replicate 1680 (pos 0); threshold = pos 0; gradients = replicate 8 0 } }
    {
        let held = Temperatures {
            normal: [0; 1680],
            measured: [0; 1680],
            threshold: 0,
            gradients: [0; 8],
        };
        TemperatureLayer { below, held }
    }

    // Loads the threshold, the gradients of the eight sub-profiles and the first temperatures of both lists; places past
    // the lists keep what they had. Refused with 2 for fewer than eight gradients, then 18 for lists that are unequal or
    // longer than 1,680, then 19 for a number out of bounds; a refusal changes nothing.
    pub fn load(
        &mut self,
        threshold: i16,
        gradients: &[u16],
        normal: &[i16],
        measured: &[i16],
    ) -> Result<(), Refusal>
        ensures answer { result ≡ answered (refusal threshold gradients.now normal.now measured.now) }
        ensures held { After (refusal threshold gradients.now normal.now measured.now) threshold gradients.now normal.now measured.now self.old.held self.new.held }
        ensures below { self.new.below ≡ self.old.below }
    {
        let load = Load::of(threshold, gradients, normal, measured)?;
        self.held.store(load);
        Ok(())
    }
}

impl<S: ProfileSource> ProfileSource for TemperatureLayer<S> {
    ghost covers = { λ s. S.ProfileSource.covers s.below };

    ghost weighs = { λ s. adjusted s.held (S.ProfileSource.weighs s.below) };

    fn covered(&self) -> usize {
        self.below.covered()
    }

    fn weight(&self, sub_profile: u8, half_hour: usize) -> Option<u32> {
        let weight = self.below.weight(sub_profile, half_hour)?;
        Some(self.held.adjust(weight, sub_profile, half_hour))
    }
}
