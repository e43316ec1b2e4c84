// Looking at what is to be loaded, and storing it.
ghost use Rattle.std.specs.Prelude.{◌≡◌, ℕ, ◌≤◌, length, take, None, Some, MatchResult};
ghost use Rattle.std.specs.List.{list_all};
ghost use Rattle.temperature.specs.Loading.{temperate, gradual, bounded, refusal, Loaded};

use crate::Temperatures;
use refusals::Refusal;

// What is to be loaded, of lengths that fit.
#[derive(Clone, Copy)]
pub(crate) struct Load<'a> {
    threshold: i16,
    gradients: [u16; 8],
    normal: &'a [i16],
    measured: &'a [i16],
    ghost normal_short: { length normal.now ≤ 1680 },
    ghost measured_short: { length measured.now ≤ 1680 },
}

fn is_temperate(x: i16) -> bool
    ensures { result ≡ temperate x }
{
    (-500..=500).contains(&x)
}

// Two functions, over two types with a test each: with a chain of either in `is_bounded` what its `&&` answers
// (`returns-then-..`, `returns-else-..`) is not found alone.
fn are_temperate(list: &[i16]) -> bool
    ensures { result ≡ list_all temperate list.now }
{
    list.iter().all(|x| is_temperate(*x))
}

fn are_gradual(list: &[u16]) -> bool
    ensures { result ≡ list_all gradual list.now }
{
    list.iter().all(|gradient| *gradient <= 2_000)
}

impl<'a> Load<'a> {
    // What is given, or why it cannot be loaded.
    pub(crate) fn of(
        threshold: i16,
        gradients: &[u16],
        normal: &'a [i16],
        measured: &'a [i16],
    ) -> Result<Load<'a>, Refusal>
        ensures { MatchResult result (λ l. (refusal threshold gradients.now normal.now measured.now ≡ None) × (l.threshold ≡ threshold) × (l.gradients ≡ take 8 gradients.now) × (l.normal.now ≡ normal.now) × (l.measured.now ≡ measured.now)) (λ e. refusal threshold gradients.now normal.now measured.now ≡ Some e) }
    {
        let gradients = *gradients.first_chunk::<8>().ok_or(Refusal::BufferTooShort)?;
        if normal.len() != measured.len() || normal.len() > 1_680 {
            return Err(Refusal::CoverageDiffers);
        }
        let load = Load {
            threshold,
            gradients,
            normal,
            measured,
        };
        if !load.is_bounded() {
            return Err(Refusal::ValueOutOfBounds);
        }
        Ok(load)
    }

    fn is_bounded(&self) -> bool
        ensures { result ≡ bounded self.now.threshold self.now.gradients self.now.normal.now self.now.measured.now }
    {
        is_temperate(self.threshold)
            && are_gradual(&self.gradients)
            && are_temperate(self.normal)
            && are_temperate(self.measured)
    }
}

impl Temperatures {
    pub(crate) fn store(&mut self, load: Load<'_>)
        ensures { Loaded load.entry.threshold load.entry.gradients load.entry.normal.now load.entry.measured.now self.old self.new }
    {
        self.threshold = load.threshold;
        self.gradients = load.gradients;
        self.normal[..load.normal.len()].copy_from_slice(load.normal);
        self.measured[..load.measured.len()].copy_from_slice(load.measured);
    }
}
