// Sharing the energy between two indexes over the half-hours between them, by their weights. docs/sharing.md has the
// rule. The laws of the running share are named in specs/Laws.antt; whatever is built on it uses those alone.
#![tactic(auto)]

ghost use Rattle.std.specs.Prelude.{◌≡◌, ℕ, ◌+◌, ◌-◌, ◌*◌, ◌<◌, ◌≤◌, min, true, ◌&&◌, length, if◌then◌else◌, Some, None, MatchOption, OnSome, ◌≢◌};
ghost use Rattle.sharing.specs.Shares.{before, running_share, weighed, total, weighable, divisible, shared_over, Figures, Written};
ghost use Rattle.sharing.specs.Laws.{RunningLaws, Fair, EverySpanFair};

// The largest energy that can be shared, in Wh: an index has nine digits.
pub const MOST_ENERGY: u32 = 999_999_999;
// The most half-hours that energy can be shared over: 35 days.
pub const MOST_HALF_HOURS: usize = 1_680;
// The largest weight of a half-hour, in ten-thousandths.
pub const MOST_WEIGHT: u32 = 1_000_000;
// The largest sum of weights.
const MOST_ALL: u64 = 1_680_000_000;

// The energy of a span on its way through the half-hours: how much weight lies behind, and how much energy is given.
#[derive(Clone, Copy)]
pub struct Sharing {
    energy: u32,
    all: u64,
    behind: u64,
    given: u32,
    ghost bounded: { energy ≤ 999999999 },
    ghost light: { all ≤ 1680000000 },
    ghost some: { 0 < all },
    ghost within: { behind ≤ all },
    ghost shared: { given ≡ running_share energy all behind },
}

// The running share where the weights that lie behind add to `behind`.
fn running(energy: u32, all: u64, behind: u64) -> u32
    requires bounded { energy ≤ 999999999 }
    requires some { 0 < all }
    requires light { all ≤ 1680000000 }
    requires within { behind ≤ all }
    ensures { result ≡ running_share energy all behind }
{
    (u64::from(energy) * behind / all) as u32
}

impl Sharing {
    // Begins to share `energy` over half-hours whose weights add to `all`; none outside the bounds or where `all` is 0.
    pub fn over(energy: u32, all: u64) -> Option<Sharing>
        ensures { MatchOption result (divisible energy all ≢ true) (λ s. (divisible energy all ≡ true) × (s.energy ≡ energy) × (s.all ≡ all) × (s.behind ≡ 0)) }
    {
        if energy > MOST_ENERGY || all == 0 || all > MOST_ALL {
            return None;
        }
        Some(Sharing {
            energy,
            all,
            behind: 0,
            given: 0,
        })
    }

    // The figure of the next half-hour, which has this weight. Weight past the whole counts for nothing.
    pub fn next_figure(&mut self, weight: u32) -> u32
        ensures figure { result ≡ running_share self.old.energy self.old.all self.new.behind - running_share self.old.energy self.old.all self.old.behind }
        ensures behind { self.new.behind ≡ min (self.old.behind + weight) self.old.all }
        ensures same { (self.new.energy ≡ self.old.energy) × (self.new.all ≡ self.old.all) }
    {
        let behind = (self.behind + u64::from(weight)).min(self.all);
        let given = running(self.energy, self.all, behind);
        let figure = given - self.given;
        self.behind = behind;
        self.given = given;
        figure
    }

    // Writes the figure of each weight into its place, as far as both lists go. Further places stay.
    pub fn write_figures(mut self, weights: &[u32], figures: &mut [u32])
        ensures { Written self.energy self.all self.behind weights.now figures.old figures.new }
    {
        // No `zip`: of places written through one a proof knows the number alone.
        let mut weights = weights.iter();
        for figure in figures.iter_mut() {
            let Some(weight) = weights.next() else {
                return;
            };
            *figure = self.next_figure(*weight);
        }
    }
}

// The sum of the weights; none where there are more than 1,680 or one is over 1,000,000.
fn total_weight(weights: &[u32]) -> Option<u64>
    ensures { result ≡ (if weighable weights.now then Some (total weights.now) else None) }
{
    if weights.len() > MOST_HALF_HOURS || !weights.iter().all(|weight| *weight <= MOST_WEIGHT) {
        return None;
    }
    Some(weights.iter().map(|weight| u64::from(*weight)).sum())
}

// Shares `energy` over half-hours of these weights: writes each one's figure and answers the sum of the weights.
// Answers nothing, and writes nothing, where a bound is passed, all weights are 0 or there are fewer places than weights.
pub fn share(energy: u32, weights: &[u32], figures: &mut [u32]) -> Option<u64>
    ensures answer { result ≡ shared_over energy weights.now (length figures.old) }
    ensures figures { Figures energy weights.now figures.old result figures.new }
    ensures fair { OnSome result (Fair energy (weighed weights.now) (length weights.now)) }
{
    let all = total_weight(weights)?;
    if weights.len() > figures.len() {
        return None;
    }
    Sharing::over(energy, all)?.write_figures(weights, figures);
    Some(all)
}

// The running share starts at 0, ends at the energy, never falls, and lies less than 1 Wh below the exact share.
pub fn running_share_keeps_its_laws()
    ensures { RunningLaws }
{}

// Of any span whose weights are not all 0 the figures add up to its energy and follow the exact share.
pub fn every_span_is_shared_fairly()
    ensures { EverySpanFair }
{}
