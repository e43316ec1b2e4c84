// Spans, and the curve of one by the weights of a profile source.
ghost use Rattle.std.specs.Prelude.{◌≡◌, ◌+◌, ◌-◌, ◌*◌, ◌<◌, ◌≤◌, IfOk, Some, None, vec_items, vec_len, MatchResult};
ghost use Rattle.std.specs.Option.{option_map};
ghost use Rattle.sharing.specs.Shares.{before};
ghost use Rattle.sources.specs.Meaning.{Short, Light};
ghost use Rattle.readings.specs.Curves.{problem_between, half_hours_between, energy_between, Curve, DrawnBy};

use super::Span;
use crate::{Problem, Reading};
use sharing::Sharing;
use sources::ProfileSource;
use std::alloc::{AllocError, Global};

impl Span {
    // The span between two readings, or why there is none.
    pub fn between(first: Reading, last: Reading) -> Result<Span, Problem>
        ensures { MatchResult result (λ s. (problem_between first last ≡ None) × (s.first ≡ first) × (s.last ≡ last)) (λ p. problem_between first last ≡ Some p) }
    {
        if last.date <= first.date {
            return Err(Problem::NotLater);
        }
        if last.date - first.date > 35 {
            return Err(Problem::TooManyDays);
        }
        if last.index < first.index {
            return Err(Problem::IndexFalls);
        }
        if last.index > sharing::MOST_ENERGY {
            return Err(Problem::IndexTooLarge);
        }
        Ok(Span { first, last })
    }

    // The date of its first day.
    pub fn first_date(&self) -> u32
        ensures { result ≡ self.now.first.date }
    {
        self.first.date
    }

    // The energy between the two readings, in Wh.
    pub fn energy(&self) -> u32
        ensures { result ≡ energy_between self.now.first self.now.last }
    {
        self.last.index - self.first.index
    }

    // How many half-hours lie between the two readings.
    pub fn half_hours(&self) -> u32
        ensures value { result ≡ half_hours_between self.now.first self.now.last }
    {
        48 * (self.last.date - self.first.date)
    }

    // The figure of each half-hour in Wh, shared by the weights that a source has for a sub-profile; half-hour 0 of the
    // source is the first of the span. None where the source does not cover just the span, for a sub-profile past 7, and
    // where all weights are 0.
    pub fn curve<S: ProfileSource>(
        &self,
        heap: Global,
        source: &S,
        sub_profile: u8,
    ) -> Result<Option<Vec<u32>>, AllocError>
        ensures { IfOk result (λ o. DrawnBy (S.covers source.now) (S.weighs source.now) sub_profile self.now.first self.now.last (option_map vec_items o)) }
    {
        let half_hours = self.half_hours() as usize;
        if source.covered() != half_hours || sub_profile > 7 {
            return Ok(None);
        }
        let weights = Weights {
            source,
            sub_profile,
            half_hours,
        };
        let Some(sharing) = Sharing::over(self.energy(), weights.total()) else {
            return Ok(None);
        };
        weights.figures(heap, sharing).map(Some)
    }
}

// The weights of a sub-profile over the first half-hours of a source. The sub-profile is a number, as a source is asked for
// it.
#[derive(Drop)]
struct Weights<'a, S> {
    source: &'a S,
    sub_profile: u8,
    half_hours: usize,
    ghost known: { sub_profile ≤ 7 },
}

impl<'a, S: ProfileSource> Weights<'a, S> {
    // That of a half-hour which is covered.
    fn at(&self, half_hour: usize) -> u32
        requires { half_hour < S.covers self.now.source.now }
        ensures value { result ≡ S.weighs self.now.source.now self.now.sub_profile half_hour }
        ensures light { result ≤ 1000000 }
    {
        self.source.weight(self.sub_profile, half_hour).unwrap()
    }

    // All of them, added.
    fn total(&self) -> u64
        requires covered { self.now.half_hours ≤ S.covers self.now.source.now }
        requires short { Short (S.covers self.now.source.now) }
        requires light { Light (S.covers self.now.source.now) (S.weighs self.now.source.now) }
        ensures value { result ≡ before (S.weighs self.now.source.now self.now.sub_profile) self.now.half_hours }
        ensures bound { result ≤ 1680000000 }
    {
        (0..self.half_hours).map(|t| u64::from(self.at(t))).sum()
    }

    // What each half-hour gets of the energy of a sharing that begins.
    fn figures(&self, heap: Global, mut sharing: Sharing) -> Result<Vec<u32>, AllocError>
        requires covered { self.now.half_hours ≤ S.covers self.now.source.now }
        requires all { sharing.all ≡ before (S.weighs self.now.source.now self.now.sub_profile) self.now.half_hours }
        requires behind { sharing.behind ≡ 0 }
        ensures { IfOk result (λ v. Curve sharing.energy (S.weighs self.now.source.now self.now.sub_profile) self.now.half_hours v.items) }
    {
        // No chain: a closure in `map` that changes the sharing leaves the proof without what `collect` gathers.
        let mut curve = Vec::new(heap);
        for t in 0..self.half_hours {
            curve.push(sharing.next_figure(self.at(t)))?;
        }
        Ok(curve)
    }
}
