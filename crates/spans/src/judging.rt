// Judging a span: on what grounds its energy goes to a party, or which anomaly keeps it from one.
ghost use Rattle.std.specs.Prelude.{◌≡◌, ◌<◌, not, ◌&&◌, is_some, nat_le, slice_index};
ghost use Rattle.book.specs.Books.{contents};
ghost use Rattle.span_rules.specs.Lasts.{later};
ghost use Rattle.span_rules.specs.Days.{unless_ended, sub_profile_under};
ghost use Rattle.spans.specs.Judging.{OneSituation, GroundsTold, anomaly_by, unless_found};

use crate::{Anomaly, Grounds, SiteDial};
use book_rules::{Situation, Terms};
use factors::Thresholds;
use profiles::Profile;

// The last situation so far, with its start, once a day is looked at.
fn latest_by(
    day: u8,
    starting: Option<Situation>,
    earlier: Option<(u8, Situation)>,
) -> Option<(u8, Situation)>
    ensures { result ≡ later day starting earlier }
{
    starting.map(|situation| (day, situation)).or(earlier)
}

// Whether there is a situation that has not ended by a day.
fn is_running(latest: Option<(u8, Situation)>, day: u8) -> bool
    ensures { result ≡ is_some (unless_ended day latest) }
{
    latest.is_some_and(|(_, situation)| situation.end.is_none_or(|end| day < end))
}

// Whether a day of a span that begins on `from` has no situation.
fn is_gap(from: u8, day: u8, latest: Option<(u8, Situation)>) -> bool
    ensures { result ≡ (nat_le from day && not (is_some (unless_ended day latest))) }
{
    day >= from && !is_running(latest, day)
}

// The sub-profile of a dial of any number.
#[tactic(auto, unfolding(span_rules::specs::Days::sub_profile_under))]
fn sub_profile_of(terms: Terms, dial: u8) -> Option<u8>
    ensures { result ≡ sub_profile_under terms dial }
{
    let profile = Profile::of(terms.class, terms.power).ok()?;
    profile.sub_profile(dial)
}

impl SiteDial<'_> {
    // The situation in which all days of a span lie.
    fn situation_throughout(&self, from: u8, to: u8) -> Result<Situation, Anomaly>
        ensures { from < to → OneSituation ((contents self.now.book.now).situation self.now.site) from to result }
    {
        let mut latest: Option<(u8, Situation)> = None;
        // a `for`, since it leaves at the first gap and keeps the last situation: a `try_fold` would say no less
        for day in 0..to {
            latest = latest_by(day, self.book.situation_starting(self.site, day), latest);
            if is_gap(from, day, latest) {
                return Err(Anomaly::NoSituation);
            }
        }
        match latest {
            Some((start, situation)) if start <= from => Ok(situation),
            Some(_) => Err(Anomaly::SeveralSituations),
            None => Err(Anomaly::NoSituation),
        }
    }

    // The grounds of a span over the days from `from` to the day before `to`: the party, power and sub-profile of the
    // one situation in which they lie. Or the anomaly that the span has for want of them.
    pub fn grounds(&self, from: u8, to: u8) -> Result<Grounds, Anomaly>
        ensures { from < to → GroundsTold ((contents self.now.book.now).situation self.now.site) self.now.dial from to result }
    {
        let situation = self.situation_throughout(from, to)?;
        let sub_profile = sub_profile_of(situation.terms, self.dial).ok_or(Anomaly::NoDial)?;
        Ok(Grounds {
            party: situation.terms.party,
            power: situation.terms.power,
            sub_profile,
        })
    }
}

impl Grounds {
    // Whether the energy of a span with these grounds may go to the party, by that energy and the sum of its weights; or
    // the anomaly that keeps it. Energy and weights are the two numbers that the rules name E and S.
    pub fn check(self, thresholds: &Thresholds, energy: u32, weights: u64) -> Result<(), Anomaly>
        ensures { result ≡ unless_found (anomaly_by thresholds.now.k (λ p. slice_index thresholds.now.thetas p) self energy weights) }
    {
        if weights == 0 {
            return Err(Anomaly::ZeroWeight);
        }
        match thresholds.is_extreme(self.sub_profile, self.power, energy, weights) {
            Some(true) => Err(Anomaly::ExtremeFactor),
            _ => Ok(()),
        }
    }
}
