// The judgement on a span: to whose account its energy goes, and by which weights it is shared. docs/spans.md has the
// rules.
#![tactic(auto)]

ghost use Rattle.std.specs.Prelude.{◌≡◌, ℕ, ◌+◌, ◌-◌, ◌*◌, ◌<◌, ◌≤◌, IfOk, length, slice_index};
ghost use Rattle.judgements.specs.Judgements.{meaning, JudgedSo, WeighedInto, OwnWeights};

use factors::Thresholds;
use sources::ProfileSource;
use spans::{Anomaly, DialSpan, SiteDial};

// What decides on the energy of a dial: a dial of a site in a book, a source of weights and a threshold set.
#[derive(Drop)]
pub struct MeteredDial<'a, S> {
    pub at: SiteDial<'a>,
    pub source: &'a S,
    pub thresholds: &'a Thresholds,
}

// The judgement on a span: the party to whose account its energy goes, or the first anomaly that keeps it from one; and
// the sum of the weights by which the energy is shared.
#[derive(Clone, Copy, PartialEq, Eq, Debug)]
pub struct Judgement {
    pub account: Result<u8, Anomaly>,
    pub all: u64,
}

// The weight of a half-hour, 0 where the source tells none. The sub-profile is a number, as a source is asked for it.
fn weight_at<S: ProfileSource>(source: &S, sub_profile: u8, t: usize) -> u32
    ensures value { sub_profile ≤ 7 → t < S.covers source.now → result ≡ S.weighs source.now sub_profile t }
    ensures bound { result ≤ 1000000 }
{
    source.weight(sub_profile, t).unwrap_or(0)
}

// Writes a source's weights of the half-hours from `first` on into their places and answers their sum. Not one with the
// total of crate readings, which writes nothing and knows that all is covered.
fn weigh<S: ProfileSource>(source: &S, sub_profile: u8, first: usize, weights: &mut [u32]) -> u64
    requires { first + length weights.old ≤ 1680 }
    ensures weighed { sub_profile ≤ 7 → first + length weights.old ≤ S.covers source.now → WeighedInto (S.weighs source.now sub_profile) first (length weights.old) weights.new result }
    ensures length { length weights.new ≡ length weights.old }
    ensures bound { result ≤ 1000000 * length weights.old }
{
    let mut sum: u64 = 0;
    for (i, place) in weights.iter_mut().enumerate() {
        *place = weight_at(source, sub_profile, first + i);
        sum += u64::from(*place);
    }
    sum
}

impl<S: ProfileSource> MeteredDial<'_, S> {
    // The party to which a span's energy goes and the sum of the source's weights, which are written; or its first
    // anomaly.
    fn party_of(&self, span: DialSpan, weights: &mut [u32; 1680]) -> Result<(u8, u64), Anomaly>
        requires { (span.from ≤ span.to) × (span.to ≤ 35) }
        ensures bound { IfOk result (λ v. v.1 ≤ 1680000000) }
        ensures own { span.from < span.to → 48 * span.to ≤ S.covers self.now.source.now → OwnWeights (meaning S.weighs self.now) span.from span.to span.energy weights.new result }
    {
        let grounds = self.at.grounds(span.from, span.to)?;
        let places = span.half_hours();
        let sum = weigh(
            self.source,
            grounds.sub_profile,
            places.start,
            &mut weights[places],
        );
        grounds.check(self.thresholds, span.energy, sum)?;
        Ok((grounds.party, sum))
    }

    // Judges a span of the dial, and writes the weights by which its energy is shared into the places of its half-hours:
    // the source's for the party of the one situation that its days lie in, or 1 each for its first anomaly. A span past
    // day 35 is judged up to there. The places are an array of the caller's: no call here needs a heap.
    pub fn judge(&self, span: DialSpan, weights: &mut [u32; 1680]) -> Judgement
        ensures { span.from < span.to → span.to ≤ 35 → 48 * span.to ≤ S.covers self.now.source.now → JudgedSo (meaning S.weighs self.now) span.from span.to span.energy weights.new result }
    {
        let to = span.to.min(35);
        let span = DialSpan {
            from: span.from.min(to),
            to,
            energy: span.energy,
        };
        match self.party_of(span, weights) {
            Ok((party, all)) => Judgement {
                account: Ok(party),
                all,
            },
            Err(anomaly) => {
                let places = &mut weights[span.half_hours()];
                places.fill(1);
                Judgement {
                    account: Err(anomaly),
                    all: places.len() as u64,
                }
            }
        }
    }
}
