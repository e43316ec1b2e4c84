// Making a coefficient source, and its weights.
ghost use Rattle.std.specs.Prelude.{◌≡◌, ℕ, ◌+◌, ◌*◌, ◌/◌, ◌%◌, ◌<◌, ◌≤◌, true, length, take, MatchOption, slice_index, slice_index_or};
ghost use Rattle.std.specs.Bool.{OnTrue};
ghost use Rattle.calendar.specs.Places.{place_at};
ghost use Rattle.coefficients.specs.Weights.{day_place, product, coefficient_weight, calendar_weight, good_horizon, days_covered};

use super::Coefficients;
use arrayvec::ArrayVec;
use calendar::{Place, place_of};
use sources::{ProfileSource, nearest_weight};

// How many coefficients the source reads: 395 for each of eight sub-profiles.
const COEFFICIENTS: usize = 3_160;
// The most days that the source covers.
const MOST_DAYS: usize = 35;

fn weight_of(cs: u16, cj: u16, ch: u16) -> u32
    ensures { result ≡ product cs cj ch }
{
    nearest_weight(u64::from(cs) * u64::from(cj) * u64::from(ch))
}

fn is_good_horizon(first: u32, days: usize) -> bool
    ensures value { result ≡ good_horizon first days }
    ensures facts { OnTrue result ((days ≤ 35) × (first + days ≤ 36159)) }
{
    (1..=MOST_DAYS).contains(&days) && first as usize + days <= 36_159
}

// The coefficients that the source reads of a list, if it has so many.
fn read_of(list: &[u16]) -> Option<&[u16; COEFFICIENTS]>
    ensures { MatchOption result (length list.now < 3160) (λ own. (3160 ≤ length list.now) × (own.now ≡ take 3160 list.now)) }
{
    list.first_chunk()
}

// The place of each day of a horizon.
fn places_of(first: u32, days: usize, holidays: &[u32]) -> ArrayVec<Place, MOST_DAYS>
    requires { (days ≤ 35) × (first + days ≤ 36159) }
    ensures count { length result.items ≡ days }
    ensures placed { (k : ℕ) → k < days → day_place result.items k ≡ place_at holidays.now (first + k) }
{
    // pushed one by one, since `collect` asks for an allocator and `over` has none
    let mut places = ArrayVec::new();
    for date in first..first + days as u32 {
        places.push(place_of(date, holidays).unwrap());
    }
    places
}

impl Coefficients {
    // The source of a list of 3,160 coefficients over `days` days from the first date on. With a shorter list, or a
    // horizon that is bad, it covers nothing; further places of a longer list are not read.
    pub fn over(list: &[u16], first: u32, days: usize, holidays: &[u32]) -> Coefficients
        ensures covers { length result.places.items ≡ days_covered list.now first days }
        ensures weighs { (sub t : ℕ) → sub ≤ 7 → t < 48 * length result.places.items → coefficient_weight result.list (day_place result.places.items (t / 48)) sub (t % 48) ≡ calendar_weight list.now holidays.now first sub t }
    {
        if let Some(own) = read_of(list)
            && is_good_horizon(first, days)
        {
            return Coefficients {
                list: *own,
                places: places_of(first, days, holidays),
            };
        }
        Coefficients {
            list: [0; COEFFICIENTS],
            places: ArrayVec::new(),
        }
    }
}

impl ProfileSource for Coefficients {
    ghost covers = { λ s. 48 * length s.places.items };

    ghost weighs = { λ s sub t. coefficient_weight s.list (day_place s.places.items (t / 48)) sub (t % 48) };

    fn covered(&self) -> usize {
        48 * self.places.len()
    }

    fn weight(&self, sub_profile: u8, half_hour: usize) -> Option<u32> {
        if sub_profile > 7 {
            return None;
        }
        let place = self.places.as_slice().get(half_hour / 48)?;
        let base = 395 * usize::from(sub_profile);
        let cs = self.list[base + (usize::from(place.week) - 1)];
        let cj = self.list[base + 52 + (usize::from(place.day) - 1)];
        let ch = self.list[base + 59 + 48 * (usize::from(place.day) - 1) + half_hour % 48];
        Some(weight_of(cs, cj, ch))
    }
}
