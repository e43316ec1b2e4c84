// The coefficient source: weights by week, day and half-hour of the day. docs/sources.md has the rule.
#![tactic(auto)]

ghost use Rattle.std.specs.Prelude.{ℕ, ◌<◌, length};
ghost use Rattle.coefficients.specs.Weights.{InYear, day_place};

use arrayvec::ArrayVec;
use calendar::Place;

pub mod source;

// The coefficients of the eight sub-profiles, and the place of each day in the profile year: looked up once, when the
// source is made. Both have room in the value itself, so that a source needs no heap and can always be made.
#[derive(Drop)]
pub struct Coefficients {
    list: [u16; 3160],
    places: ArrayVec<Place, 35>,
    ghost placed: { (k : ℕ) → k < length places.items → InYear (day_place places.items k) },
}
