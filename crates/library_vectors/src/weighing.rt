// The sources of a case, and what their weights come to.
use super::{Bottom, Case};
use coefficients::Coefficients;
use sources::{Flat, ProfileSource};
use std::alloc::{AllocError, Global};
use std::array;
use temperature::TemperatureLayer;

// What is told of the weights of a sub-profile: the first four, the sum of all, and a checksum that knows their places.
#[derive(Clone, Copy, PartialEq, Eq)]
pub(crate) struct Summary {
    pub(crate) first: [u32; 4],
    pub(crate) sum: u64,
    pub(crate) checksum: u64,
}

// The summary of a sub-profile's weights in the source of a case. The sub-profile is a number, as the file tells it.
pub(crate) fn weigh(case: &Case, heap: Global, sub_profile: u8) -> Result<Summary, AllocError> {
    match case.bottom {
        Bottom::Flat { half_hours } => {
            under_layers(case, heap, Flat::over(half_hours), sub_profile)
        }
        Bottom::ByCoefficients { modulus, zeros } => {
            let list = coefficients_of(heap, case.number, modulus, zeros)?;
            let source = Coefficients::over(
                list.as_slice(),
                case.first,
                case.days as usize,
                case.holidays.as_slice(),
            );
            under_layers(case, heap, source, sub_profile)
        }
    }
}

// A case has at most two layers.
fn under_layers<S: ProfileSource + Drop>(
    case: &Case,
    heap: Global,
    source: S,
    sub_profile: u8,
) -> Result<Summary, AllocError> {
    match case.layers.as_slice() {
        [] => Ok(summed_up(&source, sub_profile)),
        [lower] => Ok(summed_up(&layered(case, heap, source, *lower)?, sub_profile)),
        [lower, upper, ..] => {
            let source = layered(case, heap, source, *lower)?;
            Ok(summed_up(&layered(case, heap, source, *upper)?, sub_profile))
        }
    }
}

fn layered<S: ProfileSource + Drop>(
    case: &Case,
    heap: Global,
    below: S,
    layer: (i16, usize),
) -> Result<TemperatureLayer<S>, AllocError> {
    let (threshold, places) = layer;
    let number = u64::from(case.number);
    let gradients: [u16; 8] = array::from_fn(|i| ((291 * i as u64 + 7 * number) % 2001) as u16);
    let normal = temperatures(heap, places, 37, 11 * number)?;
    let measured = temperatures(heap, places, 53, 17 * number)?;
    let mut source = TemperatureLayer::over(below);
    let _ = source.load(
        threshold,
        &gradients,
        normal.as_slice(),
        measured.as_slice(),
    );
    Ok(source)
}

fn temperatures(heap: Global, places: usize, step: u8, start: u64) -> Result<Vec<i16>, AllocError> {
    (0..places)
        .map(|i| {
            let place = i as u128 * u128::from(step) + u128::from(start);
            (place % 1001) as i16 - 500
        })
        .collect(heap)
}

fn coefficients_of(
    heap: Global,
    number: u32,
    modulus: u32,
    zeros: u32,
) -> Result<Vec<u16>, AllocError> {
    let u = u64::from(number);
    (0..3160u64)
        .map(|i| {
            if zeros > 0 && (i + u) % u64::from(zeros) == 0 {
                return 0;
            }
            let value = 200 + (7919 * i + 104_729 * u) % u64::from(modulus).max(1);
            u16::try_from(value).unwrap_or(u16::MAX)
        })
        .collect(heap)
}

fn summed_up<S: ProfileSource>(source: &S, sub_profile: u8) -> Summary {
    // a `for`, since it makes two sums at once
    let mut sum: u64 = 0;
    let mut checksum: u64 = 0;
    let weights = (0..1680usize).map_while(|t| source.weight(sub_profile, t));
    for (place, weight) in (1u64..).zip(weights) {
        let weight = u64::from(weight);
        sum = sum.saturating_add(weight);
        checksum = checksum.saturating_add(place.saturating_mul(weight)) % 1_000_000_007;
    }
    Summary {
        first: array::from_fn(|t| source.weight(sub_profile, t).unwrap_or(0)),
        sum,
        checksum,
    }
}
