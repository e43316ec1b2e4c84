// The temperature layer: a source over any other, whose weights follow the temperature. docs/sources.md has the rule.
#![tactic(auto)]

pub mod layer;
mod loading;

// What the layer holds: for each half-hour the normal and the measured temperature in tenths of a degree, the heating
// threshold, and for each sub-profile a gradient in ten-thousandths per degree. The arrays are of fixed length, so that a
// layer needs no heap and no load can fail for memory. `normal` and `measured` are two lists and no list of pairs: so they
// are loaded, by a rule of the project.
#[derive(Drop)]
pub struct Temperatures {
    normal: [i16; 1680],
    measured: [i16; 1680],
    threshold: i16,
    gradients: [u16; 8],
}

// A layer over the source below it, which it holds.
#[derive(Drop)]
pub struct TemperatureLayer<S> {
    below: S,
    held: Temperatures,
}
