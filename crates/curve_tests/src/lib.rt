// Tests of curves and usage factors. Expected values were worked out by hand from the rules, not taken from a run.
#![tactic(auto)]

#[cfg(test)]
mod curve_tests;
#[cfg(test)]
mod factor_tests;
#[cfg(test)]
mod refusing_tests;
#[cfg(test)]
mod small_book;
