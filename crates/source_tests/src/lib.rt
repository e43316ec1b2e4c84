// Tests of profile sources, kinds of amount, threshold sets and usage factors. Expected values were worked out by hand
// from the rules.
#![tactic(auto)]

#[cfg(test)]
mod amount_tests;
#[cfg(test)]
mod coefficient_tests;
#[cfg(test)]
mod factor_tests;
#[cfg(test)]
mod temperature_tests;
