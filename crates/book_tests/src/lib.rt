// Tests of the book. Expected answers were worked out by hand from the rules.
#![tactic(auto)]

#[cfg(test)]
mod acting_tests;
#[cfg(test)]
mod pair_tests;
#[cfg(test)]
mod prepared_book;
#[cfg(test)]
mod refusing_tests;
#[cfg(test)]
mod set_up_tests;
