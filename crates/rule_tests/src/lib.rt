// Tests of the calendar, the profile table, sharing and readings: each a table of cases with the reason why the case is
// there. Expected values were worked out by hand from the rules, not taken from a run.
#![tactic(auto)]

#[cfg(test)]
mod calendar_tests;
#[cfg(test)]
mod profile_tests;
#[cfg(test)]
mod reading_tests;
#[cfg(test)]
mod sharing_tests;
