// The book of sites: who was served where, on whose account and at what power, and which indexes stand. It is changed by
// six calls only; what it holds after any of them is told by the calls alone (crate book_rules). docs/book.md has the
// rules.
#![tactic(auto)]

mod by_day;
pub mod calls;
pub mod entries;
mod indexes;
mod places;
pub mod questions;
mod rulings;
pub mod setting_up;
mod site;
mod sites;
mod situations;
pub mod store;
