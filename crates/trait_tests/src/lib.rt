// Odd sources and an odd kind of amount, which show that the two traits shut out nothing that their meaning allows.
#![tactic(auto)]

mod amounts_odd;
mod sources_odd;
