// What is kept of a site: its situations by start day, and the indexes of its two dials by day.
use crate::by_day::ByDay;
use book_rules::{Index, Situation};

#[derive(Drop)]
pub(crate) struct Site {
    pub(crate) situations: ByDay<Situation>,
    pub(crate) first: ByDay<Index>,
    pub(crate) second: ByDay<Index>,
}
