// The span between two neighbouring readings of a dial.
ghost use Rattle.std.specs.Prelude.{◌≡◌, ◌+◌, ◌-◌, ◌<◌, ◌≤◌};

use crate::Reading;

pub mod curves;

// Two readings, the later at most 35 days after the earlier, with an index that has not fallen.
#[derive(Clone, Copy)]
pub struct Span {
    first: Reading,
    last: Reading,
    ghost forward: { first.date < last.date },
    ghost days: { last.date - first.date ≤ 35 },
    ghost rising: { first.index ≤ last.index },
    ghost bounded: { last.index ≤ 999999999 },
}
