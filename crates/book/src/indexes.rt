// When an index of a dial is out of order.
ghost use Rattle.std.specs.Prelude.{◌≡◌};
ghost use Rattle.book_rules.specs.Tests.{against, crossed};
ghost use Rattle.book.specs.Sites.{on};

use crate::by_day::ByDay;
use book_rules::Index;

// Whether the index of day e contradicts a value on another day.
fn contradicts(day: u8, value: u32, e: u8, index: Option<Index>) -> bool
    ensures { result ≡ against day value e index }
{
    index.is_some_and(|index| e < day && value < index.value || day < e && index.value < value)
}

impl ByDay<Index> {
    // Whether a value lies below an earlier or above a later index.
    pub(crate) fn is_out_of_order(&self, day: u8, value: u32) -> bool
        ensures { result ≡ crossed (on self.now) day value 36 }
    {
        (0..36u8).any(|e| contradicts(day, value, e, self.at(e)))
    }
}
