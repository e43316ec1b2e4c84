// Finding the spans of a dial.
ghost use Rattle.std.specs.Prelude.{◌≡◌};
ghost use Rattle.book.specs.Books.{setup};
ghost use Rattle.spans.specs.Finding.{indexes_of, ending, Begins, HoldingDay, DaysTold, WithinDays, RunsPast, seen_with, two_of};

use crate::{DialSpan, SiteDial};

// The days of the first and the last index that were seen, with one more day looked at.
fn seen_by(day: u8, index: Option<u32>, seen: Option<(u8, u8)>) -> Option<(u8, u8)>
    ensures { result ≡ seen_with day index seen }
{
    match (index, seen) {
        (None, _) => seen,
        (Some(_), None) => Some((day, day)),
        (Some(_), Some((first, _))) => Some((first, day)),
    }
}

// The days, if they are two.
fn apart(seen: Option<(u8, u8)>) -> Option<(u8, u8)>
    ensures { result ≡ two_of seen }
{
    seen.filter(|(first, last)| first < last)
}

impl SiteDial<'_> {
    // The value of the index on a day, if one stands there that bounds spans.
    fn bound_on(&self, day: u8) -> Option<u32>
        ensures { result ≡ indexes_of self.now day }
    {
        let index = self.book.index_standing(self.site, self.dial, day)?;
        Some(index.value)
    }

    // The span from a day, with its index there, to another day, if an index stands on that.
    fn span_to(&self, from: u8, first: u32, to: u8) -> Option<DialSpan>
        ensures { result ≡ ending (indexes_of self.now to) from first to }
    {
        let last = self.bound_on(to)?;
        Some(DialSpan {
            from,
            to,
            energy: last.saturating_sub(first),
        })
    }

    // The span that begins on a day: from the index of that day to the next one, if both stand.
    #[inline(always)]
    pub fn span_beginning(&self, day: u8) -> Option<DialSpan>
        ensures { Begins (indexes_of self.now) (setup self.now.book.now).days day result }
    {
        if day >= self.book.days() {
            return None;
        }
        let first = self.bound_on(day)?;
        (day + 1..self.book.days() + 1).find_map(|to| self.span_to(day, first, to))
    }

    // The span that begins on a day, if it runs past another.
    #[tactic(auto, unfolding(crate::specs::Finding::RunsPast))]
    fn span_past(&self, first: u8, day: u8) -> Option<DialSpan>
        ensures { RunsPast (indexes_of self.now) (setup self.now.book.now).days day first result }
    {
        self.span_beginning(first).filter(|span| span.to > day)
    }

    // The span around a day: the one of whose days that is one.
    pub fn span_around(&self, day: u8) -> Option<DialSpan>
        ensures { HoldingDay (indexes_of self.now) (setup self.now.book.now).days day result }
    {
        if day >= self.book.days() {
            return None;
        }
        (0..day + 1).find_map(|first| self.span_past(first, day))
    }

    // The days of the first and the last index; none where fewer than two stand.
    pub fn index_days(&self) -> Option<(u8, u8)>
        ensures { WithinDays (indexes_of self.now) (setup self.now.book.now).days → DaysTold (indexes_of self.now) result }
    {
        let seen = (0..self.book.days() + 1).fold(
            None,
            |seen, day| seen_by(day, self.bound_on(day), seen),
        );
        apart(seen)
    }
}
