// How the situations of a site begin, end and change.
ghost use Rattle.std.specs.Prelude.{◌≡◌, ℕ, ◌<◌, Some};
ghost use Rattle.book_rules.specs.Telling.{begun};
ghost use Rattle.book.specs.Sites.{on, Starts, Closes, corrected};

use crate::by_day::ByDay;
use book_rules::{Situation, Terms};

impl ByDay<Situation> {
    // A situation starts.
    pub(crate) fn begin(&mut self, day: u8, terms: Terms)
        requires { day < 36 }
        ensures { Starts (on self.old) (on self.new) day (Some (begun terms)) }
    {
        self.put(day, Some(Situation { end: None, terms }));
    }

    // The situation that starts on a day ends on another.
    pub(crate) fn close(&mut self, start: u8, day: u8)
        ensures { Closes (on self.old) (on self.new) start day }
    {
        let ended = self.at(start).map(|situation| Situation {
            end: Some(day),
            ..situation
        });
        self.put(start, ended);
    }

    // The situation that starts on a day gets new terms.
    pub(crate) fn correct(&mut self, day: u8, terms: Terms)
        ensures { (e : ℕ) → on self.new e ≡ corrected day terms (on self.old) e }
    {
        let corrected = self
            .at(day)
            .map(|situation| Situation { terms, ..situation });
        self.put(day, corrected);
    }
}
