// What is read off a site and what is put into it. The book has ruled on the call; nothing here refuses.
ghost use Rattle.std.specs.Prelude.{◌≡◌, ℕ, ◌<◌, false, Ok};
ghost use Rattle.profiles.specs.Table.{dial_of};
ghost use Rattle.book_rules.specs.Tests.{standing_on, standing_by, not_served};
ghost use Rattle.book.specs.Sites.{starting, standing_index, NoEntries, StandsAt, SameStarts, Serves, IsKept, after, dial_days};

use crate::by_day::ByDay;
use crate::site::Site;
use book_rules::{Call, Index, Situation, Standing};
use profiles::Dial;

// How a site stands once a situation that starts on day b is looked at.
fn stands_on(standing: Standing, b: u8, situation: Option<Situation>) -> Standing
    ensures { result ≡ standing_on standing b situation }
{
    match situation {
        None => standing,
        Some(Situation { end: None, .. }) => Standing::Running(b),
        Some(Situation { end: Some(end), .. }) => Standing::Ended { start: b, end },
    }
}

impl Site {
    pub(crate) fn new() -> Site
        ensures { NoEntries result }
    {
        Site {
            situations: ByDay::new(),
            first: ByDay::new(),
            second: ByDay::new(),
        }
    }

    pub(crate) fn standing(&self) -> Standing
        ensures { result ≡ standing_by (starting self.now) 36 }
    {
        (0..36u8).fold(Standing::Never, |standing, b| {
            stands_on(standing, b, self.situations.at(b))
        })
    }

    // The indexes of a dial.
    pub(crate) fn dial(&self, dial: Dial) -> &ByDay<Index>
        ensures { result.now ≡ dial_days self.now dial }
    {
        match dial {
            Dial::First => &self.first,
            Dial::Second => &self.second,
        }
    }

    // Puts an index of a dial on a day, or takes it off.
    fn put_index(&mut self, dial: Dial, day: u8, index: Option<Index>)
        requires { day < 36 }
        ensures put { (k : ℕ) → Ok dial ≡ dial_of k → StandsAt self.old self.new k day index }
        ensures same { SameStarts self.old self.new }
    {
        match dial {
            Dial::First => self.first.put(day, index),
            Dial::Second => self.second.put(day, index),
        }
    }

    // Does what a call does to the situations, by how the site stands, in place. A call that wants the site served comes
    // only where it is.
    fn situate(&mut self, call: Call)
        requires kept { IsKept call }
        requires served { not_served (standing_by (starting self.old) 36) call ≡ false }
        ensures situations { (e : ℕ) → starting self.new e ≡ after (standing_by (starting self.old) 36) call (starting self.old) e }
        ensures indexes { (b e : ℕ) → standing_index self.new b e ≡ standing_index self.old b e }
    {
        match (self.standing(), call) {
            (_, Call::Open { day, terms, .. }) => self.situations.begin(day, terms),
            (Standing::Running(start), Call::Modify { day, terms, .. }) => {
                self.situations.close(start, day);
                self.situations.begin(day, terms);
            }
            (Standing::Running(start) | Standing::Ended { start, .. }, Call::End { day, .. }) =>
                self.situations.close(start, day),
            (_, Call::Correct { day, terms, .. }) => self.situations.correct(day, terms),
            // a call of the indexes, which changes no situation
            (_, Call::Enter { .. } | Call::Strike { .. }) => {}
            _ => unreachable!(),
        }
    }

    // Does what a call does. How the site stands is looked up only for a call of the situations.
    pub(crate) fn serve(&mut self, call: Call)
        requires kept { IsKept call }
        requires served { not_served (standing_by (starting self.old) 36) call ≡ false }
        ensures { Serves self.old self.new call }
    {
        match call {
            Call::Enter {
                dial,
                day,
                value,
                ..
            } => self.put_index(Dial::try_from(dial).unwrap(), day, Some(Index { value })),
            Call::Strike { dial, day, .. } => self.put_index(
                Dial::try_from(dial).unwrap(),
                day,
                None,
            ),
            Call::Open { .. } | Call::Modify { .. } | Call::End { .. } | Call::Correct { .. } => {
                self.situate(call)
            }
        }
    }
}
