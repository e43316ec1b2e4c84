// Why a call is refused, if it is: the tests in the order of their numbers, on the unchanged book.
ghost use Rattle.std.specs.Prelude.{◌≡◌, not, [], ◌∷◌, is_ok, is_some, nat_le, nat_lt};
ghost use Rattle.profiles.specs.Table.{profile_of};
ghost use Rattle.book_rules.specs.Tests.{first, tests, of_terms, beyond, crossed, standing_by, opened_running, not_served, unfit_day};
ghost use Rattle.book.specs.Sites.{on, starting};
ghost use Rattle.book.specs.Books.{setup, contents, answered};

use crate::by_day::ByDay;
use crate::site::Site;
use crate::store::Book;
use book_rules::{Call, Index, Standing};
use profiles::{Dial, Profile};
use refusals::Refusal;

// What speaks against a call in how the site stands.
fn contradiction(standing: Standing, call: Call) -> Result<(), Refusal>
    ensures { answered result ≡ first ((7, opened_running standing call) ∷ (8, not_served standing call) ∷ (9, unfit_day standing call) ∷ []) }
{
    match (standing, call) {
        (Standing::Running(_), Call::Open { .. }) => Err(Refusal::AlreadyRunning),
        (Standing::Ended { end, .. }, Call::Open { day, .. }) if day < end => Err(
            Refusal::DayNotAllowed,
        ),
        (Standing::Never | Standing::Ended { .. }, Call::Modify { .. }) => Err(Refusal::NotServed),
        (Standing::Running(start), Call::Modify { day, .. }) if day <= start => Err(
            Refusal::DayNotAllowed,
        ),
        (Standing::Never, Call::End { .. }) => Err(Refusal::NotServed),
        (Standing::Running(start), Call::End { day, .. }) if day <= start => Err(
            Refusal::DayNotAllowed,
        ),
        (Standing::Ended { start, end }, Call::End { day, .. }) if day <= start || day >= end =>
            Err(Refusal::DayNotAllowed),
        _ => Ok(()),
    }
}

impl Site {
    // What is asked of how the site stands, by the calls for which that matters: for the others it is not looked up.
    fn allow_standing(&self, call: Call) -> Result<(), Refusal>
        ensures { answered result ≡ first ((7, opened_running (standing_by (starting self.now) 36) call) ∷ (8, not_served (standing_by (starting self.now) 36) call) ∷ (9, unfit_day (standing_by (starting self.now) 36) call) ∷ []) }
    {
        match call {
            Call::Open { .. } | Call::Modify { .. } | Call::End { .. } => {
                contradiction(self.standing(), call)
            }
            Call::Correct { .. } | Call::Enter { .. } | Call::Strike { .. } => Ok(()),
        }
    }
}

impl Book {
    // What is asked of the day of every call, and of the terms of a call that has terms.
    fn allow_terms(&self, call: Call) -> Result<(), Refusal>
        ensures { answered result ≡ first ((4, of_terms (λ t. nat_le self.now.parties t.party) call) ∷ (5, beyond (setup self.now) call) ∷ (6, of_terms (λ t. not (is_ok (profile_of t.class t.power))) call) ∷ []) }
    {
        match call {
            Call::Open { day, terms, .. }
            | Call::Modify { day, terms, .. }
            | Call::Correct { day, terms, .. } => {
                if terms.party >= self.parties {
                    return Err(Refusal::UnknownParty);
                }
                if day >= self.days {
                    return Err(Refusal::DayOutOfRange);
                }
                Profile::of(terms.class, terms.power)?;
            }
            Call::End { day, .. } | Call::Enter { day, .. } | Call::Strike { day, .. } => {
                if day > self.days {
                    return Err(Refusal::DayOutOfRange);
                }
            }
        }
        Ok(())
    }

    // What is asked of an index that is to stand among those of its dial.
    fn allow_index(&self, indexes: &ByDay<Index>, day: u8, value: u32) -> Result<(), Refusal>
        ensures { answered result ≡ first ((13, nat_lt 999999999 value) ∷ (14, is_some (on indexes.now day)) ∷ (15, crossed (on indexes.now) day value 36) ∷ (16, nat_le self.now.indexes.most self.now.indexes.taken) ∷ []) }
    {
        if value > 999_999_999 {
            return Err(Refusal::IndexTooLarge);
        }
        if indexes.at(day).is_some() {
            return Err(Refusal::IndexAlreadyStands);
        }
        if indexes.is_out_of_order(day, value) {
            return Err(Refusal::IndexOutOfOrder);
        }
        if self.indexes.are_full() {
            return Err(Refusal::IndexesFull);
        }
        Ok(())
    }

    // The first test of a call that holds refuses it.
    pub(crate) fn allow(&self, call: Call) -> Result<(), Refusal>
        ensures { answered result ≡ first (tests 36 (setup self.now) (contents self.now) call) }
    {
        let site = self.site(call.site()).ok_or(Refusal::UnknownSite)?;
        self.allow_terms(call)?;
        site.allow_standing(call)?;
        match call {
            Call::Correct { day, .. } if site.situations.at(day).is_none() => Err(
                Refusal::NoSituation,
            ),
            Call::Open { .. } | Call::Modify { .. } if self.situations.are_full() => Err(
                Refusal::SituationsFull,
            ),
            Call::Enter {
                dial,
                day,
                value,
                ..
            } => { self.allow_index(site.dial(Dial::try_from(dial)?), day, value) }
            Call::Strike { dial, day, .. } => {
                site.dial(Dial::try_from(dial)?)
                    .at(day)
                    .ok_or(Refusal::NoIndex)?;
                Ok(())
            }
            _ => Ok(()),
        }
    }
}
