// Questions to a book. They change nothing and are never refused.
ghost use Rattle.std.specs.Prelude.{◌≡◌, ◌<◌, ◌≤◌, MatchOption, is_some, slice_index_or, true, vec_len};
ghost use Rattle.book.specs.Sites.{starting, service_of, Serving, NoEntries};
ghost use Rattle.book.specs.Books.{setup, contents, StandsSo, left_of, no_site};

use crate::site::Site;
use crate::store::Book;
use book_rules::{Index, Service, Situation, Standing};
use profiles::Dial;

// The situation, if there is one and it covers the day.
fn service_on(start: u8, situation: Option<Situation>, day: u8) -> Option<Service>
    ensures { result ≡ service_of start situation day }
{
    let situation = situation?;
    let is_covered = start <= day && situation.end.is_none_or(|end| day < end);
    is_covered.then_some(Service { start, situation })
}

impl Site {
    fn service(&self, day: u8) -> Option<Service>
        ensures { Serving (starting self.now) day result }
    {
        (0..36u8).find_map(|start| service_on(start, self.situations.at(start), day))
    }
}

impl Book {
    // A site, if the book has it.
    pub(crate) fn site(&self, site: u16) -> Option<&Site>
        ensures { MatchOption result ((vec_len self.now.sites ≤ site) × NoEntries (slice_index_or self.now.sites.items site no_site)) (λ x. (site < vec_len self.now.sites) × (x.now ≡ slice_index_or self.now.sites.items site no_site)) }
    {
        self.sites.get(usize::from(site))
    }

    // How many days, balance parties and sites the book has.
    pub fn days(&self) -> u8
        ensures value { result ≡ (setup self.now).days }
        ensures bound { result ≤ 35 }
    {
        self.days
    }

    pub fn parties(&self) -> u8
        ensures value { result ≡ (setup self.now).parties }
        ensures bound { result ≤ 16 }
    {
        self.parties
    }

    pub fn sites(&self) -> u16
        ensures value { result ≡ (setup self.now).sites }
        ensures bound { result ≤ 256 }
    {
        self.sites.len() as u16
    }

    // How a site stands: never served, running, or ended. None for a site that the book has not.
    pub fn standing_of(&self, site: u16) -> Option<Standing>
        ensures { StandsSo self.now site result }
    {
        Some(self.site(site)?.standing())
    }

    // The situation of a site that covers a day. None if none does, and for a site that the book has not.
    pub fn service_of(&self, site: u16, day: u8) -> Option<Service>
        ensures { Serving ((contents self.now).situation site) day result }
    {
        self.site(site)?.service(day)
    }

    // The situation of a site that starts on a day, if there is one.
    pub fn situation_starting(&self, site: u16, day: u8) -> Option<Situation>
        ensures { result ≡ (contents self.now).situation site day }
    {
        self.site(site)?.situations.at(day)
    }

    // The index of a site's dial that stands on a day, if there is one. Site, dial and day are any numbers, as in the calls.
    pub fn index_standing(&self, site: u16, dial: u8, day: u8) -> Option<Index>
        ensures { result ≡ (contents self.now).index site dial day }
    {
        self.site(site)?.dial(Dial::try_from(dial).ok()?).at(day)
    }

    // How many places for situations are free. There is always an answer, since no more are taken than there are.
    pub fn free_situation_places(&self) -> Option<usize>
        ensures left { result ≡ left_of (setup self.now).situation_places (contents self.now).situations }
        ensures told { is_some result ≡ true }
    {
        Some(self.situations.free())
    }

    // How many places for indexes are free. There is always an answer, since no more are taken than there are.
    pub fn free_index_places(&self) -> Option<usize>
        ensures left { result ≡ left_of (setup self.now).index_places (contents self.now).indexes }
        ensures told { is_some result ≡ true }
    {
        Some(self.indexes.free())
    }
}
