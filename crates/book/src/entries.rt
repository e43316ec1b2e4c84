// The six calls by name. Their parameters are fixed by the rules; what is behind them takes them together, as a Call.
ghost use Rattle.book_rules.specs.declared.Call.TheVariants.{Open, Modify, End, Correct, Enter, Strike};
ghost use Rattle.book.specs.Books.{Made};

use crate::store::Book;
use book_rules::{Call, Terms};
use refusals::Refusal;

impl Book {
    // A situation starts at a site that was never served or has ended by that day.
    pub fn open(&mut self, site: u16, day: u8, terms: Terms) -> Result<(), Refusal>
        ensures { Made self.old (Open site day terms) result self.new }
    {
        self.make(Call::Open { site, day, terms })
    }

    // The running situation ends on that day and a new one starts.
    pub fn modify(&mut self, site: u16, day: u8, terms: Terms) -> Result<(), Refusal>
        ensures { Made self.old (Modify site day terms) result self.new }
    {
        self.make(Call::Modify { site, day, terms })
    }

    // The running situation ends on that day; or the end of the last one moves back to it.
    pub fn end(&mut self, site: u16, day: u8) -> Result<(), Refusal>
        ensures { Made self.old (End site day) result self.new }
    {
        self.make(Call::End { site, day })
    }

    // The situation that starts on that day gets other terms.
    pub fn correct(&mut self, site: u16, day: u8, terms: Terms) -> Result<(), Refusal>
        ensures { Made self.old (Correct site day terms) result self.new }
    {
        self.make(Call::Correct { site, day, terms })
    }

    // An index of a dial stands at the start of that day.
    pub fn enter(&mut self, site: u16, dial: u8, day: u8, value: u32) -> Result<(), Refusal>
        ensures { Made self.old (Enter site dial day value) result self.new }
    {
        self.make(Call::Enter {
            site,
            dial,
            day,
            value,
        })
    }

    // The index of a dial on that day goes, and its place is free.
    pub fn strike(&mut self, site: u16, dial: u8, day: u8) -> Result<(), Refusal>
        ensures { Made self.old (Strike site dial day) result self.new }
    {
        self.make(Call::Strike { site, dial, day })
    }
}
