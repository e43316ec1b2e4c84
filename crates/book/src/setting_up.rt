// Setting up a book: all its memory is had here, so that no later call can fail for want of it.
ghost use Rattle.std.specs.Prelude.{◌≡◌, IfOk, vec_len};
ghost use Rattle.book.specs.Books.{within_bounds, SetUpAnswer, AllEmpty};

use crate::places::Places;
use crate::site::Site;
use crate::store::Book;
use book_rules::{SetUp, SetUpError};
use refusals::Refusal;
use std::alloc::{AllocError, Global};

// Whether days, dates, parties and sites lie in their bounds.
fn is_within_bounds(set_up: SetUp) -> bool
    ensures { result ≡ within_bounds set_up }
{
    (1..=35).contains(&set_up.days)
        && u64::from(set_up.first) + u64::from(set_up.days) <= 36_159
        && (1..=16).contains(&set_up.parties)
        && (1..=256).contains(&set_up.sites)
}

// So many sites that keep nothing.
fn empty_sites(heap: Global, count: u16) -> Result<Vec<Site>, AllocError>
    ensures { IfOk result (λ v. (vec_len v ≡ count) × AllEmpty v.items) }
{
    // Room for so many and no more, which `collect` does not give; of what `extend` adds, what each
    // site is stays open in the proof.
    let mut sites = Vec::with_capacity(heap, usize::from(count))?;
    for _ in 0..count {
        sites.push(Site::new())?;
    }
    Ok(sites)
}

impl Book {
    pub fn new(heap: Global, set_up: SetUp) -> Result<Book, SetUpError>
        ensures { SetUpAnswer set_up result }
    {
        if !is_within_bounds(set_up) {
            return Err(Refusal::SetupOutOfBounds.into());
        }
        let sites = empty_sites(heap, set_up.sites)?;
        Ok(Book {
            sites,
            parties: set_up.parties,
            days: set_up.days,
            situations: Places::new(set_up.situation_places.min(1_024)),
            indexes: Places::new(set_up.index_places.min(8_192)),
        })
    }
}
