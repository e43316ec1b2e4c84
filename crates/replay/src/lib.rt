// A book replayed: set up, and a list of calls made in turn, past the refused ones. docs/book.md has the rules.
#![tactic(auto)]

ghost use Rattle.std.specs.Prelude.{◌≡◌};
ghost use Rattle.replay.specs.Replaying.{Replayed};

use book::store::Book;
use book_rules::{Call, SetUp, SetUpError};
use refusals::Refusal;
use std::alloc::Global;

// The book after the calls, and the answer to each.
#[derive(Drop)]
pub struct ReplayedBook {
    pub book: Book,
    pub answers: Vec<Result<(), Refusal>>,
}

pub fn replayed(heap: Global, set_up: SetUp, calls: &[Call]) -> Result<ReplayedBook, SetUpError>
    ensures { Replayed set_up calls.now result }
{
    let mut book = Book::new(heap, set_up)?;
    let mut answers = Vec::with_capacity(heap, calls.len())?;
    // As a chain it does not prove: of a closure that changes the book it captures, no answer is known afterwards.
    for call in calls {
        answers.push(book.make(*call))?;
    }
    Ok(ReplayedBook { book, answers })
}
