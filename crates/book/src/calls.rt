// The calls.
ghost use Rattle.std.specs.Prelude.{◌≡◌, None};
ghost use Rattle.book_rules.specs.Refusing.{Rules};
ghost use Rattle.book_rules.specs.Telling.{Acts};
ghost use Rattle.book.specs.Books.{setup, contents, ruled, Made};

use crate::store::Book;
use book_rules::Call;
use refusals::Refusal;

impl Book {
    // Why a call is refused, if it is: the upper refusal that applies to it. It answers an Option, not a Result: this is a
    // question, and its answer is no failure.
    pub fn ruling(&self, call: Call) -> Option<Refusal>
        ensures { Rules (setup self.now) (contents self.now) call (ruled result) }
    {
        self.allow(call).err()
    }

    // Does a call that is not refused.
    fn act(&mut self, call: Call)
        requires { Rules (setup self.old) (contents self.old) call None }
        ensures same { setup self.new ≡ setup self.old }
        ensures acts { Acts (contents self.old) (contents self.new) call }
    {
        self.sites[usize::from(call.site())].serve(call);
        match call {
            Call::Open { .. } | Call::Modify { .. } => self.situations.take(),
            Call::Enter { .. } => self.indexes.take(),
            Call::Strike { .. } => self.indexes.give_back(),
            Call::End { .. } | Call::Correct { .. } => {}
        }
    }

    // Makes a call: the upper refusal that applies, and then all stays as it was, or what the call does.
    pub fn make(&mut self, call: Call) -> Result<(), Refusal>
        ensures { Made self.old call result self.new }
    {
        self.allow(call)?;
        self.act(call);
        Ok(())
    }
}
