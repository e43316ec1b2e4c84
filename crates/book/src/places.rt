// Places: how many there are, and how many are taken.
ghost use Rattle.std.specs.Prelude.{◌≡◌, ◌+◌, ◌-◌, ◌<◌, ◌≤◌, nat_le};

#[derive(Drop)]
pub(crate) struct Places {
    most: usize,
    taken: usize,
    ghost within: { taken ≤ most },
}

impl Places {
    // So many places, all free.
    pub(crate) fn new(most: usize) -> Places
        ensures most { result.most ≡ most }
        ensures taken { result.taken ≡ 0 }
    {
        Places { most, taken: 0 }
    }

    pub(crate) fn free(&self) -> usize
        ensures { result ≡ self.now.most - self.now.taken }
    {
        self.most - self.taken
    }

    pub(crate) fn are_full(&self) -> bool
        ensures { result ≡ nat_le self.now.most self.now.taken }
    {
        self.free() == 0
    }

    // Takes a place that is free. It counts by itself, since places are taken by calls and in no loop.
    pub(crate) fn take(&mut self)
        requires { self.old.taken < self.old.most }
        ensures most { self.new.most ≡ self.old.most }
        ensures taken { self.new.taken ≡ self.old.taken + 1 }
    {
        self.taken += 1;
    }

    // Frees a place: one less is taken, as the rules have it, and none stays none.
    pub(crate) fn give_back(&mut self)
        ensures most { self.new.most ≡ self.old.most }
        ensures taken { self.new.taken ≡ self.old.taken - 1 }
    {
        self.taken = self.taken.saturating_sub(1);
    }
}
