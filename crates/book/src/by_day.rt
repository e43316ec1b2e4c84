// Something on each of the days 0 to 35, or nothing. Of later days there is nothing, and nothing is put there. There is a
// place for each day from set-up on, so that no call needs memory.
ghost use Rattle.std.specs.Prelude.{◌≡◌, ℕ, ◌<◌, ◌&&◌, length, replicate, if◌then◌else◌, None, nat_eq, nat_lt, slice_index_or};

#[derive(Drop)]
pub(crate) struct ByDay<K> {
    days: [Option<K>; 36],
    ghost long: { length days ≡ 36 },
}

impl<K: Copy> ByDay<K> {
    pub(crate) fn new() -> ByDay<K>
        ensures { result.days ≡ replicate 36 None }
    {
        ByDay { days: [None; 36] }
    }

    pub(crate) fn at(&self, day: u8) -> Option<K>
        ensures { result ≡ slice_index_or self.now.days day None }
    {
        *self.days.get(usize::from(day))?
    }

    // Past day 35 it puts nothing by definition, as the clause says; it gives up no call.
    pub(crate) fn put(&mut self, day: u8, x: Option<K>)
        ensures { (e : ℕ) → slice_index_or self.new.days e None ≡ (if nat_eq day e && nat_lt day 36 then x else slice_index_or self.old.days e None) }
    {
        if day < 36 {
            self.days[usize::from(day)] = x;
        }
    }
}
