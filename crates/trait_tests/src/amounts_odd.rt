// A kind that joins to nonsense past the bound, makes nonsense of pieces outside their domain, and stores a mark that is
// no part of what it holds.
ghost use Rattle.std.specs.Prelude.{◌≡◌, ℕ, ◌+◌, ◌^◌, ◌≤◌, ℤ, pos, unsigned_abs};
ghost use Rattle.trait_tests.specs.Odds.{odd_joined, odd_taken};
ghost use Rattle.std.proofs.Common.{rules};

use amounts::Amount;

#[derive(Clone, Copy)]
struct Odd {
    wh: i64,
    mark: i64,
}

impl Odd {
    // These Wh within the bound, and nonsense past it.
    fn within(self, other: Odd, wh: i64) -> Odd
        ensures { unsigned_abs self.wh + unsigned_abs other.wh ≤ 10 ^ 15 → result.wh ≡ wh }
    {
        if u128::from(self.wh.unsigned_abs()) + u128::from(other.wh.unsigned_abs())
            > 1_000_000_000_000_000
        {
            return Odd {
                wh: self.mark,
                mark: other.wh,
            };
        }
        Odd {
            wh,
            mark: other.mark,
        }
    }
}

impl Amount for Odd {
    type Held = i64;

    ghost holds = { λ x. x.wh };

    ghost nil = { pos 0 };

    ghost piece = { λ e d. pos e };

    ghost joined = { odd_joined };

    ghost taken = { odd_taken };

    ghost energy = { λ x. x };

    ghost size = { unsigned_abs };

    ghost joining = { Prim.search rules };

    ghost takingoff = { Prim.search rules };

    fn none() -> Odd {
        Odd { wh: 0, mark: 5 }
    }

    fn of(wh: u32, dial: u8) -> Odd {
        if wh > 999_999_999 || dial == 0 {
            return Odd { wh: -1, mark: 0 };
        }
        Odd {
            wh: i64::from(wh),
            mark: i64::from(dial),
        }
    }

    fn join(self, other: Odd) -> Odd {
        self.within(other, self.wh.saturating_add(other.wh))
    }

    fn take_off(self, other: Odd) -> Odd {
        self.within(other, self.wh.saturating_sub(other.wh))
    }

    fn energy_told(&self) -> i64 {
        self.wh
    }

    fn size_told(&self) -> u64 {
        self.wh.unsigned_abs()
    }
}

#[cfg(test)]
mod tests {
    use super::*;

    // Three pieces joined and one taken off again, for any kind.
    fn three_less_one<K: Amount + Drop>() -> i64 {
        let two = K::of(7, 1).join(K::of(0, 2));
        two.join(K::of(5, 2))
            .take_off(K::of(5, 2))
            .join(K::none())
            .energy_told()
    }

    #[test]
    fn odd_kind_in_generic_code(rt: HostRuntime) {
        assert_eq!(rt; three_less_one::<Odd>(), 7);
    }
}
