// The plain kind: the energy alone.
ghost use Rattle.std.specs.Prelude.{◌≡◌, ◌+◌, pos, ◌+ℤ◌, ◌-ℤ◌, unsigned_abs};
ghost use Rattle.amounts.specs.Told.{told, told_size};
ghost use Rattle.std.proofs.Common.{rules};

use crate::Amount;
use crate::numbers::{added, less, told_of, told_size_of};

// An energy in Wh. Tables of amounts may be filled by anyone, so the number has no bound of its own.
#[derive(Clone, Copy, PartialEq, Eq, Debug)]
pub struct Plain {
    pub wh: i64,
}

impl Amount for Plain {
    type Held = i64;

    ghost holds = { λ x. x.wh };

    ghost nil = { pos 0 };

    ghost piece = { λ e d. pos e };

    ghost joined = { λ x y. x +ℤ y };

    ghost taken = { λ x y. x -ℤ y };

    ghost energy = { told };

    ghost size = { λ x. told_size (unsigned_abs x) };

    ghost joining = { Prim.search rules };

    ghost takingoff = { Prim.search rules };

    fn none() -> Plain {
        Plain { wh: 0 }
    }

    fn of(wh: u32, _dial: u8) -> Plain {
        Plain { wh: i64::from(wh) }
    }

    // As `take_off` but for the operation, which is all that there is to say.
    fn join(self, other: Plain) -> Plain {
        Plain {
            wh: added(self.wh, other.wh),
        }
    }

    fn take_off(self, other: Plain) -> Plain {
        Plain {
            wh: less(self.wh, other.wh),
        }
    }

    fn energy_told(&self) -> i64 {
        told_of(i128::from(self.wh))
    }

    fn size_told(&self) -> u64 {
        told_size_of(u128::from(self.wh.unsigned_abs()))
    }
}
