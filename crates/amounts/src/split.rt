// The split kind: the energies of dials 1 and 2, and the number of pieces.
ghost use Rattle.std.specs.Prelude.{◌≡◌, pos, ◌+ℤ◌, refl};
ghost use Rattle.std.proofs.Common.{ap, ◌∙◌, arith};
ghost use Rattle.std.proofs.Math.IntN.{+ℤ_comm, +ℤ_assoc};
ghost use Rattle.amounts.specs.Kinds.{split, split_piece, split_joined, split_taken, split_energy, split_size};
ghost use Rattle.std.proofs.lemmas.Bool.Decides.{nat_tests};
ghost use Rattle.amounts.specs.Told.{told};
ghost use Rattle.amounts.specs.Sums.{told_abs, abs_add, mix_add, zero_add, told_add, abs_sub, mix_sub, add_sub, sub_add, told_sub};
ghost use Rattle.amounts.specs.SplitAmountLemmas.{same};

use crate::Amount;
use crate::numbers::{added, less, told_of, told_size_of, wide_sum};

// Energies in Wh and a count. Tables of amounts may be filled by anyone, so the numbers have no bounds of their own.
#[derive(Clone, Copy, PartialEq, Eq, Debug)]
pub struct Split {
    pub first: i64,
    pub second: i64,
    pub pieces: i64,
}

impl Amount for Split {
    type Held = Split;

    ghost holds = { λ x. x };

    ghost nil = { split (pos 0) (pos 0) (pos 0) };

    ghost piece = { split_piece };

    ghost joined = { split_joined };

    ghost taken = { split_taken };

    ghost energy = { split_energy };

    ghost size = { split_size };

    ghost joining = { record {
      commutes = λ x y h. same (+ℤ_comm x.first y.first) (+ℤ_comm x.second y.second) (+ℤ_comm x.pieces y.pieces);
      associates = λ x y z h k m n. same (+ℤ_assoc x.first y.first z.first) (+ℤ_assoc x.second y.second z.second) (+ℤ_assoc x.pieces y.pieces z.pieces);
      neutral = λ x h. same (zero_add x.first) (zero_add x.second) (zero_add x.pieces);
      nil_energy = refl;
      piece_energy = λ e d h k m. Prim.grind (arith, nat_tests);
      joined_energy = λ x y h. ap told (mix_add x.first x.second y.first y.second) ∙ told_add (x.first +ℤ x.second) (y.first +ℤ y.second) (omega (arith, abs_add x.first x.second, abs_add y.first y.second));
      covers = λ x. omega (arith, told_abs (x.first +ℤ x.second), abs_add x.first x.second);
      nil_size = refl;
      piece_size = λ e d h k m. Prim.grind (arith, nat_tests);
      joined_size = λ x y h. omega (arith, abs_add x.first y.first, abs_add x.second y.second, abs_add x.pieces y.pieces);
    } };

    ghost takingoff = { record {
      undone = λ x y h k. same (add_sub x.first y.first) (add_sub x.second y.second) (add_sub x.pieces y.pieces);
      redone = λ x y h k. same (sub_add x.first y.first) (sub_add x.second y.second) (sub_add x.pieces y.pieces);
      taken_energy = λ x y h. ap told (mix_sub x.first x.second y.first y.second) ∙ told_sub (x.first +ℤ x.second) (y.first +ℤ y.second) (omega (arith, abs_add x.first x.second, abs_add y.first y.second));
      taken_size = λ x y h. omega (arith, abs_sub x.first y.first, abs_sub x.second y.second, abs_sub x.pieces y.pieces);
    } };

    fn none() -> Split {
        Split {
            first: 0,
            second: 0,
            pieces: 0,
        }
    }

    fn of(wh: u32, dial: u8) -> Split {
        let wh = i64::from(wh);
        let (first, second) = if dial == 1 { (wh, 0) } else { (0, wh) };
        Split {
            first,
            second,
            pieces: 1,
        }
    }

    // As `take_off` but for the operation: one function over it would take a closure, and a line for each field all the same.
    fn join(self, other: Split) -> Split {
        Split {
            first: added(self.first, other.first),
            second: added(self.second, other.second),
            pieces: added(self.pieces, other.pieces),
        }
    }

    fn take_off(self, other: Split) -> Split {
        Split {
            first: less(self.first, other.first),
            second: less(self.second, other.second),
            pieces: less(self.pieces, other.pieces),
        }
    }

    fn energy_told(&self) -> i64 {
        told_of(wide_sum(self.first, self.second))
    }

    fn size_told(&self) -> u64 {
        let first = u128::from(self.first.unsigned_abs());
        let second = u128::from(self.second.unsigned_abs());
        told_size_of(first + second + u128::from(self.pieces.unsigned_abs()))
    }
}
