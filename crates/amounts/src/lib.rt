// Kinds of amount: what a cell of a sheet holds. docs/amounts.md has the rules.
#![tactic(auto)]

ghost use Rattle.std.specs.Prelude.{◌≡◌, ℕ, ◌≤◌, ℤ};
ghost use Rattle.amounts.specs.Laws.{Joining, TakingOff, Small};

mod numbers;
pub mod plain;
pub mod split;

// A kind of amount. Its meaning is given by the ghost members, over what an amount holds; that may be less than what it
// stores. No call refuses or asks anything of its caller: past the bound of `Small`, and for pieces of other energies
// or dials, a call answers some amount, of which nothing is promised.
pub trait Amount: Sized {
    // What an amount holds, apart from how it is stored.
    type Held;

    ghost holds: { Self → Self.Held };

    ghost nil: { Self.Held };

    ghost piece: { ℕ → ℕ → Self.Held };

    ghost joined: { Self.Held → Self.Held → Self.Held };

    ghost taken: { Self.Held → Self.Held → Self.Held };

    ghost energy: { Self.Held → ℤ };

    ghost size: { Self.Held → ℕ };

    // The nil amount.
    fn none() -> Self
        ensures { holds result ≡ nil };

    // The piece made of an energy in Wh and a dial.
    fn of(wh: u32, dial: u8) -> Self
        ensures { wh ≤ 999999999 → 1 ≤ dial → dial ≤ 2 → holds result ≡ piece wh dial };

    fn join(self, other: Self) -> Self
        ensures { Small (size (holds self)) (size (holds other)) → holds result ≡ joined (holds self) (holds other) };

    fn take_off(self, other: Self) -> Self
        ensures { Small (size (holds self)) (size (holds other)) → holds result ≡ taken (holds self) (holds other) };

    // The energy that the amount tells, in Wh.
    fn energy_told(&self) -> i64
        ensures { result ≡ energy (holds self.now) };

    // The size that the amount tells.
    fn size_told(&self) -> u64
        ensures { result ≡ size (holds self.now) };

    // The laws, which each `impl` proves: below the calls, a ghost member is a law.
    ghost joining: { Joining nil piece joined energy size };

    ghost takingoff: { TakingOff joined taken energy size };
}
