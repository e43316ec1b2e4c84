// Threshold sets and usage factors. docs/factors.md has the rules.
#![tactic(auto)]

ghost use Rattle.std.specs.Prelude.{ℕ, ◌<◌, ◌≤◌, slice_index};

pub mod sets;

// A threshold set: k, and one theta for each sub-profile, in ten-thousandths. No other set exists. The thetas are always
// eight, so no length stands beside them.
#[derive(Clone, Copy)]
pub struct Thresholds {
    k: u32,
    thetas: [u32; 8],
    ghost k_bounded: { k ≤ 50000 },
    ghost thetas_bounded: { (sub : ℕ) → sub < 8 → slice_index thetas sub ≤ 50000 },
}
