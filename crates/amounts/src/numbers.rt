// Signed numbers of 64 bits: sums that are exact where they are small, and what is told of a wide one.
ghost use Rattle.std.specs.Prelude.{◌≡◌, ◌+◌, ◌+ℤ◌, ◌-ℤ◌, unsigned_abs};
ghost use Rattle.amounts.specs.Laws.{Small};
ghost use Rattle.amounts.specs.Told.{told, told_size};

// 10^18, past which no energy or size is told.
const MOST: i128 = 1_000_000_000_000_000_000;

pub(crate) fn added(a: i64, b: i64) -> i64
    ensures { Small (unsigned_abs a) (unsigned_abs b) → result ≡ a +ℤ b }
{
    a.saturating_add(b)
}

pub(crate) fn less(a: i64, b: i64) -> i64
    ensures { Small (unsigned_abs a) (unsigned_abs b) → result ≡ a -ℤ b }
{
    a.saturating_sub(b)
}

pub(crate) fn wide_sum(a: i64, b: i64) -> i128
    ensures { result ≡ a +ℤ b }
{
    i128::from(a) + i128::from(b)
}

pub(crate) fn told_of(x: i128) -> i64
    ensures { result ≡ told x }
{
    x.clamp(-MOST, MOST) as i64
}

pub(crate) fn told_size_of(size: u128) -> u64
    ensures { result ≡ told_size size }
{
    size.min(MOST.unsigned_abs()) as u64
}
