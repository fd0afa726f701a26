//! Weights, which stop at the greatest u64.

ghost use Rattle.std.specs.Prelude.{◌≡◌, suc, ◌+◌, ◌*◌};
ghost use Rattle.murphi_types.specs.Weights.{stopped};

/// The sum of two weights.
pub fn plus(a: u64, b: u64) -> u64
    ensures { result ≡ stopped (a + b) }
{
    a.saturating_add(b)
}

/// A weight and one more.
pub fn one_more(a: u64) -> u64
    ensures { result ≡ stopped (suc a) }
{
    a.saturating_add(1)
}

/// A weight so many times.
pub fn times(count: u64, a: u64) -> u64
    ensures { result ≡ stopped (count * a) }
{
    count.saturating_mul(a)
}
