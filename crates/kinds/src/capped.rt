//! Numbers of 32 bits that stop at the top.
ghost use Rattle.std.specs.Prelude.{◌≡◌};
ghost use Rattle.kinds.specs.Capped.{top32, capped, least_of_four};

/// The largest number of 32 bits.
pub const TOP32: u32 = 4294967295;

/// The smaller of n and `TOP32`.
pub fn cap(n: u64) -> u32
    ensures { result ≡ capped top32 n }
{
    if n < TOP32 as u64 { n as u32 } else { TOP32 }
}

/// The least of four numbers: for kinds of your own, as `cap` is.
pub fn least_of_four(a: u32, b: u32, c: u32, d: u32) -> u32
    ensures { result ≡ least_of_four a b c d }
{
    a.min(b).min(c).min(d)
}
