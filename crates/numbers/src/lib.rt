// Numbers of either sign, which the code keeps biased: as unsigned numbers 2^25 above them. Lengths and percentages in units of 1/64 px.
#![tactic(auto)]

ghost use Rattle.std.specs.Prelude.{◌≡◌, ◌%◌, ◌^◌, ◌≤◌, ◌<◌, nat_abs, pos, ◌-ℤ◌};
ghost use Rattle.std.specs.Int.{IsGcd};
ghost use Rattle.numbers.specs.Biased.{bias, twice_bias, biased, unbiased};
ghost use Rattle.numbers.specs.Units.{rounded, length_units, percentage_units, most_whole};

// 2^25: how far a biased number is above the one that it stands for. Then the same in 64 bits, and signed.
pub const BIAS: u32 = 33554432;

pub const WIDE_BIAS: u64 = BIAS as u64;

const SIGNED_BIAS: i32 = BIAS as i32;

// A number without its sign.
pub fn magnitude(v: i32) -> u32
    ensures { result ≡ nat_abs v }
{
    v.unsigned_abs()
}

// A number of either sign, biased.
pub fn biased(v: i32) -> u32
    requires { nat_abs v ≤ bias }
    ensures { result ≡ biased v }
{
    (v + SIGNED_BIAS) as u32
}

// The number that a biased one stands for.
pub fn unbiased(u: u32) -> i32
    requires { u ≤ twice_bias }
    ensures { result ≡ unbiased u }
{
    (u as i32) - SIGNED_BIAS
}

// How far two numbers are apart.
pub fn apart(a: u64, b: u64) -> u64
    ensures { result ≡ nat_abs (pos a -ℤ pos b) }
{
    a.abs_diff(b)
}

// n / d to the nearest whole number, halves up.
pub fn round(n: u64, d: u64) -> u64
    requires { (n < 2 ^ 62) × (0 < d) × (d < 2 ^ 62) }
    ensures { result ≡ rounded n d }
{
    let q = n / d;
    let rest = n % d;
    if 2 * rest < d { q } else { q + 1 }
}

// A length in thousandths of a px, from -8,192 to 8,192 px, in units, biased.
pub fn length_units(t: i32) -> u32
    requires { nat_abs t ≤ 8192000 }
    ensures { unbiased result ≡ length_units t }
{
    // 2^25 · 64 + 352 = 2,147,484,000, and 2^25 − 2,147,484 = 31,406,948
    let n = round((biased(t) as u64) * 64 + 352, 1000);
    (n + 31406948) as u32
}

// A percentage in thousandths, from -1,000% to 1,000%, of a whole number of units, in units, biased.
pub fn percentage_units(p: i32, whole: u32) -> u32
    requires { (nat_abs p ≤ 1000000) × (whole ≤ most_whole) }
    ensures { unbiased result ≡ percentage_units p whole }
{
    // 2^25 + 45,568 = 336 · 100,000
    let w = whole as u64;
    let n = round(((biased(p) as u64) + 45568) * w, 100000);
    (n + WIDE_BIAS - 336 * w) as u32
}

// The low 32 bits.
pub fn low_half(x: u64) -> u32
    ensures { result ≡ x % 4294967296 }
{
    (x % 4294967296) as u32
}

// The greatest common divisor, by Euclid's algorithm.
pub fn common(x: u32, y: u32) -> u32
    ensures { IsGcd x y result }
{
    let mut a = x;
    let mut b = y;
    // Kept: no index is counted: each round goes on with the divisor and what it leaves.
    while b > 0 {
        let r = a % b;
        a = b;
        b = r;
    }
    a
}
