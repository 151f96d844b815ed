// Square roots from a close lower guess and the low 32 bits. All of it is done in 32 bits and without a branch, so that the compiler can find the roots
// of several pixels at a time.
#![tactic(auto)]

ghost use Rattle.std.specs.Prelude.{◌≡◌, ℕ, ◌+◌, ◌*◌, ◌%◌, ◌<◌, ◌≤◌};
ghost use Rattle.lowroots.specs.Found.{root_limit, short_limit, Finds, Sought};

// 2^27: no location has more than 27 bits.
const ROOT_LIMIT: u32 = 134217728;

// 2^22: the steps of a search from a root below it fit 32 bits.
pub const SHORT_LIMIT: u32 = 4194304;

// 2^31: numbers below it can be compared as signed ones, which vector instructions do faster.
const SIGN_BIT: u32 = 2147483648;

// 1 where x is above y, else 0.
fn above(x: u32, y: u32) -> u32
    ensures { (result ≤ 1) × (result ≡ 0 → x ≤ y) × (result ≡ 1 → y < x) }
{
    u32::from(y < x)
}

// The root, if it is g or one of the three numbers after it.
pub fn among_4(g: u32, low: u32) -> u32
    ensures { Finds 4 root_limit low g result }
{
    let q = g % ROOT_LIMIT;
    let b = u64::from(q);
    let over = low.wrapping_sub(numbers::low_half(b * b)) % SIGN_BIT;
    let one = 2 * q;
    let two = 2 * one + 3;
    let three = one + two + 5;
    q + above(over, one) + above(over, two) + above(over, three)
}

// ---- a binary search

// A number that is not above the root, and how far its square is below the number whose root is sought.
#[derive(Clone, Copy, Debug, PartialEq, Eq)]
struct Search {
    from: u32,
    over: u32,
}

// x where `over` is at least t, else 0.
fn taken(over: u32, t: u32, x: u32) -> u32
    ensures { (result ≤ x) × (over < t → result ≡ 0) × (t ≤ over → result ≡ x) }
{
    if over < t { 0 } else { x }
}

impl Search {
    // The search starts at the guess.
    fn begin(g: u32, low: u32) -> Search
        ensures { (result.from < short_limit) × ((z n : ℕ) → z % 4294967296 ≡ low → g < short_limit → n ≤ 128 → g * g ≤ z → z < (g + n) * (g + n) → Sought z n result) }
    {
        let q = g % SHORT_LIMIT;
        let b = u64::from(q);
        Search {
            from: q,
            over: low.wrapping_sub(numbers::low_half(b * b)) % SIGN_BIT,
        }
    }

    // The search k numbers farther on, unless that is past the root.
    fn halved(self, k: u32) -> Search
        requires { (k ≤ 32) × (self.from < 8388608) }
        ensures { (result.from ≤ self.from + k) × ((z m : ℕ) → k ≤ m → Sought z (k + m) self → Sought z m result) }
    {
        let t = k * (2 * self.from + k);
        Search {
            from: self.from + taken(self.over, t, k),
            over: (self.over - taken(self.over, t, t)) % SIGN_BIT,
        }
    }
}

// The root, if it is one of the 16 numbers from g on.
pub fn among_16(g: u32, low: u32) -> u32
    ensures { Finds 16 short_limit low g result }
{
    let s = Search::begin(g, low).halved(8).halved(4);
    s.halved(2).halved(1).from
}

// The root, if it is one of the 65 numbers from g on.
pub fn among_65(g: u32, low: u32) -> u32
    ensures { Finds 65 short_limit low g result }
{
    let s = Search::begin(g, low).halved(32).halved(16).halved(8);
    s.halved(4).halved(2).halved(1).halved(1).from
}
