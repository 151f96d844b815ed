// The whole-number root.
#![tactic(auto)]

ghost use Rattle.std.specs.Prelude.{◌≡◌, ◌+◌, ◌*◌, ◌%◌, ◌<◌, ◌≤◌, true};
ghost use Rattle.root.specs.Root.{IsRoot, root_of};
ghost use Rattle.root.specs.Digits.{digits_of};

// How many binary digits the root of x has: half as many as x has, rounded up.
fn root_digits(x: u64) -> u32
    ensures { result ≡ digits_of (root_of 1 x) }
{
    (65 - x.leading_zeros()) / 2
}

// A root, and the rounds that it took to find.
#[derive(Clone, Copy, Debug, PartialEq, Eq)]
pub struct Found {
    pub root: u64,
    pub rounds: u32,
}

// Finds the root of x as one does by hand, a binary digit each round, from the top one down. A round brings down two more digits of x; q is the root of
// all that were brought down, and `rest` is how far they are above q². The digit is 1 where `rest` holds `more`, which is (q + 1)² − q².
pub fn find(x: u64) -> Found
    ensures { (result.root ≡ root_of 1 x) × (result.rounds ≡ digits_of result.root) × (result.rounds ≤ 32) }
{
    let digits = root_digits(x);
    let mut q: u64 = 0;
    let mut rest: u64 = 0;
    let mut rounds: u32 = 0;
    // Kept: a `while`, which counts its own rounds: that what is handed out is their number is to be seen in the code alone (docs/DECISIONS.md).
    while rounds < digits {
        rounds += 1;
        let left = 2 * (digits - rounds);
        q = 2 * q;
        let more = 2 * q + 1;
        rest = 4 * rest + (x >> left) % 4;
        if more <= rest {
            rest -= more;
            q += 1;
        }
    }
    Found { root: q, rounds }
}

// The greatest whole number whose square is at most x.
// Kept: the search of `find`, which the program roots prints with its rounds; the library's `isqrt` takes 32 rounds for every number.
pub fn root(x: u64) -> u64
    ensures { result ≡ root_of 1 x }
{
    find(x).root
}

// x − g², modulo 2^64: at most 2g only where g is the root of x.
#[tactic(auto, using(crate::proofs::Near::wrapped_is))]
fn over_square(x: u64, g: u32) -> u64
    ensures { result ≤ 2 * g → g ≡ root_of 1 x }
{
    let b = g as u64;
    x.wrapping_sub(b * b)
}

// A better guess at the root of x, from a guess: from a close one mostly the root itself. Any answer is allowed.
fn newton(x: u64, g: u32) -> u32 {
    let b = g as u64 + 1;
    (b.wrapping_add(x / b) / 2 % 4294967296) as u32
}

// The root: a better guess is tried before it is searched for.
fn root_from(x: u64, g: u32) -> u64
    ensures { result ≡ root_of 1 x }
{
    let n = newton(x, g);
    if over_square(x, n) <= 2 * (n as u64) {
        return n as u64;
    }
    root(x)
}

// 1 where x is at least y, else 0.
fn reaches(x: u64, y: u64) -> u64
    ensures { result ≤ 1 }
{
    u64::from(y <= x)
}

// Of the guess and the two numbers after it, the one that may be the root of x / n. Any answer is allowed.
fn nearby(n: u64, x: u64, g: u32) -> u64
    requires { n < 1073741824 }
    ensures { result < 131072 }
{
    if 131069 < g {
        return 0;
    }
    let a = g as u64;
    let b = a + 1;
    let c = a + 2;
    a + reaches(x, b * b * n) + reaches(x, c * c * n)
}

// Whether q is the greatest number with q²·n ≤ x.
fn is_root(n: u64, x: u64, q: u64) -> bool
    requires { (n < 1073741824) × (q < 131072) }
    ensures { result ≡ true → IsRoot n x q }
{
    let e = q * q * n;
    e <= x && x - e < (2 * q + 1) * n
}

// The greatest q with q²·n ≤ x. The guess and the two numbers after it are tried before it is searched for; the answer does not depend on the guess.
pub fn root_near(n: u64, x: u64, g: u32) -> u64
    requires { (0 < n) × (n < 1073741824) }
    ensures { result ≡ root_of n x }
{
    let q = nearby(n, x, g);
    if is_root(n, x, q) {
        return q;
    }
    root_from(x / n, g)
}

// One less than the number that would come after two, were all three equally far apart, modulo 2^32: the next root is often this, or one or two more.
pub fn ahead(before: u32, last: u32) -> u32
    ensures { (result + before + 1) % 4294967296 ≡ 2 * last % 4294967296 }
{
    last.wrapping_add(last.wrapping_sub(before.wrapping_add(1)))
}
