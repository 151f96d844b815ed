// The locations of pixels along a straight line, by places: approximate locations in fixed point, with 25 binary digits after the point. The whole part
// of a place is the location, unless the next whole number is so near that the error may reach it; there the exact rule decides.
#![tactic(auto)]

ghost use Rattle.std.specs.Prelude.{◌≡◌, ℕ, ◌+◌, ◌*◌, ◌<◌, ◌≤◌, true, IsTrue, ◌↔◌};
ghost use Rattle.line.specs.Box.{Box};
ghost use Rattle.line.specs.Location.{location_by};
ghost use Rattle.line.specs.Represented.{Bounded, rule_in};
ghost use Rattle.fixed.specs.Steps.{Approximates, Steady, Reaches, place_at, Advances, AlongRow, Decided, FloorInTable, Certain};

use line::{Line, SignedVector};

// One in fixed point.
pub const ONE: u64 = 33554432;

// The same in 32 bits.
const LOW_ONE: u32 = ONE as u32;

// Digits after the point that are below this decide the whole part: a place is at most 8,190 half steps, each of them too small by at most 1.
const DECIDING: u64 = ONE - 8192;

// The same in 32 bits.
const LOW_DECIDING: u32 = DECIDING as u32;

// The first of two factors whose product is (32 · ONE)².
const HIGH_FACTOR: u64 = 17179869184;

// The second of them.
const LOW_FACTOR: u64 = 67108864;

// How far half a pixel across and half a pixel down go along the line, in units, in fixed point.
#[derive(Clone, Copy, Debug, PartialEq, Eq)]
pub struct Steps {
    pub across: u64,
    pub down: u64,
}

// 32·x / √n in fixed point, rounded down.
fn half_step(x: u64, n: u64) -> u64
    requires { (0 < n) × (n < 1073741824) × (x * x ≤ n) }
    ensures { Approximates 1 n (32 * x) result }
{
    let d = x * x * HIGH_FACTOR;
    root::root(d / n * LOW_FACTOR + d % n * LOW_FACTOR / n)
}

// The steps along a vector, the same for all pixels.
pub fn steps_of(v: SignedVector) -> Steps
    requires { Bounded v }
    ensures { Steady result v }
{
    let x = u64::from(v.x);
    let y = u64::from(v.y);
    let n = x * x + y * y;
    Steps {
        across: half_step(x, n),
        down: half_step(y, n),
    }
}

// The places of a row's pixels: that of pixel i is first + forth·i − back·i, where forth or back is 0.
#[derive(Clone, Copy, Debug, PartialEq, Eq)]
pub struct RowLine {
    pub first: u64,
    pub forth: u64,
    pub back: u64,
}

// The places of the pixels of row j.
pub fn row_line(s: Steps, v: SignedVector, w: usize, h: usize, j: usize) -> RowLine
    requires { Box w h × Steady s v × (j < h) }
    ensures { AlongRow result v w h j }
{
    let first = s.across * line::odd(0, w, v.left) + s.down * line::odd(j, h, v.up);
    let step = 2 * s.across;
    if v.left {
        RowLine {
            first,
            forth: 0,
            back: step,
        }
    } else {
        RowLine {
            first,
            forth: step,
            back: 0,
        }
    }
}

// The place of pixel i.
pub fn place(r: RowLine, i: usize) -> u64
    requires { Reaches r i }
    ensures { result ≡ place_at r i }
{
    r.first + r.forth * (i as u64) - r.back * (i as u64)
}

// What is added to the place of a pixel to get that of the next, wrapping at 2^64.
pub fn step(r: RowLine) -> u64
    ensures { Advances r result }
{
    r.forth.wrapping_sub(r.back)
}

// The location of pixel (i, j), in units.
pub fn location(r: RowLine, v: SignedVector, w: usize, h: usize, i: usize, j: usize) -> u32
    requires { AlongRow r v w h j × (i < w) }
    ensures { result ≡ location_by (rule_in (Line.Straight v) w h) i j }
{
    let e = place(r, i);
    if e % ONE < DECIDING {
        return (e / ONE) as u32;
    }
    line::location(Line::Straight(v), w, h, i, j, (e / ONE) as u32) as u32
}

// ---- many places at once

// Whether the digits of a place with this low half decide its whole part.
fn is_decided(low: u32) -> bool
    ensures { IsTrue result ↔ Decided low }
{
    low % LOW_ONE < LOW_DECIDING
}

// Whether the digits of all n places decide their whole parts, where the first has this low half. Those that do not are counted, and the loop is not left
// at the first: so the compiler does several at a time.
fn all_decided(low: u32, step: u32, n: usize) -> bool
    requires { n ≤ 2048 }
    ensures { result ≡ true → (k : ℕ) → k < n → Decided (low + step * k) }
{
    let mut l = low;
    let mut undecided = 0;
    for _ in 0..n {
        undecided += u32::from(!is_decided(l));
        l = l.wrapping_add(step);
    }
    undecided == 0
}

// Whether a table of `size` entries from `base` on has the whole part of a place.
fn is_in_table(e: u64, base: u32, size: usize) -> bool
    ensures { result ≡ true → FloorInTable base size e }
{
    let q = e / ONE;
    let first = u64::from(base);
    first <= q && q - first < size as u64
}

// Whether the digits of n places from pixel i on decide their whole parts, and a table of `size` entries from `base` on has all of these.
pub fn floors_certain(r: RowLine, i: usize, n: usize, base: u32, size: usize) -> bool
    requires { (0 < n) × (i + n ≤ 2048) × ((k : ℕ) → k < n → Reaches r (i + k)) }
    ensures { result ≡ true → (k : ℕ) → k < n → Certain base size (place_at r (i + k)) }
{
    let e = place(r, i);
    is_in_table(e, base, size)
        && is_in_table(place(r, i + (n - 1)), base, size)
        && all_decided(numbers::low_half(e), numbers::low_half(step(r)), n)
}
