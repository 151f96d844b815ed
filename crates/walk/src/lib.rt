// The colors between two stops, location by location and with no division: each channel walks in fixed point.
#![tactic(auto)]

ghost use Rattle.std.specs.Prelude.{◌≡◌, ℕ, ◌+◌, ◌-◌, ◌*◌, ◌/◌, ◌^◌, ◌<◌, ◌≤◌, true, List, length};
ghost use Rattle.numbers.specs.Fraction.{nearest};
ghost use Rattle.color.specs.Stop.{Channel};
ghost use Rattle.color.specs.Lent.{Small, values_at, mix, scale};
ghost use Rattle.walk.specs.Walk.{most_steps, short_gap, Gap, InGap, numerator_at, Walks, Further, Fits};
ghost use Rattle.walk.specs.Channels.{channel_of, Going, Staying, Alike, mix_of, most_pace, Paced};

use color::{ONE, Rgba};
use std::cmp::Ordering;

// The square root of `ONE`.
const ROOT_OF_ONE: u64 = 134217728;

// How many steps a walk is right for.
const MOST_STEPS: u64 = 262144;

// How far above the exact number a walk starts, so that its steps, which are rounded down, never take it below.
const LEAD: u64 = 2 * MOST_STEPS;

// In a gap of at most this many units one over 510 g is exact enough to be multiplied with.
const SHORT_GAP: u32 = 16384;

// What the numbers of a guess are divided by, so that their products fit.
const COARSE: u64 = 4194304;

// One, in the fixed point of paces.
const PACE_ONE: u64 = 1099511627776;

// ---- one channel

// A channel in fixed point: its byte is f rounded down, and each step adds `up` and takes `down` away.
#[derive(Debug, Clone, Copy, PartialEq, Eq, Default)]
pub struct Walk {
    pub f: u64,
    pub up: u64,
    pub down: u64,
}

// n / d in fixed point.
fn scaled(n: u64, d: u64) -> u64
    requires { (0 < d) × (d < 2 ^ 33) × (n < 512 * d) }
    ensures { result ≡ n * scale / d }
{
    let r = n % d * ROOT_OF_ONE;
    n / d * ONE + r / d * ROOT_OF_ONE + r % d * ROOT_OF_ONE / d
}

// The byte x units from P's stop is this number over 510 g, rounded down.
fn numerator(p: u32, q: u32, g: u32, x: u32) -> u64
    requires { (p ≤ 65025) × (q ≤ 65025) × (x ≤ g) }
    ensures { result ≡ numerator_at p q g x }
{
    2 * ((p as u64) * ((g - x) as u64) + (q as u64) * (x as u64)) + 255 * (g as u64)
}

impl Walk {
    // The walk in steps of s units that starts x units from P's stop, where Q's stop is g units from P's.
    pub fn begin(p: u32, q: u32, g: u32, s: u32, x: u32) -> Walk
        requires { InGap p q g s x }
        ensures { Walks p q g s x most_steps result }
    {
        let d = 510 * (g as u64);
        Walk {
            f: scaled(numerator(p, q, g, x), d) + LEAD,
            up: scaled(2 * (q as u64) * (s as u64), d),
            down: scaled(2 * (p as u64) * (s as u64), d),
        }
    }

    // The same in a short gap, by multiplications: r is one over 510 g.
    fn begin_short(p: u32, q: u32, g: u32, s: u32, x: u32, r: u64) -> Walk
        requires { InGap p q g s x × (g ≤ short_gap) × (r ≡ scale / (510 * g)) }
        ensures { Walks p q g s x most_steps result }
    {
        Walk {
            f: numerator(p, q, g, x) * r + (130305 * (g as u64) + MOST_STEPS),
            up: 2 * (q as u64) * (s as u64) * r,
            down: 2 * (p as u64) * (s as u64) * r,
        }
    }

    // One step on.
    pub fn next(self) -> Walk
        ensures { Fits 1 self → Further 1 self result }
    {
        Walk {
            f: self.f.wrapping_add(self.up).wrapping_sub(self.down),
            ..self
        }
    }

    // n steps on.
    fn leap(self, n: u64) -> Walk
        requires { Fits n self }
        ensures { Further n self result }
    {
        Walk {
            f: self.f + n * self.up - n * self.down,
            ..self
        }
    }

    // The byte where the walk is.
    pub fn byte(self) -> u8
        ensures { (p q g s x left : ℕ) → Walks p q g s x (left + 1) self → result ≡ nearest (mix p q x (g - x)) }
    {
        (self.f / ONE % 256) as u8
    }

    // How many steps it takes from one byte to the next, in fixed point.
    fn pace(self) -> u64
        ensures { result ≤ most_pace }
    {
        PACE_ONE / (self.up.abs_diff(self.down) / COARSE + 256)
    }

    // How far it is from leaving its byte.
    fn rest(self) -> u64
        ensures { result < scale }
    {
        let past = self.f % ONE;
        match self.up.cmp(&self.down) {
            Ordering::Less => past,
            Ordering::Greater => ONE - 1 - past,
            Ordering::Equal => ONE - 1,
        }
    }

    // For how many steps its byte seems to stay the same.
    fn steady(self, pace: u64) -> u64
        requires { pace ≤ most_pace }
        ensures { result < most_pace }
    {
        self.rest() / COARSE * pace / PACE_ONE
    }
}

// ---- all four channels

// Something of each channel.
#[derive(Debug, Clone, Copy, PartialEq, Eq, Default)]
pub struct Channels<T> {
    pub red: T,
    pub green: T,
    pub blue: T,
    pub alpha: T,
}

impl<T> Channels<T> {
    // What f makes of each.
    #[inline(always)]
    pub fn map<U, F: Fn(T) -> U>(self, f: F) -> Channels<U>
        requires { (c : Channel) → F.pre f (channel_of self c) }
        ensures { (c : Channel) → F.post f (channel_of self c) (channel_of result c) }
    {
        Channels {
            red: f(self.red),
            green: f(self.green),
            blue: f(self.blue),
            alpha: f(self.alpha),
        }
    }

    // What f makes of each and the same channel of the other.
    #[inline(always)]
    pub fn zip_with<U, V, F: Fn(T, U) -> V>(self, other: Channels<U>, f: F) -> Channels<V>
        requires { (c : Channel) → F.pre f (channel_of self c) (channel_of other c) }
        ensures { (c : Channel) → F.post f (channel_of self c) (channel_of other c) (channel_of result c) }
    {
        Channels {
            red: f(self.red, other.red),
            green: f(self.green, other.green),
            blue: f(self.blue, other.blue),
            alpha: f(self.alpha, other.alpha),
        }
    }
}

// The values of stop i.
#[inline(always)]
fn values_of(values: &[u32], i: usize) -> Channels<u32>
    requires { 4 * i + 3 < length values.now }
    ensures { (c : Channel) → channel_of result c ≡ values_at values.now i c }
{
    let k = 4 * i;
    Channels {
        red: values[k],
        green: values[k + 1],
        blue: values[k + 2],
        alpha: values[k + 3],
    }
}

impl Channels<Walk> {
    // The walks in steps of s units that start x units from stop i, in a short gap of g units.
    pub fn begin_short(values: &[u32], i: usize, g: u32, s: u32, x: u32) -> Channels<Walk>
        requires { (4 * i + 7 < length values.now) × Small values.now × Gap g s x × (g ≤ short_gap) }
        ensures { Going values.now i g s x most_steps result }
    {
        let r = color::inverse_of(g as u64);
        values_of(values, i).zip_with(
            values_of(values, i + 1),
            |p, q| Walk::begin_short(p, q, g, s, x, r),
        )
    }

    // The same in any gap.
    pub fn begin_long(values: &[u32], i: usize, g: u32, s: u32, x: u32) -> Channels<Walk>
        requires { (4 * i + 7 < length values.now) × Small values.now × Gap g s x }
        ensures { Going values.now i g s x most_steps result }
    {
        values_of(values, i).zip_with(values_of(values, i + 1), |p, q| Walk::begin(p, q, g, s, x))
    }

    // The faster of the two, which is inlined: so the walks of a short gap stay in registers.
    #[inline(always)]
    pub fn begin(values: &[u32], i: usize, g: u32, s: u32, x: u32) -> Channels<Walk>
        requires { (4 * i + 7 < length values.now) × Small values.now × Gap g s x }
        ensures { Going values.now i g s x most_steps result }
    {
        if g <= SHORT_GAP {
            return Channels::begin_short(values, i, g, s, x);
        }
        Channels::begin_long(values, i, g, s, x)
    }

    // The walks that stay at the color of stop i.
    pub fn stay(values: &[u32], i: usize) -> Channels<Walk>
        requires { (4 * i + 3 < length values.now) × Small values.now }
        ensures { Staying values.now i result }
    {
        values_of(values, i).map(|p| Walk::begin(p, p, MOST_STEPS as u32, 1, 0))
    }

    // One step on.
    pub fn next(self) -> Channels<Walk>
        ensures { (c : Channel) → Fits 1 (channel_of self c) → Further 1 (channel_of self c) (channel_of result c) }
    {
        self.map(|w| w.next())
    }

    // n steps on.
    pub fn leap(self, n: u64) -> Channels<Walk>
        requires { (c : Channel) → Fits n (channel_of self c) }
        ensures { (c : Channel) → Further n (channel_of self c) (channel_of result c) }
    {
        self.map(|w| w.leap(n))
    }

    // Whether all four bytes are the same as there.
    pub fn alike(self, there: Channels<Walk>) -> bool
        ensures { result ≡ true → Alike self there }
    {
        self.map(|w| w.f / ONE) == there.map(|w| w.f / ONE)
    }

    // The color where the walks are.
    pub fn mixed(self) -> Rgba
        ensures { (vs : List ℕ) (i g s x left : ℕ) → Going vs i g s x (left + 1) self → result ≡ mix_of vs i x (g - x) }
    {
        Rgba {
            red: self.red.byte(),
            green: self.green.byte(),
            blue: self.blue.byte(),
            alpha: self.alpha.byte(),
        }
    }

    // How many steps each takes from one byte to the next, in fixed point.
    pub fn paces(self) -> Channels<u64>
        ensures { Paced result }
    {
        self.map(|w| w.pace())
    }

    // A guess for how many steps all bytes stay the same. Nothing is proved of it but that it fits.
    pub fn steady_steps(self, paces: Channels<u64>) -> usize
        requires { Paced paces }
        ensures { result < most_pace }
    {
        let n = self.zip_with(paces, |w, pace| w.steady(pace));
        n.red.min(n.green).min(n.blue.min(n.alpha)) as usize
    }
}

// ---- guesses: how fast colors change. Nothing is proved of them.

// The most that a value changes from stop i to the next, times s.
fn change(values: &[u32], i: usize, s: u32) -> u64
    requires { 4 * i + 7 < length values.now }
{
    let d = values_of(values, i).zip_with(values_of(values, i + 1), |p, q| p.abs_diff(q));
    (d.red.max(d.green).max(d.blue.max(d.alpha)) as u64) * (s as u64)
}

// Whether each byte stays the same for about 64 steps of s units or more, from stop i to the next, which is g units on.
pub fn is_smooth(values: &[u32], i: usize, g: u32, s: u32) -> bool
    requires { 4 * i + 7 < length values.now }
{
    change(values, i, s) < 4 * (g as u64)
}

// Whether some byte changes within about 16 steps.
pub fn is_steep(values: &[u32], i: usize, g: u32, s: u32) -> bool
    requires { 4 * i + 7 < length values.now }
{
    16 * (g as u64) <= change(values, i, s)
}
