// Tables of colors by location, each color packed into a word, from placed stops that are lent as two slices of numbers. Between two stops a table is
// filled by walks, with no division per entry.
#![tactic(auto)]

ghost use Rattle.std.specs.Prelude.{◌≡◌, List, true, ℕ, ◌+◌, ◌-◌, ◌*◌, ◌/◌, ◌≤◌, ◌<◌, length, get_or};
ghost use Rattle.color.specs.Stop.{Channel};
ghost use Rattle.color.specs.Lent.{Small, last_up_to};
ghost use Rattle.numbers.specs.Biased.{twice_bias};
ghost use Rattle.walk.specs.Walk.{most_steps, Gap, Fits};
ghost use Rattle.walk.specs.Channels.{channel_of, Paced};
ghost use Rattle.table.specs.Table.{packed, farthest, entry_of, entry_at, Spaced, walked_at, Reached, Spans, Stored, Splits, Ends, Run, Flat, Stretched, Near, Leaps};

mod lent;

use color::Rgba;
pub use lent::LentStops;
use walk::{Channels, Walk};

// From this many units on, a gap is too long for walks.
const LONG_GAP: u32 = 16777216;

// The most locations of a stretch.
const LONGEST: u32 = 262143;

// ---- packed colors

fn pack(p: Rgba) -> u32
    ensures { result ≡ packed p }
{
    (p.red as u32) + 256 * (p.green as u32) + 65536 * (p.blue as u32) + 16777216 * (p.alpha as u32)
}

// ---- the entries from `at` up to `end`

// Stores v in each.
fn fill_flat(t: &mut [u32], at: usize, end: usize, v: u32)
    requires { (at ≤ end) × (end ≤ length t.old) }
    ensures { Stored (λ (k : ℕ). v) at end t.old t.new }
{
    t[at..end].fill(v);
}

// Stores the colors of the walks, step by step.
fn fill_steps(t: &mut [u32], at: usize, end: usize, start: Channels<Walk>)
    requires { (at ≤ end) × (end ≤ length t.old) }
    ensures { (vs : List ℕ) (i g s x a : ℕ) → a ≤ at → Spans g s x a end → (at < end → Reached vs i g s x a at start)
        → Stored (walked_at vs i g s x a) at end t.old t.new }
{
    let mut w = start;
    for k in at..end {
        t[k] = pack(w.mixed());
        w = w.next();
    }
}

// Stores the next n colors of the walks, and takes the walks past them. If the first and the last are the same, so are those between.
#[inline(always)]
fn fill_even(t: &mut [u32], at: usize, n: usize, w: Channels<Walk>) -> Channels<Walk>
    requires { (0 < n) × (at + n ≤ length t.old) × ((c : Channel) → Fits (n - 1) (channel_of w c)) }
    ensures { (vs : List ℕ) (i g s x a : ℕ) → a ≤ at → Spans g s x a (at + n) → Reached vs i g s x a at w
        → Stored (walked_at vs i g s x a) at (at + n) t.old t.new × (Spans g s x a (at + n + 1) → Reached vs i g s x a (at + n) result) }
{
    let last = w.leap((n - 1) as u64);
    if w.alike(last) {
        fill_flat(t, at, at + n, pack(w.mixed()));
        return last.next();
    }
    fill_steps(t, at, at + n, w);
    last.next()
}

// Up to where to store in blocks: nowhere where colors change so fast that none has one color.
fn blocks_end(at: usize, end: usize, values: &[u32], i: usize, g: u32, stride: u32) -> usize
    requires { (at ≤ end) × (4 * i + 7 < length values.now) }
    ensures { result ≤ end }
{
    if walk::is_steep(values, i, g, stride) {
        at
    } else {
        end
    }
}

// Stores the colors of walks in steps of `stride` units that start x units from stop i, in a gap of g units.
fn fill_walked(
    t: &mut [u32],
    at: usize,
    end: usize,
    values: &[u32],
    i: usize,
    g: u32,
    stride: u32,
    x: u32,
)
    requires at_le_end { (at ≤ end) × (end ≤ length t.old) × (length t.old < most_steps) }
    requires i_in_bounds { (4 * i + 7 < length values.now) × Small values.now × Gap g stride x × Spans g stride x at end }
    ensures { Stored (walked_at values.now i g stride x at) at end t.old t.new }
{
    let last = blocks_end(at, end, values, i, g, stride);
    let mut w = Channels::begin(values, i, g, stride, x);
    let mut k = at;
    while k + 16 <= last {
        w = fill_even(t, k, 16, w);
        k += 16;
    }
    fill_steps(t, k, end, w);
}

// ---- the same where colors change slowly

// How many of the entries that are left to store next: as many as seem to have one color, or 16.
fn next_size(w: Channels<Walk>, p: Channels<u64>, left: usize) -> usize
    requires { (0 < left) × Paced p }
    ensures { (0 < result) × (result ≤ left) }
{
    let m = w.steady_steps(p);
    left.min(if m < 7 { 16 } else { m + 1 })
}

// Stores the colors of walks, one color at a time.
fn fill_smooth(
    t: &mut [u32],
    at: usize,
    end: usize,
    values: &[u32],
    i: usize,
    g: u32,
    stride: u32,
    x: u32,
)
    requires at_le_end { (at ≤ end) × (end ≤ length t.old) × (length t.old < most_steps) }
    requires i_in_bounds { (4 * i + 7 < length values.now) × Small values.now × Gap g stride x × Spans g stride x at end }
    ensures { Stored (walked_at values.now i g stride x at) at end t.old t.new }
{
    let mut w = Channels::begin(values, i, g, stride, x);
    let paces = w.paces();
    let mut k = at;
    // Kept: each round stores as many entries as `next_size` tells.
    while k < end {
        let n = next_size(w, paces, end - k);
        w = fill_even(t, k, n, w);
        k += n;
    }
}

// By the faster of the two.
fn fill_gap(
    t: &mut [u32],
    at: usize,
    end: usize,
    values: &[u32],
    i: usize,
    g: u32,
    stride: u32,
    x: u32,
)
    requires at_le_end { (at ≤ end) × (end ≤ length t.old) × (length t.old < most_steps) }
    requires i_in_bounds { (4 * i + 7 < length values.now) × Small values.now × Gap g stride x × Spans g stride x at end }
    ensures { Stored (walked_at values.now i g stride x at) at end t.old t.new }
{
    if walk::is_smooth(values, i, g, stride) {
        fill_smooth(t, at, end, values, i, g, stride, x);
    } else {
        fill_walked(t, at, end, values, i, g, stride, x);
    }
}

// ---- runs: locations with no position between them

// The first place from `from` on whose position is above `at`.
fn place_above(positions: &[u32], from: usize, at: u32) -> usize
    requires { (from ≤ length positions.now) × ((i : ℕ) → i < from → get_or positions.now i 0 ≤ at) }
    ensures { Splits positions.now at result }
{
    for i in from..positions.len() {
        if at < positions[i] {
            return i;
        }
    }
    positions.len()
}

// The position at a place, or `limit` where that is less or there is none.
fn run_end(positions: &[u32], place: usize, limit: u32) -> u32
    ensures { Ends positions.now place limit result }
{
    match positions.get(place) {
        Some(p) => limit.min(*p),
        None => limit,
    }
}

// n / stride, faster for the stride of rows and columns.
pub fn entries_in(n: u32, stride: u32) -> u32
    requires { 0 < stride }
    ensures { result ≡ n / stride }
{
    if stride == 64 { n / 64 } else { n / stride }
}

// ---- stretches: colors from walks, with no table

// `count` locations from `first` on that have the same stops around them, and the walks at the first.
#[derive(Debug, Clone, Copy, PartialEq, Eq, Default)]
pub struct Stretch {
    pub first: u64,
    pub count: u64,
    pub walks: Channels<Walk>,
}

// A stretch of no locations.
pub fn no_stretch() -> Stretch
    ensures { (result.first ≡ 0) × (result.count ≡ 0) }
{
    Stretch::default()
}

// The same colors at other locations: what is at `from` moves to `to`.
pub fn moved(t: Stretch, from: u64, to: u64) -> Stretch
    requires { (0 < t.count → from ≤ t.first + to) × (t.first < 4294967296) × (to < 4294967296) }
    ensures { (result.count ≡ t.count) × (result.first ≤ t.first + to) × (0 < t.count → result.first + from ≡ t.first + to)
        × ((f color : ℕ → ℕ) → Stretched f t → result.first ≤ farthest → ((k : ℕ) → k < t.count → f (t.first + k) ≡ color (result.first + k)) → Stretched color result) }
{
    if t.count == 0 {
        return no_stretch();
    }
    Stretch {
        first: t.first + to - from,
        ..t
    }
}

// Whether a stretch has the location s.
pub fn is_in(t: Stretch, s: u64) -> bool
    ensures { result ≡ true → (t.first ≤ s) × (s < t.first + t.count) }
{
    t.first <= s && s - t.first < t.count
}

// The color at the location that is n units from the stretch's first.
pub fn color_in(t: Stretch, n: u32) -> u32
    requires { Leaps t × (n < t.count) }
    ensures { (color : ℕ → ℕ) → Stretched color t → result ≡ color (t.first + n) }
{
    pack(t.walks.leap(n as u64).mixed())
}

// ---- the colors of lent stops

impl LentStops<'_> {
    // The color at a biased location, packed.
    pub fn color_of(self, at: u64) -> u32
        ensures { result ≡ entry_of self.entry.positions.now self.entry.values.now at }
    {
        pack(color::color_at(self.positions, self.values, at))
    }

    // Stores the color of each location, found on its own.
    fn fill_each(self, t: &mut [u32], at: usize, end: usize, first: u32, stride: u32)
        requires { (at ≤ end) × (end ≤ length t.old) × (first + length t.old * stride ≤ farthest) × (length t.old < most_steps) }
        ensures { Stored (entry_at self.entry.positions.now self.entry.values.now first stride) at end t.old t.new }
    {
        for k in at..end {
            t[k] = self.color_of((first + (k as u32) * stride) as u64);
        }
    }

    // Stores the colors of a run between stop i and the next.
    fn fill_between(self, t: &mut [u32], at: usize, end: usize, first: u32, stride: u32, i: usize)
        requires run { Run self.positions.now first stride at end (length t.old) }
        requires i_value { (i + 1 ≡ last_up_to self.positions.now (first + at * stride)) × (i + 1 < length self.positions.now) }
        ensures { Stored (entry_at self.entry.positions.now self.entry.values.now first stride) at end t.old t.new }
    {
        let a = self.positions[i];
        let g = self.positions[i + 1] - a;
        if LONG_GAP <= g || g < stride {
            self.fill_each(t, at, end, first, stride);
            return;
        }
        let x = first + (at as u32) * stride - a;
        fill_gap(t, at, end, self.values, i, g, stride, x);
    }

    // Stores the colors of a run; `place` positions are at or below its first location.
    fn fill_run(self, t: &mut [u32], at: usize, end: usize, first: u32, stride: u32, place: usize)
        requires { Run self.positions.now first stride at end (length t.old) × (place ≡ last_up_to self.positions.now (first + at * stride)) }
        ensures { Stored (entry_at self.entry.positions.now self.entry.values.now first stride) at end t.old t.new }
    {
        let s = (first + (at as u32) * stride) as u64;
        if place == 0 || place == self.positions.len() {
            fill_flat(t, at, end, self.color_of(s));
            return;
        }
        self.fill_between(t, at, end, first, stride, place - 1);
    }

    // Fills a table, run by run, with the colors of the locations from the biased location `first` on, `stride` units apart.
    pub fn fill_spaced(self, t: &mut [u32], first: u32, stride: u32)
        requires { (0 < stride) × (first + length t.old * stride ≤ farthest) × (length t.old < most_steps) }
        ensures { Spaced self.entry.positions.now self.entry.values.now first stride t.new × (length t.new ≡ length t.old) }
    {
        let n = t.len();
        let limit = first + (n as u32) * stride;
        let mut k = 0;
        let mut place = 0;
        // Kept: each round stores a run, which ends where the next position tells.
        while k < n {
            place = place_above(self.positions, place, first + (k as u32) * stride);
            let r = run_end(self.positions, place, limit);
            let end = entries_in(r - first + (stride - 1), stride) as usize;
            self.fill_run(t, k, end, first, stride, place);
            k = end;
        }
    }

    // The stretch between stop i and the next, from `low` on.
    fn stretch_between(self, i: usize, at: u32, low: u32) -> Stretch
        requires { (i + 1 < length self.positions.now) × Splits self.positions.now at (i + 1) × (low ≤ at) × (at ≤ twice_bias) }
        ensures { Stretched (entry_of self.entry.positions.now self.entry.values.now) result × Near self.entry.positions.now at low result }
    {
        let a = self.positions[i];
        let g = self.positions[i + 1] - a;
        if LONG_GAP <= g {
            return no_stretch();
        }
        let first = a.max(low);
        let end = run_end(self.positions, i + 1, first + LONGEST);
        Stretch {
            first: first as u64,
            count: (end - first) as u64,
            walks: Channels::begin(self.values, i, g, 1, first - a),
        }
    }

    // The stretch from `first` up to the position at a place, where all locations have the color of stop i.
    fn flat_stretch(self, i: usize, first: u32, place: usize) -> Stretch
        requires { Flat self.positions.now i first place }
        ensures { Stretched (entry_of self.entry.positions.now self.entry.values.now) result × (result.first ≡ first) }
    {
        let end = run_end(self.positions, place, first + LONGEST);
        Stretch {
            first: first as u64,
            count: (end - first) as u64,
            walks: Channels::stay(self.values, i),
        }
    }

    // The stretch that the biased location `at` is in, from `low` on, or its first locations where there are too many; one of no locations in a gap that is
    // too long.
    pub fn stretch_at(self, at: u32, low: u32) -> Stretch
        requires { (low ≤ at) × (at ≤ twice_bias) }
        ensures { Stretched (entry_of self.entry.positions.now self.entry.values.now) result × Near self.entry.positions.now at low result }
    {
        let place = place_above(self.positions, 0, at);
        if place == 0 {
            return self.flat_stretch(0, low, 0);
        }
        if place == self.positions.len() {
            let i = place - 1;
            return self.flat_stretch(i, low.max(self.positions[i]), place);
        }
        self.stretch_between(place - 1, at, low)
    }
}
