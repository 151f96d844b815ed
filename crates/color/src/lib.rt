// The color of a location on the gradient line, from placed stops that are lent as two slices of numbers, and how these slices are made.
// Positions and locations are biased. A stop has four values, its premultiplied channels.
#![tactic(auto)]

ghost use Rattle.std.specs.Prelude.{◌≡◌, List, [], ℕ, ◌+◌, ◌-◌, ◌*◌, ◌≤◌, ◌<◌, ◌/◌, ◌^◌, length, get_or};
ghost use Rattle.numbers.specs.Biased.{unbiased};
ghost use Rattle.numbers.specs.Fraction.{◌⁄◌, nearest};
ghost use Rattle.stops.specs.Bytes.{AllBytes};
ghost use Rattle.stops.specs.Check.{placed_of};
ghost use Rattle.picture.specs.Picture.{patched};
ghost use Rattle.color.specs.Stop.{Channel};
ghost use Rattle.color.specs.Byte.{rgba, color_at};
ghost use Rattle.color.specs.Lent.{Small, Lent, Between, stops_of, values_at, last_up_to, mix, scale, Inverse, pairs_sum, values_for};
ghost use Rattle.color.specs.Average.{equally_apart, average_of};
ghost use Rattle.color.specs.Numbers.{Lendable, positions_of, four_of, values_of};

use gradient::Color;
use numbers::biased;
use stops::PlacedStops;

// A pixel's four bytes, premultiplied.
#[derive(Clone, Copy, Debug, PartialEq, Eq)]
pub struct Rgba {
    pub red: u8,
    pub green: u8,
    pub blue: u8,
    pub alpha: u8,
}

// ---- the color of a location

// One, in fixed point with 54 binary digits after the point.
pub const ONE: u64 = 18014398509481984;

// The place, counted from 1, of the last position at or below `at`; 0 where none is.
#[tactic(auto, using(crate::proofs::Place::last_at, crate::proofs::Place::none_up_to))]
pub fn last_up_to(positions: &[u32], at: u64) -> usize
    ensures { result ≡ last_up_to positions.now at }
{
    match positions.iter().rposition(|p| u64::from(*p) <= at) {
        Some(i) => i + 1,
        None => 0,
    }
}

// A stop's own byte: P / 255 to the nearest whole, halves up.
fn stop_byte(p: u32) -> u8
    requires { p ≤ 65025 }
    ensures { result ≡ nearest (p ⁄ 255) }
{
    ((2 * p + 255) / 510) as u8
}

// The inverse, in fixed point, of what a mix between stops g units apart is divided by, rounded down.
pub fn inverse_of(g: u64) -> u64
    requires { (0 < g) × (g < 2 ^ 34) }
    ensures { (result ≡ scale / (510 * g)) × Inverse (510 * g) result }
{
    ONE / (510 * g)
}

// n / d: by d's inverse where that is near enough, else by division.
fn quotient(n: u64, d: u64, inverse: u64) -> u64
    requires { (0 < d) × (d < 2 ^ 48) × (n ≤ 256 * d) × Inverse d inverse }
    ensures { result ≡ n / d }
{
    let k = n * inverse / ONE;
    let e = k * d;
    if e <= n && n < e + d {
        return k;
    }
    n / d
}

// The byte at x units from P's stop and y from Q's. The inverse affects only how long it takes, here and below.
fn mix_byte(p: u32, q: u32, x: u32, y: u32, inverse: u64) -> u8
    requires { (p ≤ 65025) × (q ≤ 65025) × (0 < y) × Inverse (510 * (x + y)) inverse }
    ensures { result ≡ nearest (mix p q x y) }
{
    let num = (p as u64) * (y as u64) + (q as u64) * (x as u64);
    let den = 255 * ((x as u64) + (y as u64));
    quotient(2 * num + den, 2 * den, inverse) as u8
}

// The byte of number k alone.
fn stop_channel(values: &[u32], k: usize) -> u8
    requires { (k < length values.now) × Small values.now }
    ensures { result ≡ nearest (get_or values.now k 0 ⁄ 255) }
{
    stop_byte(values[k])
}

// The byte of number k mixed with number m, the same channel of the next stop.
fn mix_channel(values: &[u32], k: usize, m: usize, x: u32, y: u32, inverse: u64) -> u8
    requires { (k < length values.now) × (m < length values.now) × Small values.now × (0 < y) × Inverse (510 * (x + y)) inverse }
    ensures { result ≡ nearest (mix (get_or values.now k 0) (get_or values.now m 0) x y) }
{
    mix_byte(values[k], values[m], x, y, inverse)
}

// The bytes of stop i.
// Kept: four calls, here and below. A closure that gives the byte of channel c would have to repeat the function's `requires`, beside c < 4.
fn at_stop(values: &[u32], i: usize) -> Rgba
    requires { (4 * i + 3 < length values.now) × Small values.now }
    ensures { result ≡ rgba (λ (c : Channel). nearest (values_at values.now i c ⁄ 255)) }
{
    let k = 4 * i;
    Rgba {
        red: stop_channel(values, k),
        green: stop_channel(values, k + 1),
        blue: stop_channel(values, k + 2),
        alpha: stop_channel(values, k + 3),
    }
}

// The bytes at x units from stop i and y from the next.
fn mix_stops(values: &[u32], i: usize, x: u32, y: u32) -> Rgba
    requires { (4 * i + 7 < length values.now) × Small values.now × (0 < y) }
    ensures { result ≡ rgba (λ (c : Channel). nearest (mix (values_at values.now i c) (values_at values.now (i + 1) c) x y)) }
{
    let k = 4 * i;
    let m = 4 * (i + 1);
    let inverse = inverse_of((x as u64) + (y as u64));
    Rgba {
        red: mix_channel(values, k, m, x, y, inverse),
        green: mix_channel(values, k + 1, m + 1, x, y, inverse),
        blue: mix_channel(values, k + 2, m + 2, x, y, inverse),
        alpha: mix_channel(values, k + 3, m + 3, x, y, inverse),
    }
}

// The bytes at a location between stop i and the next.
fn between(positions: &[u32], values: &[u32], i: usize, at: u64) -> Rgba
    requires { Between positions.now values.now i at }
    ensures { result ≡ rgba (λ (c : Channel). nearest (mix (values_at values.now i c) (values_at values.now (i + 1) c)
        (at - get_or positions.now i 0) (get_or positions.now (i + 1) 0 - at))) }
{
    let x = at - (positions[i] as u64);
    let y = (positions[i + 1] as u64) - at;
    mix_stops(values, i, x as u32, y as u32)
}

// The color at a location, biased, of the placed stops that the two slices hold.
pub fn color_at(positions: &[u32], values: &[u32], at: u64) -> Rgba
    requires { Lent positions.now values.now }
    ensures { result ≡ color_at (stops_of positions.now values.now) (unbiased at) }
{
    let place = last_up_to(positions, at);
    if place == 0 {
        return at_stop(values, 0);
    }
    if place == positions.len() {
        return at_stop(values, place - 1);
    }
    between(positions, values, place - 1, at)
}

// ---- the average color

// The sum of number c of two neighbors, over all pairs of neighbors among n stops.
fn pairs_sum(values: &[u32], c: usize, n: usize) -> u32
    requires { (c < 4) × (0 < n) × (n ≤ 16) × (4 * n ≤ length values.now) × Small values.now }
    ensures { (result ≡ pairs_sum values.now c 0 (n - 1)) × (result ≤ 130050 * (n - 1)) }
{
    let mut sum: u32 = 0;
    for i in 0..n - 1 {
        sum += values[4 * i + c] + values[4 * (i + 1) + c];
    }
    sum
}

// The average of number c, P / 255, of n stops that are equally spaced, to the nearest whole, halves up.
fn average_channel(values: &[u32], c: usize, n: usize) -> u8
    requires { (c < 4) × (1 < n) × (n ≤ 16) × (4 * n ≤ length values.now) × Small values.now }
    ensures { result ≡ nearest (pairs_sum values.now c 0 (n - 1) ⁄ (2 * (n - 1) * 255)) }
{
    let pairs = (n - 1) as u32;
    ((2 * pairs_sum(values, c, n) + 510 * pairs) / (1020 * pairs)) as u8
}

// The average color of n stops that are equally spaced.
pub fn average_color(values: &[u32], n: usize) -> Rgba
    requires { (1 < n) × (n ≤ 16) × (4 * n ≤ length values.now) × Small values.now }
    ensures { (ps : List ℕ) → length ps ≡ n → result ≡ rgba (λ (c : Channel). nearest (average_of equally_apart (stops_of ps values.now) c)) }
{
    Rgba {
        red: average_channel(values, 0, n),
        green: average_channel(values, 1, n),
        blue: average_channel(values, 2, n),
        alpha: average_channel(values, 3, n),
    }
}

// ---- placed stops as lent numbers

// Stores the positions of the stops from `at` on.
pub fn store_positions(words: &mut [u32], at: usize, p: PlacedStops)
    requires { Lendable p × (at + p.count ≤ length words.old) }
    ensures { words.new ≡ patched words.old at (positions_of (placed_of p)) }
{
    for i in 0..p.count as usize {
        words[at + i] = biased(p.stops[i].position);
    }
}

fn premultiply(c: u8, a: u8) -> u32
    ensures { result ≡ c * a }
{
    u32::from(c) * u32::from(a)
}

// Stores the four values of a color from `at` on.
#[tactic(auto, unfolding(crate::specs::Stop::premultiplied))]
fn store_color(words: &mut [u32], at: usize, c: Color)
    requires { at + 4 ≤ length words.old }
    ensures { words.new ≡ patched words.old at (four_of c []) }
{
    words[at..at + 4].copy_from_slice(&[
        premultiply(c.red, c.alpha),
        premultiply(c.green, c.alpha),
        premultiply(c.blue, c.alpha),
        premultiply(255, c.alpha),
    ]);
}

// Stores the four values of a stop that has these bytes, from `at` on.
pub fn store_bytes(words: &mut [u32], at: usize, p: Rgba)
    requires { at + 4 ≤ length words.old }
    ensures { words.new ≡ patched words.old at (values_for p) }
{
    words[at..at + 4].copy_from_slice(&[
        255 * u32::from(p.red),
        255 * u32::from(p.green),
        255 * u32::from(p.blue),
        255 * u32::from(p.alpha),
    ]);
}

// Stores the values of the stops from `at` on.
pub fn store_values(words: &mut [u32], at: usize, p: PlacedStops)
    requires { (p.count ≤ 16) × (at + 4 * p.count ≤ length words.old) }
    ensures { (words.new ≡ patched words.old at (values_of (placed_of p))) × AllBytes (placed_of p) }
{
    for i in 0..p.count as usize {
        store_color(words, at + 4 * i, p.stops[i].color);
    }
}
