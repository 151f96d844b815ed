// A ramp: the color of every location, in one lent slice of words. Its head holds the stops: their number, the first location of the table, whether they
// are repeated, room for 16 positions and for 64 values. The rest is the table, one packed color for each unit; it may be empty. Only this crate knows the
// order of the words.
#![tactic(auto)]

ghost use Rattle.std.specs.Prelude.{◌≡◌, true, List, map, ℕ, ◌+◌, ◌-◌, ◌*◌, ◌≤◌, ◌<◌, length, get_or, take, set};
ghost use Rattle.numbers.specs.Biased.{bias, twice_bias};
ghost use Rattle.stops.specs.Bytes.{AllBytes};
ghost use Rattle.stops.specs.Check.{placed_of};
ghost use Rattle.stops.specs.declared.PlacedStop.{PlacedStop};
ghost use Rattle.color.specs.Stop.{stop_of};
ghost use Rattle.color.specs.Paint.{paint_of};
ghost use Rattle.color.specs.Numbers.{Lendable};
ghost use Rattle.walk.specs.Walk.{most_steps};
ghost use Rattle.ramp.specs.Ramp.{most_stops, head_size, location_limit, positions_in, values_in, repeats_in, period_in, table_in, base_in, color_in, Spread, Stops, Ramp, Holds, Made, Like, Held, Biased};

use repeats::RepeatedStops;
use stops::PlacedStops;
use table::{LentStops, Stretch};

// The word that is the number of stops.
const COUNT: usize = 0;

// The word that is the table's first location.
const BASE: usize = 1;

// The word that is 1 where the stops are repeated, and else 0.
// Kept: a ramp is one slice of words in fixed memory, of a size that its caller chooses.
const REPEATS: usize = 2;

// The first word of the positions.
const POSITIONS: usize = 4;

// The first word of the values.
const VALUES: usize = 20;

// From this location on there are no stretches.
const FAR: u64 = 16777216;

// The words of the head: the table comes after them.
pub const HEAD: usize = 84;

// ---- what a ramp holds

fn count(ramp: &[u32]) -> usize
    requires { Stops ramp.now }
    ensures { (result ≡ get_or ramp.now 0 0) × (result ≤ most_stops) }
{
    ramp[COUNT] as usize
}

fn positions(ramp: &[u32]) -> &[u32]
    requires { Stops ramp.now }
    ensures { result.now ≡ positions_in ramp.now }
{
    let e = POSITIONS + count(ramp);
    &ramp[POSITIONS..e]
}

fn values(ramp: &[u32]) -> &[u32]
    requires { Stops ramp.now }
    ensures { result.now ≡ values_in ramp.now }
{
    let e = VALUES + 4 * count(ramp);
    &ramp[VALUES..e]
}

// The stops.
fn lent_stops(ramp: &[u32]) -> LentStops<'_>
    requires { Stops ramp.now }
    ensures { (result.positions.now ≡ positions_in ramp.now) × (result.values.now ≡ values_in ramp.now) }
{
    LentStops {
        positions: positions(ramp),
        values: values(ramp),
    }
}

// The stops, where they are repeated.
fn repeated_stops(ramp: &[u32]) -> RepeatedStops<'_>
    requires { Stops ramp.now × (repeats_in ramp.now ≡ true) }
    ensures { (result.stops.positions.now ≡ positions_in ramp.now) × (result.stops.values.now ≡ values_in ramp.now) }
{
    RepeatedStops {
        stops: lent_stops(ramp),
    }
}

// Whether the stops are repeated.
pub fn is_repeated(ramp: &[u32]) -> bool
    requires { Stops ramp.now }
    ensures { result ≡ repeats_in ramp.now }
{
    ramp[REPEATS] == 1
}

// The period of stops that are repeated.
pub fn period(ramp: &[u32]) -> u32
    requires { Stops ramp.now × (repeats_in ramp.now ≡ true) }
    ensures { (result ≡ period_in ramp.now) × (0 < result) }
{
    let p = positions(ramp);
    p[p.len() - 1] - p[0]
}

// Whether all locations have one color: there is one stop.
pub fn is_one_color(ramp: &[u32]) -> bool
    requires { Stops ramp.now }
    ensures { result ≡ true → (s t : ℕ) → color_in ramp.now s ≡ color_in ramp.now t }
{
    count(ramp) == 1
}

// The table.
pub fn table_of(ramp: &[u32]) -> &[u32]
    requires { Stops ramp.now }
    ensures { result.now ≡ table_in ramp.now }
{
    &ramp[HEAD..]
}

// The table's first location.
pub fn base_of(ramp: &[u32]) -> u32
    requires { Stops ramp.now }
    ensures { result ≡ base_in ramp.now }
{
    ramp[BASE]
}

// ---- the color of a location

// From the stops.
pub fn color_by_stops(ramp: &[u32], s: u64) -> u32
    requires { Stops ramp.now × (s < location_limit) }
    ensures { result ≡ color_in ramp.now s }
{
    let at = numbers::WIDE_BIAS + s;
    if is_repeated(ramp) {
        return repeated_stops(ramp).color_of(at);
    }
    lent_stops(ramp).color_of(at)
}

// From the table, too, where stops that are repeated have the same color there, else from the stops.
fn color_past(ramp: &[u32], s: u64) -> u32
    requires { Ramp ramp.now × (s < location_limit) × (base_in ramp.now ≤ s) }
    ensures { result ≡ color_in ramp.now s }
{
    if is_repeated(ramp) {
        let k = ((s - (base_of(ramp) as u64)) % (period(ramp) as u64)) as usize;
        let t = table_of(ramp);
        if k < t.len() {
            return t[k];
        }
    }
    color_by_stops(ramp, s)
}

// From the table, or as well as can be where the table does not reach.
pub fn color(ramp: &[u32], s: u64) -> u32
    requires { Ramp ramp.now × (s < location_limit) }
    ensures { result ≡ color_in ramp.now s }
{
    let t = table_of(ramp);
    let base = base_of(ramp) as u64;
    if s < base {
        return color_by_stops(ramp, s);
    }
    let k = (s - base) as usize;
    if k < t.len() {
        return t[k];
    }
    color_past(ramp, s)
}

// The stretch that a biased location is in, from the location 0 on, or one of no locations.
fn biased_stretch(ramp: &[u32], at: u32) -> Stretch
    requires { Stops ramp.now × (bias ≤ at) × (at ≤ twice_bias) }
    ensures { Biased ramp.now result }
{
    if is_repeated(ramp) {
        return repeated_stops(ramp).stretch_at(at, numbers::BIAS);
    }
    lent_stops(ramp).stretch_at(at, numbers::BIAS)
}

// The stretch of locations that s is in, or one of no locations.
pub fn stretch_at(ramp: &[u32], s: u64) -> Stretch
    requires { Stops ramp.now }
    ensures { Held ramp.now result }
{
    if FAR <= s {
        return table::no_stretch();
    }
    let t = biased_stretch(ramp, numbers::BIAS + (s as u32));
    table::moved(t, numbers::WIDE_BIAS, 0)
}

// ---- making a ramp

// Fills t with the colors of the locations from `base` on, `stride` units apart.
pub fn fill_spaced(t: &mut [u32], ramp: &[u32], base: u32, stride: u32)
    requires { Stops ramp.now × (0 < stride) × (base + length t.old * stride ≤ bias) × (length t.old < most_steps) }
    ensures { Spread (color_in ramp.now) base stride t.new × (length t.new ≡ length t.old) }
{
    let first = numbers::BIAS + base;
    if is_repeated(ramp) {
        repeated_stops(ramp).fill_spaced(t, first, stride);
    } else {
        lent_stops(ramp).fill_spaced(t, first, stride);
    }
}

// Writes placed stops into the head, not repeated.
fn store_stops(ramp: &mut [u32], p: PlacedStops)
    requires { Lendable p × (0 < p.count) × (head_size ≤ length ramp.old) }
    ensures { Holds (placed_of p) ramp.new × (get_or ramp.new 0 0 ≡ p.count) }
{
    ramp[COUNT] = p.count;
    ramp[REPEATS] = 0;
    color::store_positions(ramp, POSITIONS, p);
    color::store_values(ramp, VALUES, p);
}

// Lets the stops be repeated; where their period is 0, there is one stop with their average color in place of them.
fn repeat(ramp: &mut [u32])
    requires { (1 < get_or ramp.old 0 0) × Stops ramp.old }
    ensures { (l : List PlacedStop) → Holds l ramp.old → Made (paint_of true (map stop_of l)) ramp.new }
{
    let n = count(ramp);
    if ramp[POSITIONS] < ramp[POSITIONS + (n - 1)] {
        ramp[REPEATS] = 1;
        return;
    }
    let c = color::average_color(values(ramp), n);
    ramp[COUNT] = 1;
    color::store_bytes(ramp, VALUES, c);
}

// Writes placed stops into the head, as a picture that repeats them or does not is colored. The table stays as it is.
pub fn set_stops(ramp: &mut [u32], p: PlacedStops, repeating: bool)
    requires { Lendable p × (1 < p.count) × (head_size ≤ length ramp.old) }
    ensures { Made (paint_of repeating (map stop_of (placed_of p))) ramp.new × AllBytes (placed_of p) }
{
    store_stops(ramp, p);
    if repeating {
        repeat(ramp);
    }
}

// Copies the head of another ramp, with `base` as the table's first location.
fn set_head(ramp: &mut [u32], stops: &[u32], base: u32)
    requires { (head_size ≤ length stops.now) × (head_size ≤ length ramp.old) }
    ensures { (take head_size ramp.new ≡ set (take head_size stops.now) 1 base) × (length ramp.new ≡ length ramp.old) }
{
    ramp[..HEAD].copy_from_slice(&stops[..HEAD]);
    ramp[BASE] = base;
}

// Makes a ramp with the stops of another and a table of the colors from `base` on.
pub fn set_table(ramp: &mut [u32], stops: &[u32], base: u32)
    requires { Stops stops.now × (head_size ≤ length ramp.old) × (base + length ramp.old ≤ bias) × (length ramp.old < most_steps) }
    ensures { Like stops.now ramp.new }
{
    set_head(ramp, stops, base);
    fill_spaced(&mut ramp[HEAD..], stops, base, 1);
}
