// From a gradient and a box to placed stops. Inside, positions are biased, and a stop that is not placed has none.
#![tactic(auto)]

ghost use Rattle.std.specs.Prelude.{◌≡◌, true, map, ℕ, ◌≤◌, ◌<◌, pos, length, take, get_or};
ghost use Rattle.numbers.specs.Biased.{twice_bias, unbiased};
ghost use Rattle.replies.specs.Refused.{reply_of};
ghost use Rattle.gradient.specs.Blank.{blank_stop};
ghost use Rattle.gradient.specs.Range.{position_in, stop_in};
ghost use Rattle.gradient.specs.Check.{Accepted};
ghost use Rattle.line.specs.Box.{Box};
ghost use Rattle.line.specs.Bounds.{longest};
ghost use Rattle.placing.specs.Spot.{spot_of};
ghost use Rattle.placing.specs.Fixup.{or_at, ends_placed, raised, between, spaced, fixup};
ghost use Rattle.placing.specs.Placed.{spots_of, placed_at, at_positions, placed_in, positions_in, listed};
ghost use Rattle.placing.specs.Reply.{place_reply, placing, place_of};
ghost use Rattle.placing.specs.Represented.{spot, Ready, Follows};

use gradient::{Gradient, Position, Stop};
use replies::Refusal;
use stops::{PlacedStop, PlacedStops};

// ---- units

// A position in units.
fn position_units(p: Position, line: u32) -> Option<u32>
    requires { (position_in p ≡ true) × (line ≤ longest) }
    ensures { spot result ≡ spot_of line p }
{
    match p {
        Position::Auto => None,
        Position::Length(t) => Some(numbers::length_units(t)),
        Position::Percentage(t) => Some(numbers::percentage_units(t, line)),
    }
}

fn stop_units(s: Stop, line: u32) -> Option<u32>
    requires { (stop_in s ≡ true) × (line ≤ longest) }
    ensures { spot result ≡ spot_of line s.position }
{
    let p = s.position;
    position_units(p, line)
}

// The positions of the first n stops.
fn list_units(stops: [Stop; 16], n: usize, line: u32) -> [Option<u32>; 16]
    requires { (n ≤ 16) × ((i : ℕ) → i < n → stop_in (get_or stops i blank_stop) ≡ true) × (line ≤ longest) }
    ensures { map spot (take n result) ≡ spots_of line (take n stops) }
{
    let mut ps = [None; 16];
    for (i, s) in stops[..n].iter().enumerate() {
        ps[i] = stop_units(*s, line);
    }
    ps
}

// ---- (a): an unplaced first stop gets 0, an unplaced last one the line length

fn or_at(p: Option<u32>, z: u32) -> Option<u32>
    ensures { spot result ≡ or_at (unbiased z) (spot p) }
{
    p.or(Some(z))
}

fn place_ends(ps: &mut [Option<u32>], line: u32)
    requires { (0 < length ps.old) × (line ≤ longest) }
    ensures { map spot ps.new ≡ ends_placed line (map spot ps.old) }
{
    let first = ps[0];
    ps[0] = or_at(first, numbers::BIAS);
    let n = ps.len() - 1;
    let last = ps[n];
    ps[n] = or_at(last, line + numbers::BIAS);
}

// ---- (b): a placed stop below the greatest earlier placed stop is raised to it

// No position is below 0, biased.
fn raise_stops(ps: &mut [Option<u32>])
    ensures { map spot ps.new ≡ raised (map spot ps.old) }
{
    let mut greatest: u32 = 0;
    for p in ps.iter_mut() {
        if let Some(u) = *p {
            greatest = greatest.max(u);
            *p = Some(greatest);
        }
    }
}

// ---- (c): the unplaced stops between two placed ones are spaced evenly

// The next placed stop, and how many unplaced ones stand before it.
#[derive(Clone, Copy, Debug, PartialEq, Eq)]
struct Next {
    at: u32,
    run: usize,
}

fn next_placed(ps: &[Option<u32>]) -> Next
    ensures { Follows ps.now result.at result.run }
{
    for (run, p) in ps.iter().enumerate() {
        if let Some(at) = *p {
            return Next { at, run };
        }
    }
    Next {
        at: numbers::BIAS,
        run: ps.len(),
    }
}

// The position m/k of the way from a to b.
fn part_way(a: u32, b: u32, m: usize, k: usize) -> u32
    requires { (a ≤ b) × (m < k) × (k ≤ 64) }
    ensures { unbiased result ≡ between (unbiased a) (unbiased b) m k }
{
    let d = numbers::round(((b - a) as u64) * (m as u64), k as u64);
    a + (d as u32)
}

// The last placed stop is at a, and the next unplaced one is the m-th after it.
fn space_stops(ps: &[Option<u32>]) -> [u32; 16]
    requires { (length ps.now ≤ 16) × Ready (pos 0) (map spot ps.now) }
    ensures { map unbiased (take (length ps.now) result) ≡ spaced (map spot ps.now) }
{
    let mut out = [0u32; 16];
    let mut a: u32 = numbers::BIAS;
    let mut m: usize = 1;
    for (i, p) in ps.iter().enumerate() {
        match *p {
            Some(u) => {
                out[i] = u;
                a = u;
                m = 1;
            }
            None => {
                let t = next_placed(&ps[i..]);
                out[i] = part_way(a, t.at, m, m + t.run);
                m += 1;
            }
        }
    }
    out
}

// ---- the whole

// Steps (a) to (c).
fn fix_up(ps: &mut [Option<u32>], line: u32) -> [u32; 16]
    requires { (0 < length ps.old) × (length ps.old ≤ 16) × (line ≤ longest) }
    ensures { map unbiased (take (length ps.old) result) ≡ fixup line (map spot ps.old) }
{
    place_ends(ps, line);
    raise_stops(ps);
    space_stops(ps)
}

fn placed_stop(s: Stop, u: u32) -> PlacedStop
    requires { u ≤ twice_bias }
    ensures { result ≡ placed_at s (unbiased u) }
{
    let color = s.color;
    PlacedStop {
        color,
        position: numbers::unbiased(u),
    }
}

// The first n stops at the first n positions.
fn attach(stops: [Stop; 16], ps: [u32; 16], n: usize) -> PlacedStops
    requires { (n ≤ 16) × ((i : ℕ) → i < n → get_or ps i 0 ≤ twice_bias) }
    ensures { result ≡ listed (at_positions (take n stops) (map unbiased (take n ps))) }
{
    let mut out = [stops::blank_placed(); 16];
    for (i, s) in stops[..n].iter().enumerate() {
        out[i] = placed_stop(*s, ps[i]);
    }
    PlacedStops {
        count: n as u32,
        stops: out,
    }
}

// The positions of a gradient's stops in a box, biased, in the first places.
fn positions_in_box(g: Gradient, w: usize, h: usize) -> [u32; 16]
    requires { Box w h × Accepted g }
    ensures { map unbiased (take g.count result) ≡ positions_in g w h }
{
    let shape = g.shape;
    let line = line::line_length(shape, w, h);
    let n = g.count as usize;
    let stops = g.stops;
    let mut ps = list_units(stops, n, line);
    fix_up(&mut ps[..n], line)
}

// The stops of a gradient, placed in a box.
pub fn place_in_box(g: Gradient, w: usize, h: usize) -> PlacedStops
    requires { Box w h × Accepted g }
    ensures { result ≡ listed (placed_in g w h) }
{
    let n = g.count as usize;
    let stops = g.stops;
    attach(stops, positions_in_box(g, w, h), n)
}

// Judges a box and a gradient.
#[tactic(auto, using(replies::proofs::Laws::refused_first, replies::proofs::Laws::done_next), unfolding(crate::specs::Reply::place_reply))]
fn place_reply(g: Gradient, w: usize, h: usize) -> Result<(), Refusal>
    ensures { reply_of result ≡ place_reply g w h }
{
    replies::box_reply(w, h)?;
    gradient::check(g)
}

// The stops of a gradient, placed in a box, where the box and the gradient are accepted.
#[tactic(auto, using(crate::proofs::Replies::ok_placed))]
pub fn place(g: Gradient, w: usize, h: usize) -> Result<PlacedStops, Refusal>
    ensures { placing result ≡ place_of g w h }
{
    place_reply(g, w, h)?;
    Ok(place_in_box(g, w, h))
}
