// Placed stops as bytes: their one layout, and what a slice of bytes is taken for.
#![tactic(auto)]

ghost use Rattle.std.specs.Prelude.{◌≡◌, ◌+◌, ◌≤◌, ◌<◌, length};
ghost use Rattle.picture.specs.Picture.{padded, patched};
ghost use Rattle.words.specs.Word.{equal};
ghost use Rattle.stopslayout.specs.Words.{stop_bytes, placed_layout_of};
ghost use Rattle.stopslayout.specs.Taken.{color_from, placed_stop_at, placed_at, taken_stops, taken_stops_of};

use gradient::Color;
use replies::Refusal;
use std::array;
use stops::{PlacedStop, PlacedStops};

// The bytes of placed stops.
pub const SIZE: usize = 132;

// Stores a place of the layout from `at` on.
fn put_stop(out: &mut [u8], at: usize, s: PlacedStop)
    requires { at + 8 ≤ length out.old }
    ensures { out.new ≡ patched out.old at (stop_bytes s) }
{
    let c = s.color;
    picture::put(out, at, c.red, c.green, c.blue, c.alpha);
    words::put_word(out, at + 4, words::bits(s.position));
}

// Writes the layout of placed stops, and zeros after it.
pub fn write(p: PlacedStops, out: &mut [u8])
    requires { 132 ≤ length out.old }
    ensures { out.new ≡ padded (length out.old) (placed_layout_of p) }
{
    picture::put(out, 0, (p.count % 256) as u8, 0, 0, 0);
    for (place, s) in p.stops.iter().enumerate() {
        put_stop(out, 4 + 8 * place, *s);
    }
    picture::clear_from(out, SIZE);
}

fn color_from(s: &[u8], at: usize) -> Color
    requires { at < 1024 }
    ensures { result ≡ color_from s.now at }
{
    Color {
        red: words::byte_at(s, at),
        green: words::byte_at(s, at + 1),
        blue: words::byte_at(s, at + 2),
        alpha: words::byte_at(s, at + 3),
    }
}

fn stop_at(s: &[u8], i: usize) -> PlacedStop
    requires { i < 16 }
    ensures { result ≡ placed_stop_at s.now i }
{
    PlacedStop {
        color: color_from(s, 4 + 8 * i),
        position: words::signed(words::word_at(s, 8 + 8 * i)),
    }
}

// The placed stops that a slice reads as, whatever stands in it.
fn placed_at(s: &[u8]) -> PlacedStops
    ensures { result ≡ placed_at s.now }
{
    PlacedStops {
        count: u32::from(words::byte_at(s, 0)),
        stops: array::from_fn(|i| stop_at(s, i)),
    }
}

// Whether a slice is the layout of placed stops, which is written anew and compared.
fn is_layout(s: &[u8], p: PlacedStops) -> bool
    ensures { result ≡ equal s.now (placed_layout_of p) }
{
    let mut own = [0u8; SIZE];
    write(p, &mut own);
    words::same(s, &own)
}

// Takes placed stops from their layout: a slice is read whatever stands in it, and compared with the layout of what it reads as.
pub fn take(s: &[u8]) -> Result<PlacedStops, Refusal>
    ensures { taken_stops result ≡ taken_stops_of s.now }
{
    let p = placed_at(s);
    if !is_layout(s, p) {
        return Err(Refusal::Malformed);
    }
    stops::check_placed(p)?;
    Ok(p)
}
