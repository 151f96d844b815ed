// Placed stops as a value, and which values are placed stops.
#![tactic(auto)]

ghost use Rattle.std.specs.Prelude.{◌≡◌};
ghost use Rattle.replies.specs.Refused.{reply_of};
ghost use Rattle.stops.specs.Blank.{blank_placed, no_stops, is_blank_placed};
ghost use Rattle.stops.specs.Check.{placed_of, rising, blank_past_placed, place_in, places_in, check_placed_of};

use gradient::Color;
use numbers::magnitude;
use replies::Refusal;

// A stop with its place on the gradient line, in units of 1/64 px.
#[derive(Clone, Copy, Debug, PartialEq, Eq)]
pub struct PlacedStop {
    pub color: Color,
    pub position: i32,
}

// The stops are the first `count` places of the array, and the places after them are blank.
// Kept: the count beside the array, for the same reasons as in a gradient: `check_placed` answers about other values, too.
#[derive(Clone, Copy, Debug, PartialEq, Eq)]
pub struct PlacedStops {
    pub count: u32,
    pub stops: [PlacedStop; 16],
}

impl PlacedStops {
    // The stops in their order; the first 16 where the count is above 16.
    pub fn stops(&self) -> &[PlacedStop]
        ensures { result.now ≡ placed_of self.now }
    {
        &self.stops[..(self.count as usize).min(16)]
    }
}

// What stands in an unused place.
pub fn blank_placed() -> PlacedStop
    ensures { result ≡ blank_placed }
{
    PlacedStop {
        color: Color {
            red: 0,
            green: 0,
            blue: 0,
            alpha: 0,
        },
        position: 0,
    }
}

// What stands in place of placed stops after a refusal.
pub fn no_stops() -> PlacedStops
    ensures { result ≡ no_stops }
{
    let stops = [blank_placed(); 16];
    PlacedStops { count: 0, stops }
}

#[tactic(auto, unfolding(crate::specs::Blank::is_blank_placed))]
fn is_blank_placed(s: PlacedStop) -> bool
    ensures { result ≡ is_blank_placed s }
{
    s == blank_placed()
}

fn place_in(s: PlacedStop) -> bool
    ensures { result ≡ place_in s }
{
    magnitude(s.position) <= numbers::BIAS
}

// Whether no stop is below an earlier one.
fn are_rising(p: PlacedStops) -> bool
    ensures { result ≡ rising (placed_of p) }
{
    p.stops().is_sorted_by(|a, b| a.position <= b.position)
}

// Whether every place after the stops is blank.
fn blank_past_placed(p: PlacedStops) -> bool
    ensures { result ≡ blank_past_placed p }
{
    p.stops
        .iter()
        .skip(p.count as usize)
        .all(|s| is_blank_placed(*s))
}

// Whether the position of every stop is in its range.
fn places_in(p: PlacedStops) -> bool
    ensures { result ≡ places_in p }
{
    p.stops().iter().all(|s| place_in(*s))
}

// Judges placed stops that are handed in.
#[tactic(auto, unfolding(crate::specs::Check::check_placed_of))]
pub fn check_placed(p: PlacedStops) -> Result<(), Refusal>
    ensures { reply_of result ≡ check_placed_of p }
{
    if p.count < 2 || !are_rising(p) || !blank_past_placed(p) {
        return Err(Refusal::Malformed);
    }
    if !places_in(p) {
        return Err(Refusal::OutOfRange);
    }
    if 16 < p.count {
        return Err(Refusal::TooManyStops);
    }
    Ok(())
}
