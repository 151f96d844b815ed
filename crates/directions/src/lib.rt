// The direction of a linear gradient in the text.
#![tactic(auto)]

ghost use Rattle.std.specs.Prelude.{◌≡◌};
ghost use Rattle.text.specs.View.{view};
ghost use Rattle.tokens.specs.Cut.{cut};
ghost use Rattle.directions.specs.Direction.{side_across, side_down, horizontal_of, vertical_of, horizontal_first, vertical_first, to_of, angle_of, direction_of};

use gradient::{Direction, Horizontal, Side, Vertical};
use text::word_for;
use tokens::Unit;

// Kept: a function for each axis, here and for the sides below: crate gradient names them by two enums, and all that these two say is their words.
#[tactic(auto, unfolding(crate::specs::Direction::horizontal_of))]
pub fn read_horizontal(s: &[u8]) -> Option<(Horizontal, &[u8])>
    ensures { view result ≡ horizontal_of s.now }
{
    word_for(s, b"left", Horizontal::Left).or_else(|| word_for(s, b"right", Horizontal::Right))
}

#[tactic(auto, unfolding(crate::specs::Direction::vertical_of))]
pub fn read_vertical(s: &[u8]) -> Option<(Vertical, &[u8])>
    ensures { view result ≡ vertical_of s.now }
{
    word_for(s, b"top", Vertical::Top).or_else(|| word_for(s, b"bottom", Vertical::Bottom))
}

// Kept: a function for each axis: crate gradient names the sides of the axes by two enums, and a trait over both takes two bodies as well.
fn side_across(a: Horizontal) -> Side
    ensures { result ≡ side_across a }
{
    match a {
        Horizontal::Left => Side::Left,
        Horizontal::Right => Side::Right,
    }
}

fn side_down(v: Vertical) -> Side
    ensures { result ≡ side_down v }
{
    match v {
        Vertical::Top => Side::Top,
        Vertical::Bottom => Side::Bottom,
    }
}

// A horizontal word, and perhaps a vertical one after it.
#[tactic(auto, unfolding(crate::specs::Direction::horizontal_first))]
fn read_horizontal_first(s: &[u8]) -> Option<(Direction, &[u8])>
    ensures { view result ≡ horizontal_first s.now }
{
    let (a, rest) = read_horizontal(s)?;
    match text::gap(rest).and_then(read_vertical) {
        Some((v, rest)) => Some((Direction::Corner(v, a), rest)),
        None => Some((Direction::Side(side_across(a)), rest)),
    }
}

// The other way round.
// Kept: one function for both orders takes two readings, the corner and the side as four functions, and is no plainer.
#[tactic(auto, unfolding(crate::specs::Direction::vertical_first))]
fn read_vertical_first(s: &[u8]) -> Option<(Direction, &[u8])>
    ensures { view result ≡ vertical_first s.now }
{
    let (v, rest) = read_vertical(s)?;
    match text::gap(rest).and_then(read_horizontal) {
        Some((a, rest)) => Some((Direction::Corner(v, a), rest)),
        None => Some((Direction::Side(side_down(v)), rest)),
    }
}

#[tactic(auto, unfolding(crate::specs::Direction::to_of))]
fn read_to(s: &[u8]) -> Option<(Direction, &[u8])>
    ensures { view result ≡ to_of s.now }
{
    let rest = text::gap(text::keyword(s, b"to")?)?;
    read_horizontal_first(rest).or_else(|| read_vertical_first(rest))
}

#[tactic(auto, unfolding(crate::specs::Direction::angle_of))]
fn read_angle(s: &[u8]) -> Option<(Direction, &[u8])>
    ensures { view result ≡ angle_of cut s.now }
{
    let (n, rest) = tokens::read_number(s)?;
    match n.unit {
        Unit::Angle => Some((Direction::Angle(n.value), rest)),
        Unit::Length | Unit::Percentage => None,
    }
}

#[tactic(auto, unfolding(crate::specs::Direction::direction_of))]
pub fn read_direction(s: &[u8]) -> Option<(Direction, &[u8])>
    ensures { view result ≡ direction_of cut s.now }
{
    read_to(s).or_else(|| read_angle(s))
}
