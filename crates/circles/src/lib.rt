// The circle of a radial gradient in the text.
#![tactic(auto)]

ghost use Rattle.std.specs.Prelude.{◌≡◌};
ghost use Rattle.text.specs.Text.{after_gap};
ghost use Rattle.text.specs.View.{view};
ghost use Rattle.tokens.specs.Cut.{cut};
ghost use Rattle.circles.specs.Position.{coordinate_of, part_of, across_at, down_at, as_across, as_down, is_keyword, one_part, paired, two_parts, second_of, position_of};
ghost use Rattle.circles.specs.Circle.{extent_of, length_of, size_of, circle_first, size_first, circle_of, at_of, radial_of};

use gradient::{Coordinate, Extent, Horizontal, Shape, Size, Vertical};
use text::word_for;
use tokens::Unit;

// A part of a position: a word for one axis or for either, or a length or percentage.
#[derive(Clone, Copy, Debug, PartialEq, Eq)]
pub enum Part {
    Across(Horizontal),
    Down(Vertical),
    Center,
    At(Coordinate),
}

// Where a circle's center is.
#[derive(Clone, Copy, Debug, PartialEq, Eq)]
pub struct Place {
    pub x: Coordinate,
    pub y: Coordinate,
}

const MIDDLE: Coordinate = Coordinate::Percentage(50000);

// ---- the position of a circle's center

// Kept: a match over the units, as in the readings of a size, a color stop's position and an angle. A method that gives the value in one unit
// serves two of the four, where it saves one line.
#[tactic(auto, unfolding(crate::specs::Position::coordinate_of))]
fn read_coordinate(s: &[u8]) -> Option<(Coordinate, &[u8])>
    ensures { view result ≡ coordinate_of cut s.now }
{
    let (n, rest) = tokens::read_number(s)?;
    match n.unit {
        Unit::Length => Some((Coordinate::Length(n.value), rest)),
        Unit::Percentage => Some((Coordinate::Percentage(n.value), rest)),
        Unit::Angle => None,
    }
}

#[tactic(auto, unfolding(crate::specs::Position::part_of))]
fn read_part(s: &[u8]) -> Option<(Part, &[u8])>
    ensures { view result ≡ part_of cut s.now }
{
    if let Some((a, rest)) = directions::read_horizontal(s) {
        return Some((Part::Across(a), rest));
    }
    if let Some((v, rest)) = directions::read_vertical(s) {
        return Some((Part::Down(v), rest));
    }
    if let Some(found) = word_for(s, b"center", Part::Center) {
        return Some(found);
    }
    let (x, rest) = read_coordinate(s)?;
    Some((Part::At(x), rest))
}

// Kept: a function for each axis, here and below: crate gradient names the sides of the axes by two enums, and a trait over both takes two bodies as well.
fn across_at(a: Horizontal) -> Coordinate
    ensures { result ≡ across_at a }
{
    match a {
        Horizontal::Left => Coordinate::Percentage(0),
        Horizontal::Right => Coordinate::Percentage(100000),
    }
}

fn down_at(v: Vertical) -> Coordinate
    ensures { result ≡ down_at v }
{
    match v {
        Vertical::Top => Coordinate::Percentage(0),
        Vertical::Bottom => Coordinate::Percentage(100000),
    }
}

// A part taken along one axis, where it can be.
fn as_across(p: Part) -> Option<Coordinate>
    ensures { result ≡ as_across p }
{
    match p {
        Part::Across(a) => Some(across_at(a)),
        Part::Down(_) => None,
        Part::Center => Some(MIDDLE),
        Part::At(x) => Some(x),
    }
}

fn as_down(p: Part) -> Option<Coordinate>
    ensures { result ≡ as_down p }
{
    match p {
        Part::Across(_) => None,
        Part::Down(v) => Some(down_at(v)),
        Part::Center => Some(MIDDLE),
        Part::At(x) => Some(x),
    }
}

fn is_keyword(p: Part) -> bool
    ensures { result ≡ is_keyword p }
{
    !matches!(p, Part::At(_))
}

fn one_part(p: Part) -> Place
    ensures { result ≡ one_part p }
{
    match p {
        Part::Across(a) => Place {
            x: across_at(a),
            y: MIDDLE,
        },
        Part::Down(v) => Place {
            x: MIDDLE,
            y: down_at(v),
        },
        Part::Center => Place {
            x: MIDDLE,
            y: MIDDLE,
        },
        Part::At(x) => Place { x, y: MIDDLE },
    }
}

fn pair_up(x: Option<Coordinate>, y: Option<Coordinate>) -> Option<Place>
    ensures { result ≡ paired x y }
{
    Some(Place { x: x?, y: y? })
}

// Two parts taken together, where they can be.
fn two_parts(a: Part, b: Part) -> Option<Place>
    ensures { result ≡ two_parts a b }
{
    let in_order = pair_up(as_across(a), as_down(b));
    if in_order.is_none() && is_keyword(a) && is_keyword(b) {
        return pair_up(as_across(b), as_down(a));
    }
    in_order
}

// White space and a second part, after the part a.
#[tactic(auto, unfolding(crate::specs::Position::second_of))]
fn second_part(s: &[u8], a: Part) -> Option<(Place, &[u8])>
    ensures { view result ≡ after_gap (second_of cut a) s.now }
{
    let (b, rest) = read_part(text::gap(s)?)?;
    Some((two_parts(a, b)?, rest))
}

#[tactic(auto, unfolding(crate::specs::Position::position_of))]
fn read_position(s: &[u8]) -> Option<(Place, &[u8])>
    ensures { view result ≡ position_of cut s.now }
{
    let (a, rest) = read_part(s)?;
    Some(second_part(rest, a).unwrap_or((one_part(a), rest)))
}

// ---- the circle of a radial gradient

fn read_extent(s: &[u8]) -> Option<(Extent, &[u8])>
    ensures { view result ≡ extent_of s.now }
{
    word_for(s, b"closest-side", Extent::ClosestSide)
        .or(word_for(s, b"closest-corner", Extent::ClosestCorner))
        .or(word_for(s, b"farthest-side", Extent::FarthestSide))
        .or(word_for(s, b"farthest-corner", Extent::FarthestCorner))
}

#[tactic(auto, unfolding(crate::specs::Circle::length_of))]
fn read_length(s: &[u8]) -> Option<(Size, &[u8])>
    ensures { view result ≡ length_of cut s.now }
{
    let (n, rest) = tokens::read_number(s)?;
    match n.unit {
        Unit::Length => Some((Size::Length(n.value), rest)),
        Unit::Percentage | Unit::Angle => None,
    }
}

#[tactic(auto, unfolding(crate::specs::Circle::size_of))]
fn read_size(s: &[u8]) -> Option<(Size, &[u8])>
    ensures { view result ≡ size_of cut s.now }
{
    match read_extent(s) {
        Some((e, rest)) => Some((Size::Extent(e), rest)),
        None => read_length(s),
    }
}

#[tactic(auto, unfolding(crate::specs::Circle::circle_first))]
fn read_circle_first(s: &[u8]) -> Option<(Size, &[u8])>
    ensures { view result ≡ circle_first cut s.now }
{
    let rest = text::keyword(s, b"circle")?;
    let size = text::gap(rest).and_then(read_size);
    Some(size.unwrap_or((Size::Extent(Extent::FarthestCorner), rest)))
}

#[tactic(auto, unfolding(crate::specs::Circle::size_first))]
fn read_size_first(s: &[u8]) -> Option<(Size, &[u8])>
    ensures { view result ≡ size_first cut s.now }
{
    let (size, rest) = read_size(s)?;
    word_for(text::gap(rest)?, b"circle", size)
}

#[tactic(auto, unfolding(crate::specs::Circle::circle_of))]
fn read_circle(s: &[u8]) -> Option<(Size, &[u8])>
    ensures { view result ≡ circle_of cut s.now }
{
    read_circle_first(s)
        .or_else(|| read_size_first(s))
        .or_else(|| read_length(s))
}

#[tactic(auto, unfolding(crate::specs::Circle::at_of))]
fn read_at(s: &[u8]) -> Option<(Place, &[u8])>
    ensures { view result ≡ at_of cut s.now }
{
    let rest = text::keyword(text::gap(s)?, b"at")?;
    read_position(text::gap(rest)?)
}

#[tactic(auto, unfolding(crate::specs::Circle::radial_of))]
pub fn read_radial(s: &[u8]) -> Option<(Shape, &[u8])>
    ensures { view result ≡ radial_of cut s.now }
{
    let (size, rest) = read_circle(s)?;
    let (place, rest) = read_at(rest).unwrap_or((
        Place {
            x: MIDDLE,
            y: MIDDLE,
        },
        rest,
    ));
    Some((Shape::Circle(size, place.x, place.y), rest))
}
