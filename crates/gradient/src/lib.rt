// The gradient as a value, and which values are gradients. Document 01 calls it a chart. Every number is in thousandths, as the text gives it.
#![tactic(auto)]

ghost use Rattle.std.specs.Prelude.{◌≡◌};
ghost use Rattle.replies.specs.Refused.{reply_of};
ghost use Rattle.gradient.specs.Blank.{blank_stop, blank_gradient, is_clear, is_blank};
ghost use Rattle.gradient.specs.Range.{length_in, radius_in, percentage_in, angle_in, position_in, coordinate_in, direction_in, size_in, shape_in};
ghost use Rattle.gradient.specs.Check.{stops_of, blank_past, stops_in, check_of};

use numbers::magnitude;
use replies::Refusal;

#[derive(Clone, Copy, Debug, PartialEq, Eq)]
pub struct Color {
    pub red: u8,
    pub green: u8,
    pub blue: u8,
    pub alpha: u8,
}

// Where a stop stands: nowhere yet (document 01's unplaced), at a length in px, or at a percentage.
#[derive(Clone, Copy, Debug, PartialEq, Eq)]
pub enum Position {
    Auto,
    Length(i32),
    Percentage(i32),
}

#[derive(Clone, Copy, Debug, PartialEq, Eq)]
pub struct Stop {
    pub color: Color,
    pub position: Position,
}

#[derive(Clone, Copy, Debug, PartialEq, Eq)]
pub enum Side {
    Top,
    Right,
    Bottom,
    Left,
}

#[derive(Clone, Copy, Debug, PartialEq, Eq)]
pub enum Vertical {
    Top,
    Bottom,
}

#[derive(Clone, Copy, Debug, PartialEq, Eq)]
pub enum Horizontal {
    Left,
    Right,
}

// The direction of a linear gradient. An angle is in degrees.
#[derive(Clone, Copy, Debug, PartialEq, Eq)]
pub enum Direction {
    Side(Side),
    Corner(Vertical, Horizontal),
    Angle(i32),
}

#[derive(Clone, Copy, Debug, PartialEq, Eq)]
pub enum Extent {
    ClosestSide,
    ClosestCorner,
    FarthestSide,
    FarthestCorner,
}

// The size of a circle: an extent, or its radius in px.
#[derive(Clone, Copy, Debug, PartialEq, Eq)]
pub enum Size {
    Extent(Extent),
    Length(i32),
}

// One coordinate of a circle's center, from the left or from the top.
#[derive(Clone, Copy, Debug, PartialEq, Eq)]
pub enum Coordinate {
    Length(i32),
    Percentage(i32),
}

#[derive(Clone, Copy, Debug, PartialEq, Eq)]
pub enum Shape {
    Linear(Direction),
    Circle(Size, Coordinate, Coordinate),
}

// The color stops are the first `count` places of the array, and the places after them are blank. A repeating gradient is one of
// `repeating-linear-gradient()` or `repeating-radial-gradient()`.
// Kept: the count beside the array, since memory is fixed, and since `check` answers about values with another count or with places that are not blank.
#[derive(Clone, Copy, Debug, PartialEq, Eq)]
pub struct Gradient {
    pub shape: Shape,
    pub repeating: bool,
    pub count: u32,
    pub stops: [Stop; 16],
}

impl Gradient {
    // The color stops in their order; the first 16 where the count is above 16.
    pub fn stops(&self) -> &[Stop]
        ensures { result.now ≡ stops_of self.now }
    {
        &self.stops[..(self.count as usize).min(16)]
    }
}

// ---- blank

// What stands in an unused place.
pub fn blank_stop() -> Stop
    ensures { result ≡ blank_stop }
{
    Stop {
        color: Color {
            red: 0,
            green: 0,
            blue: 0,
            alpha: 0,
        },
        position: Position::Auto,
    }
}

// What stands in place of a gradient after a refusal.
pub fn blank_gradient() -> Gradient
    ensures { result ≡ blank_gradient }
{
    let stops = [blank_stop(); 16];
    Gradient {
        shape: Shape::Linear(Direction::Side(Side::Top)),
        repeating: false,
        count: 0,
        stops,
    }
}

// Whether a color is transparent black.
pub fn is_clear(c: Color) -> bool
    ensures { result ≡ is_clear c }
{
    c == blank_stop().color
}

#[tactic(auto, unfolding(crate::specs::Blank::is_blank))]
fn is_blank(s: Stop) -> bool
    ensures { result ≡ is_blank s }
{
    s == blank_stop()
}

// ---- ranges

fn length_in(t: i32) -> bool
    ensures { result ≡ length_in t }
{
    magnitude(t) <= 8192000
}

fn radius_in(t: i32) -> bool
    ensures { result ≡ radius_in t }
{
    0 <= t && length_in(t)
}

fn percentage_in(p: i32) -> bool
    ensures { result ≡ percentage_in p }
{
    magnitude(p) <= 1000000
}

fn angle_in(a: i32) -> bool
    ensures { result ≡ angle_in a }
{
    let m = magnitude(a);
    m <= 3600000 && m % 250 == 0
}

pub fn position_in(p: Position) -> bool
    ensures { result ≡ position_in p }
{
    match p {
        Position::Auto => true,
        Position::Length(t) => length_in(t),
        Position::Percentage(t) => percentage_in(t),
    }
}

fn coordinate_in(c: Coordinate) -> bool
    ensures { result ≡ coordinate_in c }
{
    match c {
        Coordinate::Length(t) => length_in(t),
        Coordinate::Percentage(t) => percentage_in(t),
    }
}

fn direction_in(d: Direction) -> bool
    ensures { result ≡ direction_in d }
{
    match d {
        Direction::Side(_) => true,
        Direction::Corner(_, _) => true,
        Direction::Angle(a) => angle_in(a),
    }
}

fn size_in(s: Size) -> bool
    ensures { result ≡ size_in s }
{
    match s {
        Size::Extent(_) => true,
        Size::Length(t) => radius_in(t),
    }
}

#[tactic(auto, unfolding(crate::specs::Range::shape_in))]
pub fn shape_in(s: Shape) -> bool
    ensures { result ≡ shape_in s }
{
    match s {
        Shape::Linear(d) => direction_in(d),
        Shape::Circle(z, x, y) => size_in(z) && (coordinate_in(x) && coordinate_in(y)),
    }
}

// ---- the check

// Whether every place after the stops is blank.
fn blank_past(g: Gradient) -> bool
    ensures { result ≡ blank_past g }
{
    g.stops.iter().skip(g.count as usize).all(|s| is_blank(*s))
}

// Whether the number of every stop is in its range.
fn stops_in(g: Gradient) -> bool
    ensures { result ≡ stops_in g }
{
    g.stops().iter().all(|s| position_in(s.position))
}

// Judges a gradient that is handed in.
#[tactic(auto, unfolding(crate::specs::Check::check_of))]
pub fn check(g: Gradient) -> Result<(), Refusal>
    ensures { reply_of result ≡ check_of g }
{
    if g.count < 2 || !blank_past(g) {
        return Err(Refusal::Malformed);
    }
    if !shape_in(g.shape) || !stops_in(g) {
        return Err(Refusal::OutOfRange);
    }
    if 16 < g.count {
        return Err(Refusal::TooManyStops);
    }
    Ok(())
}
