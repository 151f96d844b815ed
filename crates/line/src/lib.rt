// The gradient line in a box: its length, and the location of each pixel on it, in units of 1/64 px.
#![tactic(auto)]

ghost use Rattle.std.specs.Prelude.{◌≡◌, true, ◌+◌, ◌*◌, ◌≤◌, ◌<◌, nat_abs};
ghost use Rattle.numbers.specs.Biased.{bias, twice_bias, unbiased};
ghost use Rattle.root.specs.Root.{root_of};
ghost use Rattle.gradient.specs.Range.{coordinate_in, direction_in, size_in, shape_in};
ghost use Rattle.line.specs.Box.{Box};
ghost use Rattle.line.specs.Vector.{side_vector, vector, across, down, angle_vector, vector_of};
ghost use Rattle.line.specs.Location.{squared, norm, line_length, line_rule, location_by};
ghost use Rattle.line.specs.Circle.{coordinate_units, center_of, from, of_sides, of_corners, radius_of, circle_rule};
ghost use Rattle.line.specs.Line.{length_of, rule_of};
ghost use Rattle.line.specs.Represented.{is_left, is_top, vector_in, IsVector, Bounded, odd_of, center_in, IsCenter, Near, chosen, Sound, IsLine, rule_in};

use gradient::{Coordinate, Direction, Extent, Horizontal, Shape, Side, Size, Vertical};

// A vector as two sizes, with the signs beside them.
#[derive(Clone, Copy, Debug, PartialEq, Eq)]
pub struct SignedVector {
    pub x: u32,
    pub y: u32,
    pub left: bool,
    pub up: bool,
}

// A circle's center, both coordinates biased.
#[derive(Clone, Copy, Debug, PartialEq, Eq)]
pub struct BiasedCenter {
    pub x: u32,
    pub y: u32,
}

// What a pixel's location is measured along or from.
#[derive(Clone, Copy, Debug, PartialEq, Eq)]
pub enum Line {
    Straight(SignedVector),
    Circle(BiasedCenter),
}

// The vector of two signed numbers.
fn signed_vector(x: i32, y: i32) -> SignedVector
    ensures { vector_in result ≡ vector x y }
{
    SignedVector {
        x: x.unsigned_abs(),
        y: y.unsigned_abs(),
        left: x < 0,
        up: y < 0,
    }
}

fn side_vector(s: Side) -> SignedVector
    ensures { IsVector result (side_vector s) }
{
    match s {
        Side::Top => signed_vector(0, -1),
        Side::Right => signed_vector(1, 0),
        Side::Bottom => signed_vector(0, 1),
        Side::Left => signed_vector(-1, 0),
    }
}

fn is_left(h: Horizontal) -> bool
    ensures { result ≡ is_left h }
{
    matches!(h, Horizontal::Left)
}

fn is_top(v: Vertical) -> bool
    ensures { result ≡ is_top v }
{
    matches!(v, Vertical::Top)
}

fn corner_vector(v: Vertical, a: Horizontal, w: usize, h: usize) -> SignedVector
    requires { Box w h }
    ensures { IsVector result (vector (across a h) (down v w)) }
{
    SignedVector {
        x: h as u32,
        y: w as u32,
        left: is_left(a),
        up: is_top(v),
    }
}

// The vector of an angle in thousandths of a degree.
fn angle_vector(a: i32) -> SignedVector
    requires { nat_abs a ≤ bias }
    ensures { IsVector result (angle_vector a) }
{
    // 2^25 + 285,568 = 94 · 360,000: whole turns
    let q = (numbers::biased(a) + 285568) % 360000 / 250;
    let r = (q % 360) as usize;
    let near = sine::sine(r);
    let far = sine::sine(360 - r);
    match q / 360 {
        0 => SignedVector {
            x: near,
            y: far,
            left: false,
            up: true,
        },
        1 => SignedVector {
            x: far,
            y: near,
            left: false,
            up: false,
        },
        2 => SignedVector {
            x: near,
            y: far,
            left: true,
            up: false,
        },
        _ => SignedVector {
            x: far,
            y: near,
            left: true,
            up: true,
        },
    }
}

#[tactic(auto, unfolding(crate::specs::Vector::vector_of))]
pub fn direction_vector(d: Direction, w: usize, h: usize) -> SignedVector
    requires { Box w h × (direction_in d ≡ true) }
    ensures { IsVector result (vector_of d w h) }
{
    match d {
        Direction::Side(s) => side_vector(s),
        Direction::Corner(v, a) => corner_vector(v, a, w, h),
        Direction::Angle(a) => angle_vector(a),
    }
}

// a times the vector's width and b times its height.
fn weighted(a: u64, b: u64, v: SignedVector) -> u64
    requires { (a ≤ 4096) × (b ≤ 4096) }
    ensures { result ≡ a * v.x + b * v.y }
{
    let x = v.x as u64;
    let y = v.y as u64;
    a * x + b * y
}

// The greatest q whose square times the vector's norm is at most t squared. The guess affects only how long it takes.
fn on_line(t: u64, v: SignedVector, guess: u32) -> u64
    requires { (t < 4294967296) × Bounded v }
    ensures { result ≡ root_of (norm (vector_in v)) (squared t) }
{
    let x = v.x as u64;
    let y = v.y as u64;
    root::root_near(x * x + y * y, t * t, guess)
}

#[tactic(auto, unfolding(crate::specs::Location::line_length))]
fn vector_length(v: SignedVector, w: usize, h: usize) -> u64
    requires { Box w h × Bounded v }
    ensures { result ≡ line_length w h (vector_in v) }
{
    let t = 64 * weighted(w as u64, h as u64, v);
    // this guess is right where the line is horizontal or vertical
    on_line(t, v, (t / ((v.x + v.y) as u64)) as u32)
}

// Twice the distance of pixel i's middle from the side of the box that the direction starts at.
pub fn odd(i: usize, w: usize, back: bool) -> u64
    requires { (i < w) × (w ≤ 2048) }
    ensures { result ≡ odd_of back w i }
{
    if back {
        2 * ((w - 1 - i) as u64) + 1
    } else {
        2 * (i as u64) + 1
    }
}

fn vector_location(v: SignedVector, w: usize, h: usize, i: usize, j: usize, guess: u32) -> u64
    requires { Box w h × Bounded v × (i < w) × (j < h) }
    ensures { result ≡ location_by (line_rule w h (vector_in v)) i j }
{
    let a = odd(i, w, v.left);
    let b = odd(j, h, v.up);
    let s = weighted(a, b, v);
    on_line(32 * s, v, guess)
}

// A coordinate of a circle's center in units, biased, in a box of so many pixels along its axis.
fn coordinate_units(c: Coordinate, pixels: usize) -> u32
    requires { (coordinate_in c ≡ true) × (pixels ≤ 2048) }
    ensures { unbiased result ≡ coordinate_units c pixels }
{
    match c {
        Coordinate::Length(t) => numbers::length_units(t),
        Coordinate::Percentage(p) => numbers::percentage_units(p, (64 * pixels) as u32),
    }
}

pub fn circle_center(x: Coordinate, y: Coordinate, w: usize, h: usize) -> BiasedCenter
    requires { Box w h × (coordinate_in x ≡ true) × (coordinate_in y ≡ true) }
    ensures { IsCenter result (center_of x y w h) }
{
    BiasedCenter {
        x: coordinate_units(x, w),
        y: coordinate_units(y, h),
    }
}

// How far a coordinate is from m units.
fn distance(c: u32, m: u64) -> u64
    requires { (c < twice_bias) × (m ≤ 131072) }
    ensures { (result ≡ from (unbiased c) m) × (result < twice_bias) }
{
    numbers::apart(m + numbers::WIDE_BIAS, c as u64)
}

// The root of the sum of two squares. The guess affects only how long it takes.
fn hypotenuse(a: u64, b: u64, guess: u32) -> u64
    requires { (a < twice_bias) × (b < twice_bias) }
    ensures { result ≡ root_of 1 (squared a + squared b) }
{
    root::root_near(1, a * a + b * b, guess)
}

// Which of several distances an extent names.
#[derive(Clone, Copy, Debug, PartialEq, Eq)]
enum Choice {
    Closest,
    Farthest,
}

// The greater of two, or the lesser.
fn choose(choice: Choice, a: u64, b: u64) -> u64
    ensures { result ≡ chosen choice a b }
{
    match choice {
        Choice::Closest => a.min(b),
        Choice::Farthest => a.max(b),
    }
}

// The distance of a coordinate to the farther, or the closer, of the two edges across its axis.
fn edge(choice: Choice, c: u32, pixels: usize) -> u64
    requires { (c < twice_bias) × (pixels ≤ 2048) }
    ensures { (result ≡ chosen choice (from (unbiased c) 0) (from (unbiased c) (64 * pixels))) × (result < twice_bias) }
{
    let near = distance(c, 0);
    let other = distance(c, (64 * pixels) as u64);
    choose(choice, near, other)
}

fn side_radius(choice: Choice, c: BiasedCenter, w: usize, h: usize) -> u64
    requires { Box w h × Near c }
    ensures { result ≡ of_sides (chosen choice) w h (center_in c) }
{
    choose(choice, edge(choice, c.x, w), edge(choice, c.y, h))
}

fn corner_radius(choice: Choice, c: BiasedCenter, w: usize, h: usize) -> u64
    requires { Box w h × Near c }
    ensures { result ≡ root_of 1 (of_corners (chosen choice) w h (center_in c)) }
{
    hypotenuse(edge(choice, c.x, w), edge(choice, c.y, h), 0)
}

#[tactic(auto, unfolding(crate::specs::Circle::radius_of))]
fn extent_radius(e: Extent, c: BiasedCenter, w: usize, h: usize) -> u64
    requires { Box w h × Near c }
    ensures { result ≡ radius_of (Size.Extent e) w h (center_in c) }
{
    match e {
        Extent::ClosestSide => side_radius(Choice::Closest, c, w, h),
        Extent::ClosestCorner => corner_radius(Choice::Closest, c, w, h),
        Extent::FarthestSide => side_radius(Choice::Farthest, c, w, h),
        Extent::FarthestCorner => corner_radius(Choice::Farthest, c, w, h),
    }
}

fn radius(s: Size, c: BiasedCenter, w: usize, h: usize) -> u64
    requires { Box w h × Near c × (size_in s ≡ true) }
    ensures { result ≡ radius_of s w h (center_in c) }
{
    match s {
        Size::Extent(e) => extent_radius(e, c, w, h),
        Size::Length(t) => numbers::apart(numbers::length_units(t) as u64, numbers::WIDE_BIAS),
    }
}

#[tactic(auto, unfolding(crate::specs::Location::location_by))]
fn circle_location(c: BiasedCenter, i: usize, j: usize, guess: u32) -> u64
    requires { Near c × (i < 2048) × (j < 2048) }
    ensures { result ≡ location_by (circle_rule (center_in c)) i j }
{
    let dx = distance(c.x, 64 * (i as u64) + 32);
    let dy = distance(c.y, 64 * (j as u64) + 32);
    hypotenuse(dx, dy, guess)
}

// What the locations of a gradient's pixels are measured along or from.
#[tactic(auto, unfolding(crate::specs::Line::rule_of))]
pub fn line_of(s: Shape, w: usize, h: usize) -> Line
    requires { Box w h × (shape_in s ≡ true) }
    ensures { IsLine result w h (rule_of s w h) }
{
    match s {
        Shape::Linear(d) => Line::Straight(direction_vector(d, w, h)),
        Shape::Circle(_, x, y) => Line::Circle(circle_center(x, y, w, h)),
    }
}

// The length of a gradient's line, in units.
pub fn line_length(s: Shape, w: usize, h: usize) -> u32
    requires { Box w h × (shape_in s ≡ true) }
    ensures { result ≡ length_of s w h }
{
    match s {
        Shape::Linear(d) => vector_length(direction_vector(d, w, h), w, h) as u32,
        Shape::Circle(z, x, y) => radius(z, circle_center(x, y, w, h), w, h) as u32,
    }
}

// The location of pixel (i, j), in units. A guess near it saves the search; whatever it is, the answer is the same.
pub fn location(l: Line, w: usize, h: usize, i: usize, j: usize, guess: u32) -> u64
    requires { Box w h × Sound l × (i < w) × (j < h) }
    ensures { result ≡ location_by (rule_in l w h) i j }
{
    match l {
        Line::Straight(v) => vector_location(v, w, h, i, j, guess),
        Line::Circle(c) => circle_location(c, i, j, guess),
    }
}
