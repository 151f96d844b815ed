// Random numbers from seeds, and random gradients, boxes and rows of boxes made of them. A seed gives the same ones each time.
#![tactic(auto)]

ghost use Rattle.std.specs.Prelude.{◌<◌, ◌^◌, length};

use gradient::{
    Color, Coordinate, Direction, Extent, Gradient, Horizontal, Position, Shape, Side, Size, Stop,
    Vertical,
};
use std::fmt;

// The most pixels of a picture that the buffers hold.
const MOST_PIXELS: usize = 65536;

// ---- random numbers

fn folded(x: u32) -> u32 {
    x ^ (x >> 16)
}

fn stir(x: u32) -> u32 {
    folded(x).wrapping_mul(73244475)
}

fn scramble(x: u32) -> u32 {
    folded(stir(stir(x)))
}

// A seed made of two.
pub fn seed_of(a: u32, b: u32) -> u32 {
    scramble(a ^ scramble(b.wrapping_add(1)))
}

// The random number below n that a seed has under a name.
fn roll(seed: u32, name: u32, n: u32) -> u32
    requires { 0 < n }
    ensures { result < n }
{
    seed_of(seed, name) % n
}

// The one of `all` that a seed has under a name.
fn pick<T: Copy>(seed: u32, name: u32, all: &[T]) -> T
    requires { (0 < length all.now) × (length all.now < 2 ^ 32) }
{
    all[roll(seed, name, all.len() as u32) as usize]
}

// x or -x.
fn either_sign(seed: u32, x: u32) -> i32 {
    let n = x.cast_signed();
    if roll(seed, 1000, 2) == 0 {
        n
    } else {
        n.wrapping_neg()
    }
}

// ---- random shapes

// A kind of shape.
#[derive(Clone, Copy, Debug, PartialEq, Eq)]
pub enum Kind {
    Level,
    Upright,
    Corner,
    Diagonal,
    Angle,
    Centered,
    Halfway,
    Aside,
    Anywhere,
    Tiny,
}

impl Kind {
    // All kinds, in the order of their numbers.
    pub const ALL: [Kind; 10] = [
        Kind::Level,
        Kind::Upright,
        Kind::Corner,
        Kind::Diagonal,
        Kind::Angle,
        Kind::Centered,
        Kind::Halfway,
        Kind::Aside,
        Kind::Anywhere,
        Kind::Tiny,
    ];

    fn shape(self, seed: u32) -> Shape {
        match self {
            Kind::Level => side(seed, &[Side::Right, Side::Left]),
            Kind::Upright => side(seed, &[Side::Bottom, Side::Top]),
            Kind::Corner => corner(seed),
            Kind::Diagonal => diagonal(seed),
            Kind::Angle => angle(seed),
            Kind::Centered => centered(seed),
            Kind::Halfway => halfway(seed),
            Kind::Aside => aside(seed),
            Kind::Anywhere => anywhere(seed),
            Kind::Tiny => tiny(seed),
        }
    }
}

// The kind with a number. Any number is taken: those past the last are the last's.
impl From<u32> for Kind {
    fn from(number: u32) -> Kind {
        Kind::ALL[number.min(9) as usize]
    }
}

impl fmt::Display for Kind {
    fn fmt<W: fmt::Write>(&self, f: &mut fmt::Formatter<W>) -> fmt::Result {
        f.write_str(match self {
            Kind::Level => "to right, to left",
            Kind::Upright => "to bottom, to top",
            Kind::Corner => "to a corner",
            Kind::Diagonal => "45deg, 135deg, 225deg, 315deg",
            Kind::Angle => "any angle",
            Kind::Centered => "circle at 50% 50%",
            Kind::Halfway => "circle on half pixels",
            Kind::Aside => "circle in the box",
            Kind::Anywhere => "circle at any place, to 8192px and 1000%",
            Kind::Tiny => "circle of no radius, or less than a pixel",
        })
    }
}

// To one of some sides.
fn side(seed: u32, sides: &[Side]) -> Shape
    requires { (0 < length sides.now) × (length sides.now < 2 ^ 32) }
{
    Shape::Linear(Direction::Side(pick(seed, 0, sides)))
}

fn corner(seed: u32) -> Shape {
    let (v, h) = pick(
        seed,
        0,
        &[
            (Vertical::Top, Horizontal::Left),
            (Vertical::Top, Horizontal::Right),
            (Vertical::Bottom, Horizontal::Left),
            (Vertical::Bottom, Horizontal::Right),
        ],
    );
    Shape::Linear(Direction::Corner(v, h))
}

// 45 degrees and all that is a multiple of 90 degrees from it.
fn diagonal(seed: u32) -> Shape {
    Shape::Linear(Direction::Angle(either_sign(seed, 45000 + 90000 * roll(seed, 0, 40))))
}

fn angle(seed: u32) -> Shape {
    Shape::Linear(Direction::Angle(either_sign(seed, 250 * roll(seed, 0, 14401))))
}

fn size_of(seed: u32) -> Size {
    match roll(seed, 10, 6) {
        0 => Size::Extent(Extent::ClosestSide),
        1 => Size::Extent(Extent::ClosestCorner),
        2 => Size::Extent(Extent::FarthestSide),
        3 => Size::Extent(Extent::FarthestCorner),
        4 => Size::Length(roll(seed, 11, 100001).cast_signed()),
        _ => Size::Length(roll(seed, 11, 8192001).cast_signed()),
    }
}

fn centered(seed: u32) -> Shape {
    Shape::Circle(
        size_of(seed),
        Coordinate::Percentage(50000),
        Coordinate::Percentage(50000),
    )
}

// Centers in the middle of pixels, in the middle of their edges, and on their corners.
fn halfway(seed: u32) -> Shape {
    Shape::Circle(
        size_of(seed),
        Coordinate::Length(either_sign(seed, 500 * roll(seed, 0, 200))),
        Coordinate::Length((500 * roll(seed, 1, 200)).cast_signed()),
    )
}

// Centers that stand anywhere in the box.
fn aside(seed: u32) -> Shape {
    Shape::Circle(
        size_of(seed),
        Coordinate::Percentage(roll(seed, 0, 100001).cast_signed()),
        Coordinate::Percentage(roll(seed, 1, 100001).cast_signed()),
    )
}

// Any length or percentage, or the farthest of them.
fn far(seed: u32) -> Coordinate {
    match roll(seed, 0, 4) {
        0 => Coordinate::Length(either_sign(seed, 8192000)),
        1 => Coordinate::Length(either_sign(seed, roll(seed, 1, 8192001))),
        2 => Coordinate::Percentage(either_sign(seed, 1000000)),
        _ => Coordinate::Percentage(either_sign(seed, roll(seed, 1, 1000001))),
    }
}

fn anywhere(seed: u32) -> Shape {
    Shape::Circle(size_of(seed), far(seed_of(seed, 2)), far(seed_of(seed, 3)))
}

// Circles of no radius, or less than a pixel.
fn tiny(seed: u32) -> Shape {
    let x = Coordinate::Length((500 * roll(seed, 0, 100)).cast_signed());
    let y = Coordinate::Percentage(roll(seed, 1, 100001).cast_signed());
    match roll(seed, 2, 3) {
        0 => Shape::Circle(Size::Extent(Extent::ClosestSide), x, Coordinate::Length(0)),
        1 => Shape::Circle(Size::Length(0), x, y),
        _ => Shape::Circle(Size::Length(roll(seed, 3, 1000).cast_signed()), x, y),
    }
}

// ---- random stops

// Where a stop stands.
#[derive(Clone, Copy, Debug, PartialEq, Eq)]
enum Style {
    // Nowhere.
    Auto,
    // Anywhere on the line.
    Percentage,
    // Often equal.
    Quarter,
    Length,
    // Within 3px.
    Near,
    FarLength,
    FarPercentage,
    // Any of those before, for each stop anew.
    Mixed,
    // Within a few units.
    Units,
}

const STYLES: [Style; 9] = [
    Style::Auto,
    Style::Percentage,
    Style::Quarter,
    Style::Length,
    Style::Near,
    Style::FarLength,
    Style::FarPercentage,
    Style::Mixed,
    Style::Units,
];

fn byte(seed: u32, name: u32) -> u8 {
    (seed_of(seed, name) % 256) as u8
}

fn color_of(opaque: bool, seed: u32) -> Color {
    Color {
        red: byte(seed, 20),
        green: byte(seed, 21),
        blue: byte(seed, 22),
        alpha: if opaque { 255 } else { byte(seed, 23) },
    }
}

fn position_of(style: Style, seed: u32) -> Position {
    match style {
        Style::Auto => Position::Auto,
        Style::Percentage => Position::Percentage(roll(seed, 30, 100001).cast_signed()),
        Style::Quarter => Position::Percentage(either_sign(seed, 25000 * roll(seed, 30, 6))),
        Style::Length => Position::Length(either_sign(seed, roll(seed, 30, 150000))),
        Style::Near => Position::Length(roll(seed, 30, 3000).cast_signed()),
        Style::FarLength => Position::Length(either_sign(seed, roll(seed, 30, 8192001))),
        Style::Units => Position::Length(roll(seed, 30, 80).cast_signed()),
        Style::FarPercentage | Style::Mixed => {
            Position::Percentage(either_sign(seed, roll(seed, 30, 1000001)))
        }
    }
}

fn stop_of(style: Style, opaque: bool, seed: u32) -> Stop {
    let style = match style {
        Style::Mixed => pick(seed, 31, &STYLES[..7]),
        other => other,
    };
    Stop {
        color: color_of(opaque, seed),
        position: position_of(style, seed),
    }
}

fn stop_count(seed: u32) -> u32 {
    if roll(seed, 40, 3) == 0 {
        2
    } else {
        2 + roll(seed, 41, 15)
    }
}

fn stops_of(style: Style, opaque: bool, n: usize, seed: u32) -> [Stop; 16] {
    let mut stops = [gradient::blank_stop(); 16];
    let mut own = seed;
    for stop in stops.iter_mut().take(n) {
        own = seed_of(own, 52);
        *stop = stop_of(style, opaque, own);
    }
    stops
}

// A gradient of a kind of shape, which may be handed over by its number.
pub fn gradient_of(kind: impl Into<Kind>, seed: u32) -> Gradient {
    let n = stop_count(seed);
    let opaque = roll(seed, 51, 2) == 0;
    Gradient {
        shape: kind.into().shape(seed),
        repeating: roll(seed, 53, 2) == 0,
        count: n,
        stops: stops_of(pick(seed, 50, &STYLES), opaque, n as usize, seed),
    }
}

// ---- random boxes

// A box, in pixels.
#[derive(Clone, Copy, Debug, PartialEq, Eq)]
pub struct Area {
    pub width: usize,
    pub height: usize,
}

// Rows of a box, from the first up to the end.
#[derive(Clone, Copy, Debug, PartialEq, Eq)]
pub struct Rows {
    pub first: usize,
    pub end: usize,
}

fn from_up_to(first: usize, end: usize) -> Rows {
    Rows { first, end }
}

impl Area {
    // Mostly all rows, else some of them, often one. Of a picture that is too large for the buffers, as many as they hold.
    pub fn rows(self, seed: u32) -> Rows
        requires { (0 < self.width) × (0 < self.height) }
    {
        let h = self.height;
        let most = MOST_PIXELS / self.width;
        let below = seed_of(seed, 70) as usize;
        if most < h {
            let a = below % (h - most);
            return from_up_to(a, a.wrapping_add(most));
        }
        let a = below % h;
        let next = a.wrapping_add(1);
        match roll(seed, 71, 8) {
            0 => from_up_to(a, next),
            1 => from_up_to(a, h),
            2 => from_up_to(0, next),
            _ => from_up_to(0, h),
        }
    }
}

// A sort of box.
#[derive(Clone, Copy, Debug, PartialEq, Eq)]
pub enum Sort {
    Small,
    Square,
    FourByThree,
    ThreeByFour,
    Multiple,
    OneRow,
    OneColumn,
    Wide,
    Tall,
    EightRows,
    TwentyFourRows,
    EightColumns,
    Screen,
    Largest,
}

impl Sort {
    // All sorts, in the order of their numbers.
    pub const ALL: [Sort; 14] = [
        Sort::Small,
        Sort::Square,
        Sort::FourByThree,
        Sort::ThreeByFour,
        Sort::Multiple,
        Sort::OneRow,
        Sort::OneColumn,
        Sort::Wide,
        Sort::Tall,
        Sort::EightRows,
        Sort::TwentyFourRows,
        Sort::EightColumns,
        Sort::Screen,
        Sort::Largest,
    ];

    pub fn area(self, seed: u32) -> Area {
        let m = 1 + roll(seed, 60, 24) as usize;
        let k = 1 + roll(seed, 61, 96) as usize;
        let (width, height) = match self {
            Sort::Small => (k, 1 + roll(seed, 62, 96) as usize),
            Sort::Square => (k, k),
            Sort::FourByThree => (4 * m, 3 * m),
            Sort::ThreeByFour => (3 * m, 4 * m),
            Sort::Multiple => (4 * m, 8 * (1 + k / 8)),
            Sort::OneRow => (3 * k, 1),
            Sort::OneColumn => (1, 3 * k),
            Sort::Wide => (300, 40),
            Sort::Tall => (40, 300),
            Sort::EightRows => (2048, 8),
            Sort::TwentyFourRows => (2048, 24),
            Sort::EightColumns => (8, 2048),
            Sort::Screen => (640, 480),
            Sort::Largest => (2048, 2048),
        };
        Area { width, height }
    }
}

// The sort with a number, likewise.
impl From<u32> for Sort {
    fn from(number: u32) -> Sort {
        Sort::ALL[number.min(13) as usize]
    }
}

impl fmt::Display for Sort {
    fn fmt<W: fmt::Write>(&self, f: &mut fmt::Formatter<W>) -> fmt::Result {
        f.write_str(match self {
            Sort::Small => "boxes to 96x96",
            Sort::Square => "squares",
            Sort::FourByThree => "boxes of 4:3",
            Sort::ThreeByFour => "boxes of 3:4",
            Sort::Multiple => "multiples of 4 by multiples of 8",
            Sort::OneRow => "one row",
            Sort::OneColumn => "one column",
            Sort::Wide => "300x40",
            Sort::Tall => "40x300",
            Sort::EightRows => "2048x8",
            Sort::TwentyFourRows => "2048x24",
            Sort::EightColumns => "8x2048",
            Sort::Screen => "rows of 640x480",
            Sort::Largest => "rows of 2048x2048",
        })
    }
}
