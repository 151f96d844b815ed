// The layout of a gradient: what is written for the C side, and what is taken back. docs/LAYOUT.md has the table.
#![tactic(auto)]

ghost use Rattle.std.specs.Prelude.{◌≡◌, ◌+◌, ◌*◌, ◌≤◌, ◌<◌, length};
ghost use Rattle.picture.specs.Picture.{patched, padded};
ghost use Rattle.words.specs.Word.{word_bytes, each, equal};
ghost use Rattle.layout.specs.Words.{color_word, position_unit, position_word, stop_words, side_code, corner_code, direction_code, angle_word, extent_code, size_extent, size_unit, size_word, coordinate_unit, coordinate_word, repeating_word, head_words, layout_of};
ghost use Rattle.layout.specs.Taken.{color_of, position_at, stop_of, direction_of, extent_of, size_of, coordinate_of, shape_at, stop_at, gradient_at, taken, taken_of};

use gradient::{
    Color, Coordinate, Direction, Extent, Gradient, Horizontal, Position, Shape, Side, Size, Stop,
    Vertical,
};
use replies::Refusal;
use std::array;
use words::{bits, put_word, signed, word_at};

// The bytes of a gradient.
pub const SIZE: usize = 320;

// ---- a stop

// Kept: the words of enums are made by functions and not by `From`, which could stand only in the enums' own crate, and that knows nothing of layouts.

fn color_word(c: Color) -> u32
    ensures { result ≡ color_word c }
{
    u32::from_le_bytes([c.red, c.green, c.blue, c.alpha])
}

fn position_unit(p: Position) -> u32
    ensures { result ≡ position_unit p }
{
    match p {
        Position::Auto => 0,
        Position::Length(_) => 1,
        Position::Percentage(_) => 2,
    }
}

fn position_word(p: Position) -> u32
    ensures { result ≡ position_word p }
{
    match p {
        Position::Auto => 0,
        Position::Length(t) => bits(t),
        Position::Percentage(t) => bits(t),
    }
}

// Stores a stop's place from `at` on.
fn put_stop(out: &mut [u8], at: usize, s: Stop)
    requires { at + 16 ≤ length out.old }
    ensures { out.new ≡ patched out.old at (each word_bytes (stop_words s)) }
{
    let p = s.position;
    put_word(out, at, color_word(s.color));
    put_word(out, at + 4, position_unit(p));
    put_word(out, at + 8, position_word(p));
    put_word(out, at + 12, 0);
}

// ---- the head

fn side_code(s: Side) -> u32
    ensures { result ≡ side_code s }
{
    match s {
        Side::Top => 0,
        Side::Right => 1,
        Side::Bottom => 2,
        Side::Left => 3,
    }
}

fn corner_code(v: Vertical, h: Horizontal) -> u32
    ensures { result ≡ corner_code v h }
{
    match v {
        Vertical::Top => match h {
            Horizontal::Left => 4,
            Horizontal::Right => 5,
        },
        Vertical::Bottom => match h {
            Horizontal::Left => 6,
            Horizontal::Right => 7,
        },
    }
}

fn direction_code(d: Direction) -> u32
    ensures { result ≡ direction_code d }
{
    match d {
        Direction::Side(s) => side_code(s),
        Direction::Corner(v, h) => corner_code(v, h),
        Direction::Angle(_) => 8,
    }
}

fn angle_word(d: Direction) -> u32
    ensures { result ≡ angle_word d }
{
    match d {
        Direction::Side(_) => 0,
        Direction::Corner(_, _) => 0,
        Direction::Angle(a) => bits(a),
    }
}

fn extent_code(e: Extent) -> u32
    ensures { result ≡ extent_code e }
{
    match e {
        Extent::ClosestSide => 0,
        Extent::ClosestCorner => 1,
        Extent::FarthestSide => 2,
        Extent::FarthestCorner => 3,
    }
}

fn size_extent(s: Size) -> u32
    ensures { result ≡ size_extent s }
{
    match s {
        Size::Extent(e) => extent_code(e),
        Size::Length(_) => 0,
    }
}

fn size_unit(s: Size) -> u32
    ensures { result ≡ size_unit s }
{
    match s {
        Size::Extent(_) => 0,
        Size::Length(_) => 1,
    }
}

fn size_word(s: Size) -> u32
    ensures { result ≡ size_word s }
{
    match s {
        Size::Extent(_) => 0,
        Size::Length(t) => bits(t),
    }
}

fn coordinate_unit(c: Coordinate) -> u32
    ensures { result ≡ coordinate_unit c }
{
    match c {
        Coordinate::Length(_) => 1,
        Coordinate::Percentage(_) => 2,
    }
}

fn coordinate_word(c: Coordinate) -> u32
    ensures { result ≡ coordinate_word c }
{
    match c {
        Coordinate::Length(t) => bits(t),
        Coordinate::Percentage(t) => bits(t),
    }
}

fn repeating_word(repeating: bool) -> u32
    ensures { result ≡ repeating_word repeating }
{
    u32::from(repeating)
}

// The 16 words of the head of n stops.
fn head_words(n: u32, s: Shape, repeating: bool) -> [u32; 16]
    ensures { result ≡ head_words n s repeating }
{
    let mut w = [0u32; 16];
    w[0] = n;
    w[2] = repeating_word(repeating);
    match s {
        Shape::Linear(d) => {
            w[3] = direction_code(d);
            w[4] = angle_word(d);
        }
        Shape::Circle(z, x, y) => {
            w[1] = 1;
            w[5] = size_extent(z);
            w[6] = size_unit(z);
            w[7] = size_word(z);
            w[10] = coordinate_unit(x);
            w[11] = coordinate_word(x);
            w[13] = coordinate_unit(y);
            w[14] = coordinate_word(y);
        }
    }
    w
}

// ---- a gradient

// Stores 16 words from the start on.
fn put_head(out: &mut [u8], ws: [u32; 16])
    requires { 64 ≤ length out.old }
    ensures { out.new ≡ patched out.old 0 (each word_bytes ws) }
{
    for (k, w) in ws.iter().enumerate() {
        put_word(out, 4 * k, *w);
    }
}

// Stores every place behind the head.
fn put_stops(out: &mut [u8], stops: [Stop; 16])
    requires { 320 ≤ length out.old }
    ensures { out.new ≡ patched out.old 64 (each word_bytes (each stop_words stops)) }
{
    for (place, s) in stops.iter().enumerate() {
        put_stop(out, 64 + 16 * place, *s);
    }
}

// Writes the layout of a gradient, then zeros.
pub fn write(g: Gradient, out: &mut [u8])
    requires { 320 ≤ length out.old }
    ensures { out.new ≡ padded (length out.old) (layout_of g) }
{
    let s = g.shape;
    let stops = g.stops;
    put_head(out, head_words(g.count, s, g.repeating));
    put_stops(out, stops);
    picture::clear_from(out, SIZE);
}

// ---- reading, whatever stands there

fn color_of(w: u32) -> Color
    ensures { result ≡ color_of w }
{
    let [red, green, blue, alpha] = w.to_le_bytes();
    Color {
        red,
        green,
        blue,
        alpha,
    }
}

fn position_of(u: u32, n: u32) -> Position
    ensures { result ≡ position_at u n }
{
    match u {
        1 => Position::Length(signed(n)),
        2 => Position::Percentage(signed(n)),
        _ => Position::Auto,
    }
}

fn stop_of(w: u32, u: u32, n: u32) -> Stop
    ensures { result ≡ stop_of w u n }
{
    Stop {
        color: color_of(w),
        position: position_of(u, n),
    }
}

fn direction_of(c: u32, a: u32) -> Direction
    ensures { result ≡ direction_of c a }
{
    match c {
        0 => Direction::Side(Side::Top),
        1 => Direction::Side(Side::Right),
        2 => Direction::Side(Side::Bottom),
        3 => Direction::Side(Side::Left),
        4 => Direction::Corner(Vertical::Top, Horizontal::Left),
        5 => Direction::Corner(Vertical::Top, Horizontal::Right),
        6 => Direction::Corner(Vertical::Bottom, Horizontal::Left),
        7 => Direction::Corner(Vertical::Bottom, Horizontal::Right),
        _ => Direction::Angle(signed(a)),
    }
}

fn extent_of(c: u32) -> Extent
    ensures { result ≡ extent_of c }
{
    match c {
        0 => Extent::ClosestSide,
        1 => Extent::ClosestCorner,
        2 => Extent::FarthestSide,
        _ => Extent::FarthestCorner,
    }
}

fn size_of(c: u32, u: u32, n: u32) -> Size
    ensures { result ≡ size_of c u n }
{
    match u {
        1 => Size::Length(signed(n)),
        _ => Size::Extent(extent_of(c)),
    }
}

fn coordinate_of(u: u32, n: u32) -> Coordinate
    ensures { result ≡ coordinate_of u n }
{
    match u {
        2 => Coordinate::Percentage(signed(n)),
        _ => Coordinate::Length(signed(n)),
    }
}

fn shape_at(s: &[u8]) -> Shape
    ensures { result ≡ shape_at s.now }
{
    if word_at(s, 4) == 1 {
        let z = size_of(word_at(s, 20), word_at(s, 24), word_at(s, 28));
        let x = coordinate_of(word_at(s, 40), word_at(s, 44));
        let y = coordinate_of(word_at(s, 52), word_at(s, 56));
        return Shape::Circle(z, x, y);
    }
    Shape::Linear(direction_of(word_at(s, 12), word_at(s, 16)))
}

fn stop_at(s: &[u8], i: usize) -> Stop
    requires { i < 16 }
    ensures { result ≡ stop_at s.now i }
{
    stop_of(
        word_at(s, 64 + 16 * i),
        word_at(s, 68 + 16 * i),
        word_at(s, 72 + 16 * i),
    )
}

fn gradient_at(s: &[u8]) -> Gradient
    ensures { result ≡ gradient_at s.now }
{
    Gradient {
        shape: shape_at(s),
        repeating: word_at(s, 8) == 1,
        count: word_at(s, 0),
        stops: array::from_fn(|i| stop_at(s, i)),
    }
}

// Whether a slice is the layout of a gradient, which is written anew and compared.
fn is_layout(s: &[u8], g: Gradient) -> bool
    ensures { result ≡ equal s.now (layout_of g) }
{
    let mut own = [0u8; SIZE];
    write(g, &mut own);
    words::same(s, &own)
}

// Takes a gradient from its layout: a slice is read whatever stands in it, and compared with the layout of what it reads as.
pub fn take(s: &[u8]) -> Result<Gradient, Refusal>
    ensures { taken result ≡ taken_of s.now }
{
    let g = gradient_at(s);
    if !is_layout(s, g) {
        return Err(Refusal::Malformed);
    }
    gradient::check(g)?;
    Ok(g)
}
