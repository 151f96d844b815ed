// Strips of a picture around a circle's center, colored by the table of a ramp. Each row's locations come from the two rows above. The bytes are those
// that `rows` draws, sooner.
#![tactic(auto)]

ghost use Rattle.std.specs.Prelude.{◌≡◌, List, ℕ, ◌+◌, ◌*◌, ◌≤◌, ◌<◌, length, get_or};
ghost use Rattle.line.specs.Box.{Box};
ghost use Rattle.line.specs.Location.{Rule, location_by};
ghost use Rattle.line.specs.Represented.{Near};
ghost use Rattle.picture.specs.Picture.{row, patched};
ghost use Rattle.ramp.specs.Ramp.{Entries, Ramp};
ghost use Rattle.rows.specs.Pixel.{Rows, pixel_by, ramp_pixel, strip_of};
ghost use Rattle.circleroots.specs.Squares.{LowHalves, Known, KnownAbove, InTable};
ghost use Rattle.circle.specs.Circular.{Prepared, Circular, AboveInTurn, one_more, Halved, Symmetric};

use circleroots::RowsKnown;
use line::{BiasedCenter, Line};
use rows::Strip;

// Draws row j from `at` on, pixel by pixel. `guesses` has guesses at its locations, and is left with the locations themselves.
fn draw_row(
    ramp: &[u32],
    guesses: &mut [u32],
    c: BiasedCenter,
    z: Strip,
    j: usize,
    at: usize,
    buf: &mut [u8],
)
    requires { Prepared ramp.now c z.w z.h × (j < z.h) × (z.w ≤ length guesses.old) × (at + 4 * z.w ≤ length buf.old) }
    ensures { (buf.new ≡ patched buf.old at (row (ramp_pixel ramp.now (Line.Circle c) z.w z.h) z.w j)) × Known c z.w j guesses.new }
{
    let w = z.w;
    let own = circleroots::square(c.y, j);
    let mut before = guesses[0];
    let mut last = before;
    for i in 0..w {
        let s = circleroots::location(own, c, i, j, guesses[i], before, last);
        guesses[i] = s;
        before = last;
        last = s;
        words::put_word(buf, at + 4 * i, ramp::color(ramp, u64::from(s)));
    }
}

// Draws a row of pixels from `at` on whose locations are known and in the table.
fn draw_known(t: &[u32], base: u32, known: &[u32], w: usize, at: usize, buf: &mut [u8])
    requires { InTable base (length t.now) w known.now × (w ≤ length known.now) × (at + 4 * w ≤ length buf.old) }
    ensures { (color : ℕ → ℕ) (rule : Rule) (j : ℕ) → Entries color base t.now
        → ((i : ℕ) → i < w → get_or known.now i 0 ≡ location_by rule i j)
        → buf.new ≡ patched buf.old at (row (pixel_by rule color) w j) }
{
    for i in 0..w {
        let k = (known[i] - base) as usize;
        words::put_word(buf, at + 4 * i, t[k]);
    }
}

// Draws row j from `at` on, and leaves its locations in `before`, in place of those of the row two above.
fn draw_next(
    ramp: &[u32],
    low: &[u32],
    before: &mut [u32],
    last: &[u32],
    known: RowsKnown,
    c: BiasedCenter,
    z: Strip,
    j: usize,
    at: usize,
    buf: &mut [u8],
)
    requires { Prepared ramp.now c z.w z.h × (j < z.h) × LowHalves c.x z.w low.now × (z.w ≤ length before.old) × (z.w ≤ length last.now) × (at + 4 * z.w ≤ length buf.old) × KnownAbove known c z.w j before.old last.now }
    ensures { (buf.new ≡ patched buf.old at (row (ramp_pixel ramp.now (Line.Circle c) z.w z.h) z.w j)) × Known c z.w j before.new }
{
    let t = ramp::table_of(ramp);
    let base = ramp::base_of(ramp);
    let n = t.len() as u32;
    let found = circleroots::next_row(before, last, low, known, c, z.w, j, base, n);
    if found {
        draw_known(t, base, before, z.w, at, buf);
        return;
    }
    draw_row(ramp, before, c, z, j, at, buf);
}

// The same with two lists that take turns: the locations of even rows stand in p, those of odd rows in q.
fn draw_turn(
    ramp: &[u32],
    low: &[u32],
    p: &mut [u32],
    q: &mut [u32],
    known: RowsKnown,
    c: BiasedCenter,
    z: Strip,
    j: usize,
    at: usize,
    buf: &mut [u8],
)
    requires { Prepared ramp.now c z.w z.h × (j < z.h) × LowHalves c.x z.w low.now × (z.w ≤ length p.old) × (z.w ≤ length q.old) × (at + 4 * z.w ≤ length buf.old) × AboveInTurn known c z.w j p.old q.old }
    ensures { (buf.new ≡ patched buf.old at (row (ramp_pixel ramp.now (Line.Circle c) z.w z.h) z.w j)) × AboveInTurn (one_more known) c z.w (j + 1) p.new q.new }
{
    if j % 2 == 0 {
        draw_next(ramp, low, p, q, known, c, z, j, at, buf);
    } else {
        draw_next(ramp, low, q, p, known, c, z, j, at, buf);
    }
}

// What is known of the rows above the next row, once this one is drawn.
fn one_more(known: RowsKnown) -> RowsKnown
    ensures { result ≡ one_more known }
{
    match known {
        RowsKnown::None => RowsKnown::One,
        RowsKnown::One => RowsKnown::Two,
        RowsKnown::Two => RowsKnown::Two,
    }
}

// How many columns of a strip are drawn by themselves: where the center is in the middle of them the left half, as the right half is its mirror image.
// Where the center is in the middle of the rows, too, half of these are copies already, and all columns are drawn.
fn own_columns(c: BiasedCenter, z: Strip) -> usize
    requires { Box z.w z.h × (z.b ≤ z.h) × (z.a < z.b) }
    ensures { Halved c.x z.w result }
{
    let w = z.w;
    if c.x != numbers::BIAS + 32 * (w as u32) {
        return w;
    }
    if c.y == numbers::BIAS + 32 * ((z.a + z.b) as u32) {
        return w;
    }
    (w + 1) / 2
}

// Stores the pixels from the n-th on of a row of w pixels that stands from `at` on: each is its mirror image.
fn mirror(buf: &mut [u8], at: usize, w: usize, n: usize)
    requires { (w ≤ 2 * n) × (n ≤ w) × (at + 4 * w ≤ length buf.old) }
    ensures { (px : ℕ → ℕ → List ℕ) (j : ℕ) (d : List ℕ) → Symmetric px w n j → buf.old ≡ patched d at (row px n j)
        → at + 4 * w ≤ length d → buf.new ≡ patched d at (row px w j) }
{
    for i in n..w {
        picture::copy_row(buf, at + 4 * (w - 1 - i), at + 4 * i, 4);
    }
}

// Draws a strip from the buffer's start. A row that is as far from the center as one above it is copied from there; of any other the first n pixels are
// drawn, and the rest are their mirror images.
fn draw_rows(
    ramp: &[u32],
    low: &[u32],
    p: &mut [u32],
    q: &mut [u32],
    c: BiasedCenter,
    z: Strip,
    n: usize,
    buf: &mut [u8],
)
    requires { Prepared ramp.now c z.w z.h × Halved c.x z.w n × LowHalves c.x n low.now × (z.w ≤ length p.old) × (z.w ≤ length q.old) × Rows z (length buf.old) }
    ensures { buf.new ≡ patched buf.old 0 (strip_of ramp.now (Line.Circle c) z) }
{
    let a = z.a;
    let b = z.b;
    let bytes = 4 * z.w;
    let part = Strip { w: n, h: z.h, a, b };
    let mut known = RowsKnown::None;
    for j in a..b {
        let o = bytes * (j - a);
        let m = circleroots::mirrored(c.y, a, j);
        if m < j {
            picture::copy_row(buf, bytes * (m - a), o, bytes);
            known = RowsKnown::None;
        } else {
            draw_turn(ramp, low, p, q, known, c, part, j, o, buf);
            mirror(buf, o, z.w, n);
            known = one_more(known);
        }
    }
}

// The same, given three lists with room for a row each.
pub fn draw(
    ramp: &[u32],
    low: &mut [u32],
    p: &mut [u32],
    q: &mut [u32],
    c: BiasedCenter,
    z: Strip,
    buf: &mut [u8],
)
    requires { Ramp ramp.now × Circular c z (length buf.old) × (z.w ≤ length low.old) × (z.w ≤ length p.old) × (z.w ≤ length q.old) }
    ensures { buf.new ≡ patched buf.old 0 (strip_of ramp.now (Line.Circle c) z) }
{
    let n = own_columns(c, z);
    circleroots::fill_low(low, n, c);
    draw_rows(ramp, low, p, q, c, z, n, buf);
}

// Of columns or rows a up to b, one of the farthest from the center's coordinate: the first or the last.
fn farthest(c: u32, a: usize, b: usize) -> usize
    requires { (a < b) × (b ≤ 2048) }
    ensures { result < b }
{
    if c <= numbers::BIAS {
        return b - 1;
    }
    let k = ((c - numbers::BIAS) / 64) as usize;
    if k + k < a + b { b - 1 } else { a }
}

// The location of pixel (i, j), without a guess.
fn at_pixel(c: BiasedCenter, z: Strip, i: usize, j: usize) -> u32
    requires { Box z.w z.h × Near c × (i < z.w) × (j < z.h) }
{
    line::location(Line::Circle(c), z.w, z.h, i, j, 0) as u32
}

// The least location of a strip.
pub fn first(c: BiasedCenter, z: Strip) -> u32
    requires { Box z.w z.h × Near c × (z.a < z.b) × (z.b ≤ z.h) }
{
    let i = circleroots::nearest(c.x, 0, z.w);
    let j = circleroots::nearest(c.y, z.a, z.b);
    at_pixel(c, z, i, j)
}

// A location of a strip that is close to the greatest.
pub fn last(c: BiasedCenter, z: Strip) -> u32
    requires { Box z.w z.h × Near c × (z.a < z.b) × (z.b ≤ z.h) }
{
    at_pixel(c, z, farthest(c.x, 0, z.w), farthest(c.y, z.a, z.b))
}
