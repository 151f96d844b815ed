// Strips of a picture along a straight line: the same bytes as `rows` draws, faster, in tiles or, where there is no table, row by row. A row that is an
// earlier row moved sideways is copied from it.
#![tactic(auto)]

ghost use Rattle.std.specs.Prelude.{◌≡◌, true, false, ◌+◌, ◌-◌, ◌*◌, ◌≤◌, ◌<◌, length, IfSome};
ghost use Rattle.std.specs.Bool.{beq};
ghost use Rattle.line.specs.Box.{Box};
ghost use Rattle.line.specs.Represented.{Bounded};
ghost use Rattle.picture.specs.Picture.{row, strip, patched};
ghost use Rattle.ramp.specs.Ramp.{Ramp};
ghost use Rattle.rows.specs.Pixel.{Rows, ramp_pixel, strip_of};
ghost use Rattle.fixed.specs.Steps.{Steady, AlongRow};
ghost use Rattle.straight.specs.Begun.{Continued};
ghost use Rattle.straight.specs.Shift.{Straight, Copies, Stands, Next, Shifted};

use fixed::{RowLine, Steps};
use line::{Line, SignedVector};
use rows::Strip;

// The columns of a tile. A tile is so small that the first cache holds the entries that it needs.
const TILE_COLUMNS: usize = rowparts::PART;

// The rows of a tile.
const TILE_ROWS: usize = 16;

// ---- tiles

// Draws the columns from i up to i + n of a strip whose rows start at `at`.
fn draw_columns(
    ramp: &[u32],
    steps: Steps,
    v: SignedVector,
    z: Strip,
    i: usize,
    n: usize,
    at: usize,
    buf: &mut [u8],
)
    requires { Ramp ramp.now × Box z.w z.h × Steady steps v × (z.a ≤ z.b) × (z.b ≤ z.h) × (at + 4 * z.w * (z.b - z.a) ≤ length buf.old) × (i + n ≤ z.w) }
    ensures { Continued (ramp_pixel ramp.now (Line.Straight v) z.w z.h) z.w z.a z.b i (i + n) at buf.old buf.new }
{
    for j in z.a..z.b {
        let r = fixed::row_line(steps, v, z.w, z.h, j);
        let o = at + 4 * z.w * (j - z.a);
        rowparts::draw_part(ramp, r, v, z, j, i, n, o + 4 * i, buf);
    }
}

// Draws the columns from `from` up to `end` of a strip whose rows start at `at`, a tile's columns at a time.
fn draw_band(
    ramp: &[u32],
    steps: Steps,
    v: SignedVector,
    z: Strip,
    from: usize,
    end: usize,
    at: usize,
    buf: &mut [u8],
)
    requires { Ramp ramp.now × Box z.w z.h × Steady steps v × (z.a ≤ z.b) × (z.b ≤ z.h) × (at + 4 * z.w * (z.b - z.a) ≤ length buf.old) × (from ≤ end) × (end ≤ z.w) }
    ensures { Continued (ramp_pixel ramp.now (Line.Straight v) z.w z.h) z.w z.a z.b from end at buf.old buf.new }
{
    let mut i = from;
    while i < end {
        let n = TILE_COLUMNS.min(end - i);
        draw_columns(ramp, steps, v, z, i, n, at, buf);
        i += n;
    }
}

// The same, a tile's rows at a time.
pub fn draw_tiles(
    ramp: &[u32],
    steps: Steps,
    v: SignedVector,
    z: Strip,
    from: usize,
    end: usize,
    at: usize,
    buf: &mut [u8],
)
    requires { Ramp ramp.now × Box z.w z.h × Steady steps v × (z.a ≤ z.b) × (z.b ≤ z.h) × (at + 4 * z.w * (z.b - z.a) ≤ length buf.old) × (from ≤ end) × (end ≤ z.w) }
    ensures { Continued (ramp_pixel ramp.now (Line.Straight v) z.w z.h) z.w z.a z.b from end at buf.old buf.new }
{
    let mut j = z.a;
    let mut o = at;
    while j < z.b {
        let n = TILE_ROWS.min(z.b - j);
        let band = Strip {
            w: z.w,
            h: z.h,
            a: j,
            b: j + n,
        };
        draw_band(ramp, steps, v, band, from, end, o, buf);
        o += 4 * z.w * n;
        j += n;
    }
}

// Draws a strip from the buffer's start without a table, row by row.
fn draw_rows(ramp: &[u32], steps: Steps, v: SignedVector, z: Strip, buf: &mut [u8])
    requires { Ramp ramp.now × Box z.w z.h × Steady steps v × Rows z (length buf.old) }
    ensures { buf.new ≡ patched buf.old 0 (strip_of ramp.now (Line.Straight v) z) }
{
    for j in z.a..z.b {
        let r = fixed::row_line(steps, v, z.w, z.h, j);
        rowparts::draw_by_stretches(ramp, r, v, z, j, 0, z.w, 4 * z.w * (j - z.a), buf);
    }
}

// In tiles where there is a table, else row by row.
fn draw_new(ramp: &[u32], steps: Steps, v: SignedVector, z: Strip, buf: &mut [u8])
    requires { Ramp ramp.now × Box z.w z.h × Steady steps v × Rows z (length buf.old) }
    ensures { buf.new ≡ patched buf.old 0 (strip_of ramp.now (Line.Straight v) z) }
{
    if ramp::table_of(ramp).len() == 0 {
        draw_rows(ramp, steps, v, z, buf);
    } else {
        draw_tiles(ramp, steps, v, z, 0, z.w, 0, buf);
    }
}

// ---- rows that are earlier rows moved sideways

// Going down so many rows is as far along the line as going across so many columns.
#[derive(Clone, Copy, Debug, PartialEq, Eq)]
pub struct Shift {
    pub rows: usize,
    pub columns: usize,
}

// The least shift along a vector. Nothing is proved of it: a shift is tested before it is used.
pub fn shift_of(v: SignedVector) -> Option<Shift> {
    let g = numbers::common(v.x, v.y);
    if g == 0 {
        return None;
    }
    Some(Shift {
        rows: (v.x / g) as usize,
        columns: (v.y / g) as usize,
    })
}

// How many of the pixels in n rows of w are not copied.
fn new_pixels(s: Shift, w: usize, n: usize) -> usize
    requires { (w ≤ 2048) × (n ≤ 2048) × (s.rows < n) × (s.columns ≤ w) }
    ensures { (result ≡ s.rows * w + (n - s.rows) * s.columns) × (result ≤ 8388608) }
{
    s.rows * w + (n - s.rows) * s.columns
}

// The shift, if it is one along v that leaves at most half of the pixels in n rows of w to draw.
fn worthwhile(shift: Option<Shift>, v: SignedVector, w: usize, n: usize) -> Option<Shift>
    requires { Bounded v × (w ≤ 2048) × (n ≤ 2048) }
    ensures { IfSome result (λ s. Copies v s w n) }
{
    let s = shift?;
    if s.rows == 0 || s.rows >= n || s.columns > w {
        return None;
    }
    if (v.x as usize) * s.columns != (v.y as usize) * s.rows {
        return None;
    }
    if 2 * new_pixels(s, w, n) <= n * w {
        Some(s)
    } else {
        None
    }
}

// Draws row j at `at`: the earlier row, which is at `from`, without its first pixels, and then new ones.
fn draw_ahead(
    ramp: &[u32],
    v: SignedVector,
    r: RowLine,
    s: Shift,
    z: Strip,
    j: usize,
    from: usize,
    at: usize,
    buf: &mut [u8],
)
    requires { Next ramp.now v s z.w z.h j from at buf.old × AlongRow r v z.w z.h j × (beq v.left v.up ≡ true) }
    ensures { buf.new ≡ patched buf.old at (row (ramp_pixel ramp.now (Line.Straight v) z.w z.h) z.w j) }
{
    let n = z.w - s.columns;
    picture::copy_row(buf, from + 4 * s.columns, at, 4 * n);
    rowparts::draw_part(ramp, r, v, z, j, n, s.columns, at + 4 * n, buf);
}

// The same where the signs differ: new pixels, and then the earlier row without its last ones.
fn draw_behind(
    ramp: &[u32],
    v: SignedVector,
    r: RowLine,
    s: Shift,
    z: Strip,
    j: usize,
    from: usize,
    at: usize,
    buf: &mut [u8],
)
    requires { Next ramp.now v s z.w z.h j from at buf.old × AlongRow r v z.w z.h j × (beq v.left v.up ≡ false) }
    ensures { buf.new ≡ patched buf.old at (row (ramp_pixel ramp.now (Line.Straight v) z.w z.h) z.w j) }
{
    let n = z.w - s.columns;
    rowparts::draw_part(ramp, r, v, z, j, 0, s.columns, at, buf);
    picture::copy_row(buf, from, at + 4 * s.columns, 4 * n);
}

// Draws row j at `at`, from the row that is the shift's rows above it and stands at `from`.
fn draw_next(
    ramp: &[u32],
    v: SignedVector,
    steps: Steps,
    s: Shift,
    z: Strip,
    j: usize,
    from: usize,
    at: usize,
    buf: &mut [u8],
)
    requires { Next ramp.now v s z.w z.h j from at buf.old × Steady steps v }
    ensures { buf.new ≡ patched buf.old at (row (ramp_pixel ramp.now (Line.Straight v) z.w z.h) z.w j) }
{
    let r = fixed::row_line(steps, v, z.w, z.h, j);
    if v.left == v.up {
        draw_ahead(ramp, v, r, s, z, j, from, at, buf);
    } else {
        draw_behind(ramp, v, r, s, z, j, from, at, buf);
    }
}

// Draws the rows after the shift's first ones, which are in the buffer already.
fn draw_shifted(ramp: &[u32], v: SignedVector, steps: Steps, s: Shift, z: Strip, buf: &mut [u8])
    requires { Ramp ramp.now × Shifted v s z (length buf.old) × Stands (strip (ramp_pixel ramp.now (Line.Straight v) z.w z.h) z.w z.a (z.a + s.rows)) 0 buf.old × Steady steps v }
    ensures { buf.new ≡ patched buf.old 0 (strip_of ramp.now (Line.Straight v) z) }
{
    let n = 4 * z.w;
    for j in z.a + s.rows..z.b {
        let i = j - z.a;
        draw_next(ramp, v, steps, s, z, j, n * (i - s.rows), n * i, buf);
    }
}

// Draws a strip: the shift's first rows in tiles, and the others as copies of earlier ones.
fn draw_with_copies(ramp: &[u32], steps: Steps, v: SignedVector, s: Shift, z: Strip, buf: &mut [u8])
    requires { Ramp ramp.now × Shifted v s z (length buf.old) × Steady steps v }
    ensures { buf.new ≡ patched buf.old 0 (strip_of ramp.now (Line.Straight v) z) }
{
    let head = Strip {
        w: z.w,
        h: z.h,
        a: z.a,
        b: z.a + s.rows,
    };
    draw_new(ramp, steps, v, head, buf);
    draw_shifted(ramp, v, steps, s, z, buf);
}

// ---- strips

// Draws a strip from the buffer's start, with copies where the shift is worthwhile. Any shift is right; the one of `shift_of` is fastest.
pub fn draw(ramp: &[u32], v: SignedVector, shift: Option<Shift>, z: Strip, buf: &mut [u8])
    requires { Ramp ramp.now × Straight v z (length buf.old) }
    ensures { buf.new ≡ patched buf.old 0 (strip_of ramp.now (Line.Straight v) z) }
{
    let steps = fixed::steps_of(v);
    match worthwhile(shift, v, z.w, z.b - z.a) {
        Some(s) => draw_with_copies(ramp, steps, v, s, z, buf),
        None => draw_new(ramp, steps, v, z, buf),
    }
}

// The location of a pixel in a corner of the columns from `from` up to `end` of a strip.
fn corner(v: SignedVector, z: Strip, from: usize, end: usize, right: bool, below: bool) -> u32
    requires { Box z.w z.h × Bounded v × (z.a < z.b) × (z.b ≤ z.h) × (from < end) × (end ≤ z.w) }
{
    let i = if right { end - 1 } else { from };
    let j = if below { z.b - 1 } else { z.a };
    line::location(Line::Straight(v), z.w, z.h, i, j, 0) as u32
}

// The least location in these columns.
pub fn first(v: SignedVector, z: Strip, from: usize, end: usize) -> u32
    requires { Box z.w z.h × Bounded v × (z.a < z.b) × (z.b ≤ z.h) × (from < end) × (end ≤ z.w) }
{
    corner(v, z, from, end, v.left, v.up)
}

// The greatest location in them.
pub fn last(v: SignedVector, z: Strip, from: usize, end: usize) -> u32
    requires { Box z.w z.h × Bounded v × (z.a < z.b) × (z.b ≤ z.h) × (from < end) × (end ≤ z.w) }
{
    corner(v, z, from, end, !v.left, !v.up)
}

// How many entries a table should have where the locations take n: none where fewer pixels are to be drawn than `few`.
pub fn entries(v: SignedVector, shift: Option<Shift>, z: Strip, n: usize, few: usize) -> usize
    requires { Box z.w z.h × Bounded v × (z.a < z.b) × (z.b ≤ z.h) }
    ensures { result ≤ n }
{
    let rows = z.b - z.a;
    let pixels = match worthwhile(shift, v, z.w, rows) {
        Some(s) => new_pixels(s, z.w, rows),
        None => z.w * rows,
    };
    if pixels < few { 0 } else { n }
}
