// Parts of rows along a straight line: the same bytes as `rows` draws, faster. Locations are found in fixed point. Colors come from the ramp's table or,
// where there is none, from the walks of stretches.
#![tactic(auto)]

ghost use Rattle.std.specs.Prelude.{◌≡◌, ℕ, ◌+◌, ◌*◌, ◌<◌, ◌≤◌, length};
ghost use Rattle.line.specs.Represented.{rule_in};
ghost use Rattle.line.specs.declared.SignedVector.{SignedVector};
ghost use Rattle.picture.specs.Picture.{part, patched};
ghost use Rattle.table.specs.Table.{Stretched, Leaps};
ghost use Rattle.ramp.specs.Ramp.{color_in, Entries, Ramp, Held};
ghost use Rattle.rows.specs.Pixel.{pixel_by, ramp_pixel};
ghost use Rattle.fixed.specs.Steps.{AlongRow};
ghost use Rattle.rowparts.specs.Certain.{AllCertain};

use fixed::RowLine;
use line::{Line, SignedVector};
use rows::Strip;
use table::Stretch;

// The most pixels whose places are looked at together.
pub const PART: usize = 64;

// ---- n pixels of row j, from pixel i on

// The color at the location s, by the stretch t where it has that.
fn color_near(ramp: &[u32], t: Stretch, s: u64) -> u32
    requires { Ramp ramp.now × Held ramp.now t × (s < 4294967296) }
    ensures { result ≡ color_in ramp.now s }
{
    if table::is_in(t, s) {
        return table::color_in(t, (s - t.first) as u32);
    }
    ramp::color(ramp, s)
}

// Finds the location of each pixel, from its place or by the exact rule.
fn draw_by_locations(
    ramp: &[u32],
    t: Stretch,
    r: RowLine,
    v: SignedVector,
    z: Strip,
    j: usize,
    i: usize,
    n: usize,
    at: usize,
    buf: &mut [u8],
)
    requires { Ramp ramp.now × Held ramp.now t × AlongRow r v z.w z.h j × (i + n ≤ z.w) × (at + 4 * n ≤ length buf.old) }
    ensures { buf.new ≡ patched buf.old at (part (ramp_pixel ramp.now (Line.Straight v) z.w z.h) i n j) }
{
    for k in 0..n {
        let s = fixed::location(r, v, z.w, z.h, i + k, j);
        words::put_word(buf, at + 4 * k, color_near(ramp, t, u64::from(s)));
    }
}

// How many pixels to draw next, from one at the location s on: about as many as are left in the stretch, and a part's pixels at most.
fn piece(t: Stretch, r: RowLine, s: u64, n: usize) -> usize
    requires { 0 < n }
    ensures { (0 < result) × (result ≤ n) }
{
    let most = PART.min(n);
    if !table::is_in(t, s) {
        return most;
    }
    let past = s - t.first;
    let (left, step) = if r.forth == 0 {
        (past, r.back)
    } else {
        (t.count - 1 - past, r.forth)
    };
    let m = (left / (step / fixed::ONE + 1)) as usize;
    if m < most { m + 1 } else { most }
}

// The stretch t where it has the location s, else the one that s is in.
fn renewed(ramp: &[u32], t: Stretch, s: u64) -> Stretch
    requires { Ramp ramp.now × Held ramp.now t }
    ensures { Held ramp.now result }
{
    if table::is_in(t, s) {
        return t;
    }
    ramp::stretch_at(ramp, s)
}

// Leaps to the whole part of each pixel's place by the walks of a stretch that has all of them.
fn draw_from_stretch(t: Stretch, r: RowLine, i: usize, n: usize, at: usize, buf: &mut [u8])
    requires { (0 < n) × AllCertain r i n t.first t.count × Leaps t × (at + 4 * n ≤ length buf.old) }
    ensures { (color : ℕ → ℕ) (v : SignedVector) (w h j : ℕ) → Stretched color t → AlongRow r v w h j → i + n ≤ w
        → buf.new ≡ patched buf.old at (part (pixel_by (rule_in (Line.Straight v) w h) color) i n j) }
{
    let step = fixed::step(r);
    let mut e = fixed::place(r, i) - t.first * fixed::ONE;
    for k in 0..n {
        words::put_word(buf, at + 4 * k, table::color_in(t, (e / fixed::ONE) as u32));
        e = e.wrapping_add(step);
    }
}

// By the stretch where it has all the pixels, else location by location.
fn draw_piece(
    ramp: &[u32],
    t: Stretch,
    r: RowLine,
    v: SignedVector,
    z: Strip,
    j: usize,
    i: usize,
    n: usize,
    at: usize,
    buf: &mut [u8],
)
    requires { Ramp ramp.now × Held ramp.now t × AlongRow r v z.w z.h j × (0 < n) × (i + n ≤ z.w) × (at + 4 * n ≤ length buf.old) }
    ensures { buf.new ≡ patched buf.old at (part (ramp_pixel ramp.now (Line.Straight v) z.w z.h) i n j) }
{
    if fixed::floors_certain(r, i, n, t.first as u32, t.count as usize) {
        draw_from_stretch(t, r, i, n, at, buf);
    } else {
        draw_by_locations(ramp, t, r, v, z, j, i, n, at, buf);
    }
}

// Draws a piece of a stretch at a time.
// Kept: a `while`, as each piece has a length of its own that is found on the way: no range goes by such steps.
pub fn draw_by_stretches(
    ramp: &[u32],
    r: RowLine,
    v: SignedVector,
    z: Strip,
    j: usize,
    i: usize,
    n: usize,
    at: usize,
    buf: &mut [u8],
)
    requires { Ramp ramp.now × AlongRow r v z.w z.h j × (i + n ≤ z.w) × (at + 4 * n ≤ length buf.old) }
    ensures { buf.new ≡ patched buf.old at (part (ramp_pixel ramp.now (Line.Straight v) z.w z.h) i n j) }
{
    let mut t = table::no_stretch();
    let mut k = 0;
    while k < n {
        let s = u64::from(fixed::location(r, v, z.w, z.h, i + k, j));
        t = renewed(ramp, t, s);
        let m = piece(t, r, s, n - k);
        draw_piece(ramp, t, r, v, z, j, i + k, m, at + 4 * k, buf);
        k += m;
    }
}

// Reads each color at the whole part of the pixel's place: the table has all of them.
fn draw_from_table(t: &[u32], base: u32, r: RowLine, i: usize, n: usize, at: usize, buf: &mut [u8])
    requires { (0 < n) × AllCertain r i n base (length t.now) × (at + 4 * n ≤ length buf.old) }
    ensures { (color : ℕ → ℕ) (v : SignedVector) (w h j : ℕ) → Entries color base t.now → AlongRow r v w h j → i + n ≤ w
        → buf.new ≡ patched buf.old at (part (pixel_by (rule_in (Line.Straight v) w h) color) i n j) }
{
    let step = fixed::step(r);
    let mut e = fixed::place(r, i) - u64::from(base) * fixed::ONE;
    for k in 0..n {
        words::put_word(buf, at + 4 * k, t[(e / fixed::ONE) as usize]);
        e = e.wrapping_add(step);
    }
}

// From the table where it has all the colors, else location by location.
pub fn draw_part(
    ramp: &[u32],
    r: RowLine,
    v: SignedVector,
    z: Strip,
    j: usize,
    i: usize,
    n: usize,
    at: usize,
    buf: &mut [u8],
)
    requires { Ramp ramp.now × AlongRow r v z.w z.h j × (i + n ≤ z.w) × (at + 4 * n ≤ length buf.old) }
    ensures { buf.new ≡ patched buf.old at (part (ramp_pixel ramp.now (Line.Straight v) z.w z.h) i n j) }
{
    if n == 0 {
        return;
    }
    let t = ramp::table_of(ramp);
    let base = ramp::base_of(ramp);
    if fixed::floors_certain(r, i, n, base, t.len()) {
        draw_from_table(t, base, r, i, n, at, buf);
    } else {
        draw_by_locations(ramp, table::no_stretch(), r, v, z, j, i, n, at, buf);
    }
}
