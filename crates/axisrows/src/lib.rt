// Draws the rows of a picture along a horizontal or a vertical line, from a table with one entry for each column or each row.
#![tactic(auto)]

ghost use Rattle.std.specs.Prelude.{◌≡◌, List, ℕ, ◌+◌, ◌-◌, ◌*◌, ◌≤◌, ◌<◌, length, get_or};
ghost use Rattle.picture.specs.Picture.{row, copies, strip, patched};
ghost use Rattle.words.specs.Word.{word_bytes};
ghost use Rattle.rows.specs.Pixel.{Drawable, strip_of};
ghost use Rattle.axisrows.specs.Axis.{small_side, IsSide, from_start, first_of, by_column, by_row};

use line::{Line, SignedVector};
use rows::Strip;

// The side of a pixel, in units.
const PIXEL: u32 = 64;

// The middle of a pixel, in units from its edge.
const MIDDLE: u32 = 32;

// The most pixels of a small box's side.
const SMALL_SIDE: usize = 256;

// The pixels of the largest box's side.
const LARGEST_SIDE: usize = 2048;

// The bytes of the largest box's row.
const ROW_BYTES: usize = 4 * LARGEST_SIDE;

// Room for the bytes of two or more rows of a small box.
const BLOCK_BYTES: usize = 2048;

// ---- entries

// Entries of n columns or rows, counted from the side that the line starts at, which is the last one's where the line goes back.
#[derive(Clone, Copy)]
struct Entries<'a> {
    table: &'a [u32],
    back: bool,
    n: usize,
    ghost held: { n ≤ length table.now },
}

// The first of the rows from a up to b of h, counted likewise.
fn first(a: usize, b: usize, h: usize, back: bool) -> usize
    requires { (a < b) × (b ≤ h) }
    ensures { (result ≡ first_of back h a b) × (result ≤ h) }
{
    if back { h - b } else { a }
}

fn zeros<T: Copy + Default, const N: usize>() -> [T; N]
    ensures { length result ≡ N }
{
    [T::default(); N]
}

// Fills the buffer's start with n copies of `bytes`.
fn copy_times(buf: &mut [u8], bytes: &[u8], n: usize)
    requires { length bytes.now * n ≤ length buf.old }
    ensures { buf.new ≡ patched buf.old 0 (copies n bytes.now) }
{
    for j in 0..n {
        picture::copy_in(buf, bytes.len() * j, bytes);
    }
}

// Fills the buffer's start with n copies of m bytes, from a block that has k copies of them.
fn copy_blocks(buf: &mut [u8], block: &[u8], k: usize, m: usize, n: usize)
    requires { (0 < k) × (length block.now ≡ m * k) × (m * n ≤ length buf.old) }
    ensures { (s : List ℕ) → length s ≡ m → block.now ≡ copies k s → buf.new ≡ patched buf.old 0 (copies n s) }
{
    copy_times(buf, block, n / k);
    let o = block.len() * (n / k);
    let rest = m * (n % k);
    picture::copy_in(buf, o, &block[..rest]);
}

// Writes a word n times from `at` on.
fn fill_words(buf: &mut [u8], at: usize, n: usize, c: u32)
    requires { at + 4 * n ≤ length buf.old }
    ensures { buf.new ≡ patched buf.old at (copies n (word_bytes c)) }
{
    for i in 0..n {
        words::put_word(buf, at + 4 * i, c);
    }
}

impl Entries<'_> {
    // The entry of column or row i.
    fn entry_of(self, i: usize) -> u32
        requires { i < self.n }
        ensures { result ≡ get_or self.entry.table.now (from_start self.entry.back self.entry.n i) 0 }
    {
        self.table[if self.back { self.n - 1 - i } else { i }]
    }

    // Writes a row of n columns from `at` on, each pixel from its entry.
    fn write_row(self, bytes: &mut [u8], at: usize)
        requires { at + 4 * self.n ≤ length bytes.old }
        ensures { bytes.new ≡ patched bytes.old at (row (by_column self.entry.table.now self.entry.back self.entry.n) self.entry.n 0) }
    {
        for i in 0..self.n {
            words::put_word(bytes, at + 4 * i, self.entry_of(i));
        }
    }

    // Writes k such rows, one after the other.
    fn write_rows(self, bytes: &mut [u8], k: usize)
        requires { 4 * self.n * k ≤ length bytes.old }
        ensures { bytes.new ≡ patched bytes.old 0 (copies k (row (by_column self.entry.table.now self.entry.back self.entry.n) self.entry.n 0)) }
    {
        for j in 0..k {
            self.write_row(bytes, 4 * self.n * j);
        }
    }

    // Draws h such rows from a block of k of them, which has N bytes of room. The bytes are copied from a local array, so that a compiler knows that it
    // does not overlap the buffer and calls the C library's copy.
    fn draw_rows<const N: usize>(self, k: usize, h: usize, buf: &mut [u8])
        requires { (0 < k) × (4 * self.n * k ≤ N) × (N ≤ ROW_BYTES) × (4 * self.n * h ≤ length buf.old) × (N < ROW_BYTES → self.n ≤ small_side) }
        ensures { buf.new ≡ patched buf.old 0 (copies h (row (by_column self.entry.table.now self.entry.back self.entry.n) self.entry.n 0)) }
    {
        let mut block = zeros::<u8, N>();
        let m = 4 * self.n;
        let size = m * k;
        self.write_rows(&mut block[..size], k);
        copy_blocks(buf, &block[..size], k, m, h);
    }

    // Draws the rows from a up to b, w pixels wide, each from its entry.
    fn draw_strip(self, w: usize, a: usize, b: usize, buf: &mut [u8])
        requires { (a ≤ b) × (self.n ≡ b - a) × (w ≤ 2048) × (4 * w * (b - a) ≤ length buf.old) }
        ensures { buf.new ≡ patched buf.old 0 (strip (by_row self.entry.table.now self.entry.back a b) w a b) }
    {
        for j in a..b {
            fill_words(buf, 4 * w * (j - a), w, self.entry_of(j - a));
        }
    }
}

// ---- a horizontal line: every row is the same

// Fills a table for the columns and draws the rows.
fn horizontal_with(t: &mut [u32], ramp: &[u32], v: SignedVector, z: Strip, buf: &mut [u8])
    requires { (length t.old ≡ z.w) × Drawable ramp.now (Line.Straight v) z (length buf.old) × (v.y ≡ 0) }
    ensures { buf.new ≡ patched buf.old 0 (strip_of ramp.now (Line.Straight v) z) }
{
    ramp::fill_spaced(t, ramp, MIDDLE, PIXEL);
    let entries = Entries {
        table: t,
        back: v.left,
        n: z.w,
    };
    let n = z.b - z.a;
    if z.w <= SMALL_SIDE {
        let k = n.min(BLOCK_BYTES / (4 * z.w));
        entries.draw_rows::<BLOCK_BYTES>(k, n, buf);
    } else {
        entries.draw_rows::<ROW_BYTES>(1, n, buf);
    }
}

// Draws a strip of a box of up to N pixels in width along a horizontal line.
fn horizontal_to<const N: usize>(ramp: &[u32], v: SignedVector, z: Strip, buf: &mut [u8])
    requires { Drawable ramp.now (Line.Straight v) z (length buf.old) × (v.y ≡ 0) × (z.w ≤ N) × (N ≤ LARGEST_SIDE) × IsSide z.w N }
    ensures { buf.new ≡ patched buf.old 0 (strip_of ramp.now (Line.Straight v) z) }
{
    let mut t = zeros::<u32, N>();
    horizontal_with(&mut t[..z.w], ramp, v, z, buf);
}

// Draws a strip along a horizontal line, from the buffer's start.
pub fn draw_horizontal(ramp: &[u32], v: SignedVector, z: Strip, buf: &mut [u8])
    requires { Drawable ramp.now (Line.Straight v) z (length buf.old) × (v.y ≡ 0) }
    ensures { buf.new ≡ patched buf.old 0 (strip_of ramp.now (Line.Straight v) z) }
{
    if z.w <= SMALL_SIDE {
        horizontal_to::<SMALL_SIDE>(ramp, v, z, buf);
    } else {
        horizontal_to::<LARGEST_SIDE>(ramp, v, z, buf);
    }
}

// ---- a vertical line: all pixels of a row are the same

// Fills a table for the rows and draws them.
fn vertical_with(t: &mut [u32], ramp: &[u32], v: SignedVector, z: Strip, buf: &mut [u8])
    requires { (length t.old ≡ z.b - z.a) × Drawable ramp.now (Line.Straight v) z (length buf.old) × (v.x ≡ 0) }
    ensures { buf.new ≡ patched buf.old 0 (strip_of ramp.now (Line.Straight v) z) }
{
    let base = MIDDLE + PIXEL * (first(z.a, z.b, z.h, v.up) as u32);
    ramp::fill_spaced(t, ramp, base, PIXEL);
    let entries = Entries {
        table: t,
        back: v.up,
        n: z.b - z.a,
    };
    entries.draw_strip(z.w, z.a, z.b, buf);
}

// Draws a strip of up to N rows along a vertical line.
fn vertical_to<const N: usize>(ramp: &[u32], v: SignedVector, z: Strip, buf: &mut [u8])
    requires { Drawable ramp.now (Line.Straight v) z (length buf.old) × (v.x ≡ 0) × (z.b - z.a ≤ N) × (N ≤ LARGEST_SIDE) × IsSide (z.b - z.a) N }
    ensures { buf.new ≡ patched buf.old 0 (strip_of ramp.now (Line.Straight v) z) }
{
    let mut t = zeros::<u32, N>();
    let n = z.b - z.a;
    vertical_with(&mut t[..n], ramp, v, z, buf);
}

// Draws a strip along a vertical line, from the buffer's start.
pub fn draw_vertical(ramp: &[u32], v: SignedVector, z: Strip, buf: &mut [u8])
    requires { Drawable ramp.now (Line.Straight v) z (length buf.old) × (v.x ≡ 0) }
    ensures { buf.new ≡ patched buf.old 0 (strip_of ramp.now (Line.Straight v) z) }
{
    if z.b - z.a <= SMALL_SIDE {
        vertical_to::<SMALL_SIDE>(ramp, v, z, buf);
    } else {
        vertical_to::<LARGEST_SIDE>(ramp, v, z, buf);
    }
}
