// Draws the rows of a picture into a lent buffer, pixel by pixel. This is the simple code that the faster code is compared with.
#![tactic(auto)]

ghost use Rattle.std.specs.Prelude.{◌≡◌, ◌+◌, ◌*◌, ◌≤◌, ◌<◌, length};
ghost use Rattle.picture.specs.Picture.{row, patched};
ghost use Rattle.line.specs.Location.{location_by};
ghost use Rattle.line.specs.Represented.{rule_in};
ghost use Rattle.ramp.specs.Ramp.{Stops};
ghost use Rattle.rows.specs.Pixel.{Placed, Drawable, ramp_pixel, strip_of};

use line::Line;

// Rows a up to b of a box of w by h pixels.
#[derive(Debug, Clone, Copy, PartialEq, Eq)]
pub struct Strip {
    pub w: usize,
    pub h: usize,
    pub a: usize,
    pub b: usize,
}

// The location of pixel (i, j). The guess changes only how long it takes.
fn locate(l: Line, w: usize, h: usize, i: usize, j: usize, guess: u32) -> u32
    requires { Placed l w h × (i < w) × (j < h) }
    ensures { result ≡ location_by (rule_in l w h) i j }
{
    line::location(l, w, h, i, j, guess) as u32
}

// Draws row j from `at` on.
fn draw_row(ramp: &[u32], l: Line, w: usize, h: usize, j: usize, at: usize, buf: &mut [u8])
    requires { Stops ramp.now × Placed l w h × (j < h) × (at + 4 * w ≤ length buf.old) }
    ensures { buf.new ≡ patched buf.old at (row (ramp_pixel ramp.now l w h) w j) }
{
    let mut before = 0;
    let mut last = 0;
    for i in 0..w {
        let s = locate(l, w, h, i, j, root::ahead(before, last));
        before = last;
        last = s;
        words::put_word(buf, at + 4 * i, ramp::color_by_stops(ramp, s as u64));
    }
}

// Draws a strip from the buffer's start, row after row.
pub fn draw_each(ramp: &[u32], l: Line, z: Strip, buf: &mut [u8])
    requires { Drawable ramp.now l z (length buf.old) }
    ensures { buf.new ≡ patched buf.old 0 (strip_of ramp.now l z) }
{
    let n = 4 * z.w;
    for j in z.a..z.b {
        draw_row(ramp, l, z.w, z.h, j, n * (j - z.a), buf);
    }
}
