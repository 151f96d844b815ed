// Strips of a picture, each kind of line by the code that is fastest for it. All tables are made here, on the stack, as large as a strip needs.
#![tactic(auto)]

ghost use Rattle.std.specs.Prelude.{◌≡◌, ℕ, ◌+◌, ◌≤◌, ◌<◌, length};
ghost use Rattle.line.specs.declared.Line.{Line};
ghost use Rattle.line.specs.Box.{Box};
ghost use Rattle.line.specs.Represented.{Bounded, Near};
ghost use Rattle.picture.specs.Picture.{patched};
ghost use Rattle.ramp.specs.Ramp.{color_in, Stops, Ramp};
ghost use Rattle.rows.specs.Pixel.{Placed, Rows, Drawable, strip_of};
ghost use Rattle.circle.specs.Circular.{Circular};
ghost use Rattle.strips.specs.Plan.{wide, IsWidth, small_table, most_entries, last_base, Planned, SlantedPlanned, HasRoom, Room};

use line::{BiasedCenter, Line, SignedVector};
use rows::Strip;
use straight::Shift;

// The most columns of a narrow strip.
const NARROW: usize = 256;

// The most columns of any strip.
const WIDE: usize = 2048;

// The most rows of a low strip.
const LOW: usize = 64;

// So many pixels, or more, are many.
const MANY: usize = 1048576;

// The columns of a section. A small table has room for the locations of so many columns of a low strip.
const SECTION: usize = 192;

// The last location that a table may start at.
const LAST_BASE: u32 = 33000000;

// The most entries of a tiny table.
const TINY: usize = 6144;

// The most entries of a small table.
const SMALL: usize = 16384;

// The most entries of a table of middle size.
const MEDIUM: usize = 65536;

// A period of so many units, or fewer, is short.
const SHORT: usize = 1024;

// The most entries of any table: more than the diagonal of the largest box has units.
const LARGE: usize = 185408;

// The words of a ramp without a table.
const BARE_RAMP: usize = ramp::HEAD;

// The words of a ramp with a tiny table.
const TINY_RAMP: usize = ramp::HEAD + TINY;

// The words of a ramp with a small table.
const SMALL_RAMP: usize = ramp::HEAD + SMALL;

// The words of a ramp with a table of middle size.
const MEDIUM_RAMP: usize = ramp::HEAD + MEDIUM;

// The words of a ramp with the largest table.
const LARGE_RAMP: usize = ramp::HEAD + LARGE;

// ---- with a ramp that has a table

fn zeros<const N: usize>() -> [u32; N]
    ensures { length result ≡ N }
{
    [0u32; N]
}

// Draws a strip around a circle's center, with lists for so many columns.
fn circle_with<const COLUMNS: usize>(ramp: &[u32], c: BiasedCenter, z: Strip, buf: &mut [u8])
    requires { Ramp ramp.now × Circular c z (length buf.old) × (z.w ≤ COLUMNS) × (COLUMNS ≤ wide) × IsWidth z.w COLUMNS }
    ensures { buf.new ≡ patched buf.old 0 (strip_of ramp.now (Line.Circle c) z) }
{
    let mut low = zeros::<COLUMNS>();
    let mut p = zeros::<COLUMNS>();
    let mut q = zeros::<COLUMNS>();
    circle::draw(ramp, &mut low, &mut p, &mut q, c, z, buf);
}

fn draw_circle(ramp: &[u32], c: BiasedCenter, z: Strip, buf: &mut [u8])
    requires { Ramp ramp.now × Circular c z (length buf.old) }
    ensures { buf.new ≡ patched buf.old 0 (strip_of ramp.now (Line.Circle c) z) }
{
    if z.w <= NARROW {
        circle_with::<NARROW>(ramp, c, z, buf);
    } else {
        circle_with::<WIDE>(ramp, c, z, buf);
    }
}

fn draw_ready(ramp: &[u32], shift: Option<Shift>, l: Line, z: Strip, buf: &mut [u8])
    requires { Ramp ramp.now × Placed l z.w z.h × Rows z (length buf.old) }
    ensures { buf.new ≡ patched buf.old 0 (strip_of ramp.now l z) }
{
    match l {
        Line::Straight(v) => straight::draw(ramp, v, shift, z, buf),
        Line::Circle(c) => draw_circle(ramp, c, z, buf),
    }
}

// ---- with stops, and room for a table

// The table that a strip is drawn with, and the shift that may copy its rows.
#[derive(Clone, Copy, Debug, PartialEq, Eq)]
struct Plan {
    base: u32,
    entries: usize,
    shift: Option<Shift>,
}

// Makes a ramp with the planned table, in a room of so many words, and draws with it. There is an instance for each size, and it stays apart: only it takes
// the stack for its room. Inlined, the largest would be taken for every small picture, too.
#[inline(never)]
fn with_room<const WORDS: usize>(p: Plan, stops: &[u32], l: Line, z: Strip, buf: &mut [u8])
    requires { Drawable stops.now l z (length buf.old) × HasRoom p WORDS }
    ensures { buf.new ≡ patched buf.old 0 (strip_of stops.now l z) }
{
    let mut room = zeros::<WORDS>();
    let lent = &mut room[..ramp::HEAD + p.entries];
    ramp::set_table(lent, stops, p.base);
    draw_ready(lent, p.shift, l, z, buf);
}

// With the smallest room that does: none for a table, or one of four sizes. Inlined, so that no frame of its own lies under the largest room.
#[inline(always)]
fn draw_planned(p: Plan, stops: &[u32], l: Line, z: Strip, buf: &mut [u8])
    requires { Drawable stops.now l z (length buf.old) × Planned p most_entries }
    ensures { buf.new ≡ patched buf.old 0 (strip_of stops.now l z) }
{
    if p.entries == 0 {
        with_room::<BARE_RAMP>(p, stops, l, z, buf);
    } else if p.entries <= TINY {
        with_room::<TINY_RAMP>(p, stops, l, z, buf);
    } else if p.entries <= SMALL {
        with_room::<SMALL_RAMP>(p, stops, l, z, buf);
    } else if p.entries <= MEDIUM {
        with_room::<MEDIUM_RAMP>(p, stops, l, z, buf);
    } else {
        with_room::<LARGE_RAMP>(p, stops, l, z, buf);
    }
}

// Draws a strip along a line in sections, each with a table of its own in the room that is lent.
fn draw_sections(ramp: &mut [u32], stops: &[u32], v: SignedVector, z: Strip, buf: &mut [u8])
    requires { Drawable stops.now (Line.Straight v) z (length buf.old) × Room 0 (length ramp.old) }
    ensures { buf.new ≡ patched buf.old 0 (strip_of stops.now (Line.Straight v) z) }
{
    let steps = fixed::steps_of(v);
    let mut i = 0;
    while i < z.w {
        let end = z.w.min(i + SECTION);
        ramp::set_table(ramp, stops, base_of(straight::first(v, z, i, end)));
        straight::draw_tiles(ramp, steps, v, z, i, end, 0, buf);
        i = end;
    }
}

// The same with a room for tables of n entries, in a function of its own.
#[inline(never)]
fn draw_in_sections(n: usize, stops: &[u32], v: SignedVector, z: Strip, buf: &mut [u8])
    requires { Drawable stops.now (Line.Straight v) z (length buf.old) × (n ≤ small_table) }
    ensures { buf.new ≡ patched buf.old 0 (strip_of stops.now (Line.Straight v) z) }
{
    let mut room = zeros::<SMALL_RAMP>();
    draw_sections(&mut room[..ramp::HEAD + n], stops, v, z, buf);
}

// ---- planning

// Where a table should start whose first location is `first`: there, unless that is too far away.
fn base_of(first: u32) -> u32
    ensures { result ≤ last_base }
{
    if first <= LAST_BASE { first } else { 0 }
}

// How many locations there are from `first` to `last`, or as many as the largest table has if that is less.
fn span(first: u32, last: u32) -> usize
    ensures { result ≤ most_entries }
{
    if last < first {
        return 0;
    }
    LARGE.min((last - first) as usize + 1)
}

// How many entries a table for a section needs.
fn section_entries(v: SignedVector, z: Strip) -> usize
    requires { Box z.w z.h × Bounded v × (z.a < z.b) × (z.b ≤ z.h) }
    ensures { result ≤ small_table }
{
    let end = SECTION.min(z.w);
    let n = span(straight::first(v, z, 0, end), straight::last(v, z, 0, end));
    SMALL.min(n + 1)
}

// Below how many pixels a table of n entries does not pay. One of repeated stops is filled sooner, and without it their colors take longer.
fn few_pixels(n: usize, repeated: bool) -> usize {
    if repeated && n <= MEDIUM {
        n / 64
    } else {
        n / 8
    }
}

// How many entries a table has, instead of none: those of a period, where that is short. Without them nearly every pixel would need a stretch of its own.
fn or_a_period(entries: usize, stops: &[u32]) -> usize
    requires { Stops stops.now × (entries ≤ most_entries) }
    ensures { result ≤ most_entries }
{
    if entries == 0 && ramp::is_repeated(stops) {
        let n = ramp::period(stops) as usize;
        if n <= SHORT {
            return n;
        }
    }
    entries
}

// How a slanted strip is drawn: as a whole by a plan, or in sections, each with a table of so many entries.
#[derive(Clone, Copy, Debug, PartialEq, Eq)]
enum SlantedPlan {
    Whole(Plan),
    Sections(usize),
}

fn straight_plan(stops: &[u32], v: SignedVector, z: Strip) -> SlantedPlan
    requires { Stops stops.now × Box z.w z.h × Bounded v × (z.a < z.b) × (z.b ≤ z.h) }
    ensures { SlantedPlanned result }
{
    let first = straight::first(v, z, 0, z.w);
    let n = span(first, straight::last(v, z, 0, z.w));
    let shift = straight::shift_of(v);
    let some = straight::entries(v, shift, z, n, few_pixels(n, ramp::is_repeated(stops)));
    let entries = or_a_period(some, stops);
    if SMALL < entries && z.b - z.a <= LOW {
        return SlantedPlan::Sections(section_entries(v, z));
    }
    SlantedPlan::Whole(Plan {
        base: base_of(first),
        entries,
        shift,
    })
}

fn circle_plan(c: BiasedCenter, z: Strip) -> Plan
    requires { Box z.w z.h × Near c × (z.a < z.b) × (z.b ≤ z.h) }
    ensures { Planned result most_entries }
{
    let first = circle::first(c, z);
    Plan {
        base: base_of(first),
        entries: span(first, circle::last(c, z)),
        shift: None,
    }
}

// ---- by what the line and the colors are like

// A vector of length 1 to the right or straight down.
fn unit_vector(x: u32, y: u32) -> SignedVector
    requires { x + y ≡ 1 }
    ensures { (result.x ≡ x) × (result.y ≡ y) × Bounded result }
{
    SignedVector {
        x,
        y,
        left: false,
        up: false,
    }
}

// Draws a strip in which all pixels have one color, as along a line to the right, or straight down where it is large: what is faster.
fn draw_one_color(stops: &[u32], l: Line, z: Strip, buf: &mut [u8])
    requires { Drawable stops.now l z (length buf.old) × ((s t : ℕ) → color_in stops.now s ≡ color_in stops.now t) }
    ensures { buf.new ≡ patched buf.old 0 (strip_of stops.now l z) }
{
    if MANY <= z.w * (z.b - z.a) {
        axisrows::draw_vertical(stops, unit_vector(0, 1), z, buf);
    } else {
        axisrows::draw_horizontal(stops, unit_vector(1, 0), z, buf);
    }
}

// Draws a strip along a slanted line.
fn draw_slanted(stops: &[u32], v: SignedVector, z: Strip, buf: &mut [u8])
    requires { Drawable stops.now (Line.Straight v) z (length buf.old) }
    ensures { buf.new ≡ patched buf.old 0 (strip_of stops.now (Line.Straight v) z) }
{
    match straight_plan(stops, v, z) {
        SlantedPlan::Whole(p) => draw_planned(p, stops, Line::Straight(v), z, buf),
        SlantedPlan::Sections(n) => draw_in_sections(n, stops, v, z, buf),
    }
}

// Draws a strip of any colors.
fn draw_colors(stops: &[u32], l: Line, z: Strip, buf: &mut [u8])
    requires { Drawable stops.now l z (length buf.old) }
    ensures { buf.new ≡ patched buf.old 0 (strip_of stops.now l z) }
{
    match l {
        Line::Straight(v) => {
            if v.x == 0 {
                axisrows::draw_vertical(stops, v, z, buf);
            } else if v.y == 0 {
                axisrows::draw_horizontal(stops, v, z, buf);
            } else {
                draw_slanted(stops, v, z, buf);
            }
        }
        Line::Circle(c) => draw_planned(circle_plan(c, z), stops, l, z, buf),
    }
}

// Draws a strip from the buffer's start.
pub fn draw(stops: &[u32], l: Line, z: Strip, buf: &mut [u8])
    requires { Drawable stops.now l z (length buf.old) }
    ensures { buf.new ≡ patched buf.old 0 (strip_of stops.now l z) }
{
    if ramp::is_one_color(stops) {
        draw_one_color(stops, l, z, buf);
    } else {
        draw_colors(stops, l, z, buf);
    }
}
