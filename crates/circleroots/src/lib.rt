// The locations of a circle's pixels, row by row. Each row's locations come from the two rows above: far from the center a location is one of four
// numbers, nearer to it one of 16 or 65. Where those rows are not known, each root is searched for.
#![tactic(auto)]

ghost use Rattle.std.specs.Prelude.{◌≡◌, ℕ, ◌+◌, ◌-◌, ◌*◌, ◌<◌, ◌≤◌, true, length};
ghost use Rattle.numbers.specs.Biased.{bias, twice_bias};
ghost use Rattle.root.specs.Root.{root_of};
ghost use Rattle.line.specs.Location.{location_by};
ghost use Rattle.line.specs.Circle.{circle_rule};
ghost use Rattle.line.specs.Represented.{center_in, Near};
ghost use Rattle.lowroots.specs.Found.{root_limit, short_limit};
ghost use Rattle.circleroots.specs.Squares.{far_square, near_square, square_of, Mirrored, LowHalves, Known, KnownAbove, InTable, FromOneRow, FromTwoRows, Nearest, Beyond, Short, Guessable, Measured, Found, Ahead, Onward};

use line::BiasedCenter;

// How far from the center, in px, a location is one of four numbers, and how far one of 16; and the squares of these, in units.
const FAR: usize = 66;

const FAR_SQUARE: u64 = (64 * 66) * (64 * 66);

const NEAR: usize = 7;

const NEAR_SQUARE: u64 = (64 * 7) * (64 * 7);

// 2^43: where the squared distances of a row are below it, its locations and those of the rows next to it are below 2^22.
const SHORT_SQUARE: u64 = 8796093022208;

// Which of the two rows above have their locations in the lists: none; the row above, in `last`; or also the row above that, in `before`.
#[derive(Clone, Copy, Debug, PartialEq, Eq)]
pub enum RowsKnown {
    None,
    One,
    Two,
}

// The squared distance of the middle of column or row i from the center's coordinate on that axis.
pub fn square(c: u32, i: usize) -> u64
    requires { (c < twice_bias) × (i < 2048) }
    ensures { (result ≡ square_of c i) × (result < 4503599627370496) }
{
    let d = numbers::apart(64 * (i as u64) + 32 + numbers::WIDE_BIAS, u64::from(c));
    d * d
}

// The row above row j, from row a on, that is as far from the center's coordinate, on the other side of it; row j itself where there is none.
pub fn mirrored(c: u32, a: usize, j: usize) -> usize
    requires { (a ≤ j) × (j < 2048) }
    ensures { Mirrored c a j result }
{
    if c < numbers::BIAS {
        return j;
    }
    let d = c - numbers::BIAS;
    if d % 32 != 0 {
        return j;
    }
    let sum = (d / 32) as usize;
    if sum < a + j + 1 {
        return j;
    }
    j.min(sum - (j + 1))
}

// Of columns or rows a up to b, the one that the center's coordinate lies in, or else the nearest to it.
pub fn nearest(c: u32, a: usize, b: usize) -> usize
    requires { (a < b) × (b ≤ 2048) }
    ensures { (result < b) × ((i : ℕ) → a ≤ i → i < b → square_of c result ≤ square_of c i) × (a ≤ result) × (a < result → 64 * result + bias ≤ c) × (result + 1 < b → c < 64 * (result + 1) + bias) }
{
    if c <= numbers::BIAS {
        return a;
    }
    let k = ((c - numbers::BIAS) / 64) as usize;
    if k < a {
        return a;
    }
    k.min(b - 1)
}

// Fills `low` with the low 32 bits of the squares of w columns.
pub fn fill_low(low: &mut [u32], w: usize, c: BiasedCenter)
    requires { Near c × (w ≤ 2048) × (w ≤ length low.old) }
    ensures { LowHalves c.x w low.new }
{
    for (i, l) in low[..w].iter_mut().enumerate() {
        *l = numbers::low_half(square(c.x, i));
    }
}

// Whether g is one of the n numbers from `base` on.
fn is_in_table(g: u32, base: u32, n: u32) -> bool
    ensures { result ≡ true → base + n ≤ bias → (base ≤ g) × (g < base + n) }
{
    g.wrapping_sub(base) < n
}

// ---- one pixel: its location from those of the pixels above it and the low 32 bits of its squared distance

// 66 px or more from the center: one of the four numbers from the guess on.
fn far_root(before: u32, last: u32, low: u32) -> u32
    ensures { Ahead 4 root_limit low before last result }
{
    lowroots::among_4(root::ahead(before, last), low)
}

// 7 px or more from the center: one of 16 numbers.
fn near_root(before: u32, last: u32, low: u32) -> u32
    ensures { Ahead 16 short_limit low before last result }
{
    lowroots::among_16(root::ahead(before, last), low)
}

// Anywhere, from the row above alone: one of the 65 numbers from `down` below its location on.
fn next_root(last: u32, down: u32, low: u32) -> u32
    ensures { Onward low last down result }
{
    let q = last % lowroots::SHORT_LIMIT;
    lowroots::among_65(q.saturating_sub(down), low)
}

// How much less a location of row j can be than the one above it: 64 where the row is nearer to the center than the one above, else 0.
fn descent(c: u32, j: usize) -> u32
    requires { j < 2048 }
    ensures { (64 * j + bias < c → result ≡ 64) × (c ≤ 64 * j + bias → result ≡ 0) }
{
    if 64 * (j as u32) + numbers::BIAS < c {
        64
    } else {
        0
    }
}

// ---- parts of row j: columns a up to b. `last` has the locations of the row above, and `before` those of the row above that, which are replaced by
// those of row j.

// Replaces each number in `before` by what `find` makes of it, of the one in `last`, and of the low 32 bits of the pixel's squared distance; r has those
// of the row's square.
fn part<F: Fn(u32, u32, u32) -> u32>(
    before: &mut [u32],
    last: &[u32],
    low: &[u32],
    r: u32,
    a: usize,
    b: usize,
    find: F,
)
    requires { F.IsAlwaysCallable find × (a ≤ b) × (b ≤ length before.old) × (b ≤ length last.now) × (b ≤ length low.now) }
    ensures { Found (F.post find) r a b low.now last.now before.old before.new }
{
    for i in a..b {
        before[i] = find(before[i], last[i], low[i].wrapping_add(r));
    }
}

// Row j of w columns around a center.
#[derive(Clone, Copy, Debug, PartialEq, Eq)]
struct Row {
    c: BiasedCenter,
    w: usize,
    j: usize,
}

// Of w columns, the one after the last that is at most k away from column m.
fn end_of(m: usize, k: usize, w: usize) -> usize
    requires { (m < w) × (w ≤ 2048) × (k ≤ 2048) }
    ensures { (m < result) × (result ≤ w) × (result ≤ m + k + 1) × (result < w → result ≡ m + k + 1) }
{
    w.min(m + k + 1)
}

impl Row {
    // Columns a up to b, 66 px or more from the center.
    fn far_part(self, before: &mut [u32], last: &[u32], low: &[u32], a: usize, b: usize)
        requires { Guessable self.c self.w self.j low.now (length before.old) (length last.now) × (a ≤ b) × (b ≤ self.w) × Beyond self.c far_square self.j a b }
        ensures { FromTwoRows self.c self.j a b last.now before.old before.new }
    {
        let r = numbers::low_half(square(self.c.y, self.j));
        part(before, last, low, r, a, b, far_root);
    }

    // 7 px or more from the center.
    // Kept: beside `far_part`, since each asks and finds something else, and all that they share is `part`.
    fn near_part(self, before: &mut [u32], last: &[u32], low: &[u32], a: usize, b: usize)
        requires { Guessable self.c self.w self.j low.now (length before.old) (length last.now) × (a ≤ b) × (b ≤ self.w) × Beyond self.c near_square self.j a b × Short self.c self.w self.j }
        ensures { FromTwoRows self.c self.j a b last.now before.old before.new }
    {
        let r = numbers::low_half(square(self.c.y, self.j));
        part(before, last, low, r, a, b, near_root);
    }

    // Anywhere: a location changes by at most 64 from one row to the next. `before` may hold anything.
    fn next_part(self, before: &mut [u32], last: &[u32], low: &[u32], a: usize, b: usize)
        requires { Guessable self.c self.w self.j low.now (length before.old) (length last.now) × (a ≤ b) × (b ≤ self.w) × Short self.c self.w self.j }
        ensures { FromOneRow self.c self.j a b last.now before.old before.new }
    {
        let r = numbers::low_half(square(self.c.y, self.j));
        let down = descent(self.c.y, self.j);
        let find = |_: u32, q: u32, l: u32| -> u32
            ensures { Onward l q down result }
        { next_root(q, down, l) };
        part(before, last, low, r, a, b, find);
    }

    // Columns a up to b, among them all that are at most 7 away from column m, the nearest to the center.
    fn near_parts(self, before: &mut [u32], last: &[u32], low: &[u32], m: usize, a: usize, b: usize)
        requires { Guessable self.c self.w self.j low.now (length before.old) (length last.now) × Nearest self.c.x self.w m × (a ≤ m - 7) × (m < b) × (b ≤ self.w) × (b < self.w → m + 8 ≤ b) × Short self.c self.w self.j }
        ensures { FromTwoRows self.c self.j a b last.now before.old before.new }
    {
        if NEAR_SQUARE <= square(self.c.y, self.j) {
            self.near_part(before, last, low, a, b);
            return;
        }
        let p = m.saturating_sub(NEAR);
        let q = end_of(m, NEAR, self.w);
        self.near_part(before, last, low, a, p);
        self.next_part(before, last, low, p, q);
        self.near_part(before, last, low, q, b);
    }

    // All columns. Column m is the nearest to the center.
    fn all_parts(self, before: &mut [u32], last: &[u32], low: &[u32], m: usize)
        requires { Guessable self.c self.w self.j low.now (length before.old) (length last.now) × Nearest self.c.x self.w m }
        ensures { FromTwoRows self.c self.j 0 self.w last.now before.old before.new }
    {
        if FAR_SQUARE <= square(self.c.x, m) + square(self.c.y, self.j) {
            self.far_part(before, last, low, 0, self.w);
            return;
        }
        let p = m.saturating_sub(FAR);
        let q = end_of(m, FAR, self.w);
        self.far_part(before, last, low, 0, p);
        self.near_parts(before, last, low, m, p, q);
        self.far_part(before, last, low, q, self.w);
    }

    // Whether the squared distances of the row are below 2^43.
    fn is_short(self) -> bool
        requires { Near self.c × (0 < self.w) × (self.w ≤ 2048) × (self.j < 2048) }
        ensures { result ≡ true → Short self.c self.w self.j }
    {
        let own = square(self.c.y, self.j);
        square(self.c.x, 0) + own < SHORT_SQUARE
            && square(self.c.x, self.w - 1) + own < SHORT_SQUARE
    }

    // Replaces the numbers in `before` by the row's locations, and tells whether they were found. Column m is the nearest to the center.
    fn find(self, before: &mut [u32], last: &[u32], low: &[u32], known: RowsKnown, m: usize) -> bool
        requires { Guessable self.c self.w self.j low.now (length before.old) (length last.now) × Nearest self.c.x self.w m × KnownAbove known self.c self.w self.j before.old last.now }
        ensures { result ≡ true → Known self.c self.w self.j before.new }
    {
        match known {
            RowsKnown::None => false,
            RowsKnown::One => {
                if !self.is_short() {
                    return false;
                }
                self.next_part(before, last, low, 0, self.w);
                true
            }
            RowsKnown::Two => {
                self.all_parts(before, last, low, m);
                true
            }
        }
    }
}

// Replaces the numbers in `before` by the locations of row j, and tells whether they were found and are all among the n numbers from `base` on: the least
// of a row is that of the nearest column, the greatest that of the first or the last.
pub fn next_row(
    before: &mut [u32],
    last: &[u32],
    low: &[u32],
    known: RowsKnown,
    c: BiasedCenter,
    w: usize,
    j: usize,
    base: u32,
    n: u32,
) -> bool
    requires { Guessable c w j low.now (length before.old) (length last.now) × (base + n ≤ bias) × KnownAbove known c w j before.old last.now }
    ensures { result ≡ true → Known c w j before.new × InTable base n w before.new }
{
    let m = nearest(c.x, 0, w);
    let row = Row { c, w, j };
    if !row.find(before, last, low, known, m) {
        return false;
    }
    if !is_in_table(before[m], base, n) {
        return false;
    }
    is_in_table(before[0], base, n) && is_in_table(before[w - 1], base, n)
}

// The root of d: the guess where it is right, else found by a search that starts from the roots of the two pixels before.
pub fn circle_root(d: u64, guess: u32, before: u32, last: u32) -> u64
    ensures { result ≡ root_of 1 d }
{
    let b = u64::from(guess);
    if d.wrapping_sub(b * b) <= 2 * b {
        return b;
    }
    root::root_near(1, d, root::ahead(before, last))
}

// The location of pixel (i, j) from the square of its row. The guess and the locations of the two pixels before change only how long it takes.
pub fn location(
    own: u64,
    c: BiasedCenter,
    i: usize,
    j: usize,
    guess: u32,
    before: u32,
    last: u32,
) -> u32
    requires { Measured c j own × (i < 2048) }
    ensures { result ≡ location_by (circle_rule (center_in c)) i j }
{
    circle_root(square(c.x, i) + own, guess, before, last) as u32
}
