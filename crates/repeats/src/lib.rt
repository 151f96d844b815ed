// The colors of stops that are repeated, from placed stops that are lent as two slices of numbers. A location is moved by whole periods until it lies
// from the first stop up to, not including, the last, and has the color that is there. Positions and locations are biased.
#![tactic(auto)]

ghost use Rattle.std.specs.Prelude.{◌≡◌, ℕ, ◌+◌, ◌-◌, ◌*◌, ◌%◌, ◌≤◌, ◌<◌, length, get_or};
ghost use Rattle.numbers.specs.Biased.{twice_bias};
ghost use Rattle.color.specs.Lent.{moved_biased};
ghost use Rattle.walk.specs.Walk.{most_steps};
ghost use Rattle.table.specs.Table.{Stored, Stretched};
ghost use Rattle.repeats.specs.Repeats.{first_in, last_in, repeated_of, moved_in, repeated_at, Filled};

mod repeated;

pub use repeated::RepeatedStops;
use table::Stretch;

// So many entries, or more, are copied fast.
const FAST: usize = 128;

// ---- locations

// The location that `at` is moved to, between a first and a last position.
fn move_to(first: u32, last: u32, at: u64) -> u32
    requires { first < last }
    ensures { (result ≡ moved_biased first last at) × (first ≤ result) × (result < last) }
{
    let p = (last - first) as u64;
    if (first as u64) <= at {
        return first + ((at - (first as u64)) % p) as u32;
    }
    last - 1 - (((first as u64) - 1 - at) % p) as u32
}

// The location that `at` is moved to.
fn moved(positions: &[u32], at: u64) -> u32
    requires { (0 < length positions.now) × (first_in positions.now < last_in positions.now) }
    ensures { (result ≡ moved_in positions.now at) × (first_in positions.now ≤ result) × (result < last_in positions.now) }
{
    move_to(positions[0], positions[positions.len() - 1], at)
}

// ---- tables

// Stores from entry q on what stands q entries before.
fn copy_on(t: &mut [u32], q: usize)
    requires { 0 < q }
    ensures { ((f : ℕ → ℕ) → ((k : ℕ) → k < q → k < length t.old → get_or t.old k 0 ≡ f k) → ((k : ℕ) → f (k + q) ≡ f k) → Filled f t.new)
        × (length t.new ≡ length t.old) }
{
    for k in q..t.len() {
        t[k] = t[k - q];
    }
}

// After how many entries the colors come again: so many are whole periods.
fn entries_again(period: u32, stride: u32) -> usize
    requires { 0 < period }
    ensures { (0 < result) × (result * stride % period ≡ 0) }
{
    (period / numbers::common(period, stride)) as usize
}

// A multiple of q entries that is long enough to be copied fast.
fn longer(q: usize) -> usize
    requires { 0 < q }
    ensures { (0 < result) × (result % q ≡ 0) }
{
    if q < FAST { (FAST / q + 1) * q } else { q }
}

// ---- the colors of repeated stops

impl RepeatedStops<'_> {
    // The color at a location, packed.
    pub fn color_of(self, at: u64) -> u32
        ensures { result ≡ repeated_of self.entry.stops.positions.now self.entry.stops.values.now at }
    {
        self.stops.color_of(moved(self.stops.positions, at) as u64)
    }

    // The stretch that a location is in, from `low` on, or one of no locations.
    pub fn stretch_at(self, at: u32, low: u32) -> Stretch
        requires { (low ≤ at) × (at ≤ twice_bias) }
        ensures { Stretched (repeated_of self.entry.stops.positions.now self.entry.stops.values.now) result × (0 < result.count → low ≤ result.first) }
    {
        let m = moved(self.stops.positions, at as u64);
        let t = self.stops.stretch_at(m, m.saturating_sub(at - low));
        table::moved(t, m as u64, at as u64)
    }

    // Stores the colors of entry k and of those after it that lie in the same period, and tells which entry is next.
    fn fill_piece(self, t: &mut [u32], k: usize, first: u32, stride: u32) -> usize
        requires { (0 < stride) × (first + length t.old * stride ≤ twice_bias) × (length t.old < most_steps) × (k < length t.old) }
        ensures { Stored (repeated_at self.entry.stops.positions.now self.entry.stops.values.now first stride) k result t.old t.new
            × (k < result) × (result ≤ length t.old) }
    {
        let positions = self.stops.positions;
        let last = positions[positions.len() - 1];
        let at = moved(positions, (first + (k as u32) * stride) as u64);
        let m = table::entries_in(last - at + (stride - 1), stride) as usize;
        let end = k + picture::at_most(m, t.len() - k);
        self.stops.fill_spaced(&mut t[k..end], at, stride);
        end
    }

    // Fills a table piece by piece.
    fn fill_pieces(self, t: &mut [u32], first: u32, stride: u32)
        requires { (0 < stride) × (first + length t.old * stride ≤ twice_bias) × (length t.old < most_steps) }
        ensures { Filled (repeated_at self.entry.stops.positions.now self.entry.stops.values.now first stride) t.new × (length t.new ≡ length t.old) }
    {
        let n = t.len();
        let mut k = 0;
        // Kept: each round stores a piece, and is told where the next one begins.
        while k < n {
            k = self.fill_piece(t, k, first, stride);
        }
    }

    // Fills a table: the first q entries, which are whole periods, and then these again.
    fn fill_again(self, t: &mut [u32], q: usize, first: u32, stride: u32)
        requires stride_nonzero { (0 < stride) × (first + length t.old * stride ≤ twice_bias) × (length t.old < most_steps) }
        requires q_nonzero { (0 < q) × (q * stride % (last_in self.stops.positions.now - first_in self.stops.positions.now) ≡ 0) }
        ensures { Filled (repeated_at self.entry.stops.positions.now self.entry.stops.values.now first stride) t.new × (length t.new ≡ length t.old) }
    {
        let end = q.min(t.len());
        self.fill_pieces(&mut t[..end], first, stride);
        copy_on(t, q);
    }

    // Fills a table with the colors of the locations from `first` on, `stride` units apart: those of some whole periods, these again until they are enough,
    // and all of them again.
    pub fn fill_spaced(self, t: &mut [u32], first: u32, stride: u32)
        requires { (0 < stride) × (first + length t.old * stride ≤ twice_bias) × (length t.old < most_steps) }
        ensures { Filled (repeated_at self.entry.stops.positions.now self.entry.stops.values.now first stride) t.new × (length t.new ≡ length t.old) }
    {
        let positions = self.stops.positions;
        let period = positions[positions.len() - 1] - positions[0];
        let q = entries_again(period, stride);
        let m = longer(q);
        let end = m.min(t.len());
        self.fill_again(&mut t[..end], q, first, stride);
        copy_on(t, m);
    }
}
