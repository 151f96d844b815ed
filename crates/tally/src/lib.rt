// The count of pictures that were compared, summed and printed, and what a buffer holds before.
#![tactic(auto)]

ghost use Rattle.std.specs.Prelude.{◌≡◌, length, replicate};

use std::fmt;
use std::ops::AddAssign;

// What was compared: pictures, how many of them in part, of gradients that repeat, and in one color, and their pixels; how many pictures differ; and
// pictures that were refused.
#[derive(Clone, Copy, Debug, PartialEq, Eq, Default)]
pub struct Tally {
    pub pictures: u64,
    pub parts: u64,
    pub repeated: u64,
    pub even: u64,
    pub pixels: u64,
    pub different: u64,
    pub refused: u64,
}

impl Tally {
    // One picture that was refused.
    pub fn refusal() -> Tally {
        Tally {
            refused: 1,
            ..Tally::default()
        }
    }
}

impl AddAssign for Tally {
    fn add_assign(&mut self, other: Tally) {
        self.pictures = self.pictures.wrapping_add(other.pictures);
        self.parts = self.parts.wrapping_add(other.parts);
        self.repeated = self.repeated.wrapping_add(other.repeated);
        self.even = self.even.wrapping_add(other.even);
        self.pixels = self.pixels.wrapping_add(other.pixels);
        self.different = self.different.wrapping_add(other.different);
        self.refused = self.refused.wrapping_add(other.refused);
    }
}

// All but the refused, which a report has a line of its own for.
impl fmt::Display for Tally {
    fn fmt<W: fmt::Write>(&self, f: &mut fmt::Formatter<W>) -> fmt::Result {
        write!(f, "{} pictures, {} in part, ", self.pictures, self.parts)?;
        write!(
            f,
            "{} that repeat, {} in one color; ",
            self.repeated, self.even
        )?;
        write!(f, "{} pixels; {} differ", self.pixels, self.different)
    }
}

// What stands in a buffer before: it must be there after, past the rows that are drawn.
pub fn fill(buf: &mut [u8])
    ensures { buf.new ≡ replicate (length buf.old) 1 }
{
    buf.fill(1);
}
