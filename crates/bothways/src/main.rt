// Draws random pictures both ways, by the fast code and by the simple loop, and compares every byte. The two have one contract, so this is a test of
// what the compiler made of them. The numbers come from fixed seeds, so every run draws the same pictures.
#![tactic(auto)]

ghost use Rattle.std.specs.Prelude.{◌<◌};
ghost use Rattle.gradient.specs.Check.{Accepted};
ghost use Rattle.line.specs.Box.{Box};
ghost use Rattle.color.specs.Numbers.{Lendable};
ghost use Rattle.rows.specs.Pixel.{Placed, Rows};

use chance::{Kind, Sort};
use gradient::Gradient;
use line::Line;
use replies::Refusal;
use rows::Strip;
use std::fmt;
use stops::PlacedStops;
use tally::Tally;

// The bytes of the largest picture that is drawn.
const BYTES: usize = 262144;

// ---- drawing both ways

// A picture by the fast code, and by the simple loop.
#[derive(Drop)]
struct Pictures {
    fast: [u8; BYTES],
    plain: [u8; BYTES],
}

impl Pictures {
    // Tells whether all pixels have one color.
    fn draw_stops(&mut self, l: Line, p: PlacedStops, repeating: bool, z: Strip) -> bool
        requires { Placed l z.w z.h × Lendable p × (1 < p.count) × Rows z BYTES }
    {
        let mut stops = [0u32; ramp::HEAD];
        ramp::set_stops(&mut stops, p, repeating);
        strips::draw(&stops, l, z, &mut self.fast);
        rows::draw_each(&stops, l, z, &mut self.plain);
        ramp::is_one_color(&stops)
    }

    fn draw(&mut self, g: Gradient, z: Strip) -> bool
        requires { Box z.w z.h × Accepted g × Rows z BYTES }
    {
        let l = line::line_of(g.shape, z.w, z.h);
        let p = placing::place_in_box(g, z.w, z.h);
        self.draw_stops(l, p, g.repeating, z)
    }

    // Draws a strip into both buffers, and compares all of their bytes.
    fn compare(&mut self, g: Gradient, z: Strip) -> Tally
        requires { Box z.w z.h × Accepted g × Rows z BYTES }
    {
        tally::fill(&mut self.fast);
        tally::fill(&mut self.plain);
        let even = self.draw(g, z);
        Tally {
            pictures: 1,
            parts: (z.b - z.a < z.h) as u64,
            repeated: g.repeating as u64,
            even: even as u64,
            pixels: (z.w * (z.b - z.a)) as u64,
            different: (self.fast != self.plain) as u64,
            refused: 0,
        }
    }

    // A strip, if its rows are rows of the box and the buffers hold them.
    fn try_strip(&mut self, g: Gradient, z: Strip) -> Result<Tally, Refusal>
        requires { Box z.w z.h × Accepted g }
    {
        if z.b <= z.a || z.h < z.b {
            return Err(Refusal::BadRows);
        }
        if BYTES < 4 * z.w * (z.b - z.a) {
            return Err(Refusal::NoRoom);
        }
        Ok(self.compare(g, z))
    }

    // One picture of a kind of shape in a sort of box.
    fn try_picture(&mut self, kind: Kind, sort: Sort, seed: u32) -> Result<Tally, Refusal> {
        let g = chance::gradient_of(kind, seed);
        let area = sort.area(seed);
        let w = area.width;
        let h = area.height;
        replies::box_reply(w, h)?;
        gradient::check(g)?;
        let rows = area.rows(seed);
        let z = Strip {
            w,
            h,
            a: rows.first,
            b: rows.end,
        };
        self.try_strip(g, z)
    }
}

// ---- the report

// So many pictures of a kind of shape, or of each kind in turn, in a sort of box.
#[derive(Clone, Copy, Debug, PartialEq, Eq)]
struct Batch {
    kind: Option<Kind>,
    sort: Sort,
    count: u32,
}

impl Batch {
    fn seed(self) -> u32 {
        let kind = match self.kind {
            Some(kind) => kind as u32,
            None => 10,
        };
        chance::seed_of(kind, self.sort as u32)
    }

    // The kind of its picture k.
    fn kind_of(self, k: u32) -> Kind {
        self.kind.unwrap_or(Kind::ALL[k as usize % 10])
    }

    fn draw(self, pictures: &mut Pictures) -> Tally {
        let seed = self.seed();
        let mut tally = Tally::default();
        for k in 0..self.count {
            let one = pictures.try_picture(self.kind_of(k), self.sort, chance::seed_of(seed, k));
            tally += one.unwrap_or(Tally::refusal());
        }
        tally
    }

    // Draws the pictures, and prints a line about them.
    fn report(self, rt: &impl Print, pictures: &mut Pictures) -> Tally {
        let tally = self.draw(pictures);
        let _ = println!(rt; "{self}: {tally}");
        tally
    }
}

impl fmt::Display for Batch {
    fn fmt<W: fmt::Write>(&self, f: &mut fmt::Formatter<W>) -> fmt::Result {
        match self.kind {
            Some(kind) => write!(f, "{kind}, {}", self.sort),
            None => write!(f, "each of these, {}", self.sort),
        }
    }
}

// Pictures of each kind of shape.
fn draw_kinds(rt: &impl Print, pictures: &mut Pictures) -> Tally {
    let mut tally = Tally::default();
    for kind in Kind::ALL {
        let batch = Batch {
            kind: Some(kind),
            sort: Sort::Small,
            count: 600,
        };
        tally += batch.report(rt, pictures);
    }
    tally
}

// So many pictures in each of some sorts of box.
fn draw_sorts(rt: &impl Print, sorts: &[Sort], count: u32, pictures: &mut Pictures) -> Tally {
    let mut tally = Tally::default();
    for sort in sorts {
        let batch = Batch {
            kind: None,
            sort: *sort,
            count,
        };
        tally += batch.report(rt, pictures);
    }
    tally
}

fn main(rt: HostRuntime) {
    let mut pictures = Pictures {
        fast: [0u8; BYTES],
        plain: [0u8; BYTES],
    };
    let mut all = draw_kinds(&rt, &mut pictures);
    all += draw_sorts(&rt, &Sort::ALL[1..9], 300, &mut pictures);
    all += draw_sorts(&rt, &Sort::ALL[9..], 60, &mut pictures);
    let _ = println!(rt; "in all: {all}");
    let _ = println!(rt; "refused: {}", all.refused);
}
