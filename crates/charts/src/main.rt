// Draws charts from their text, those of document 01 among them, strips of charts, and texts, rows and buffers that are refused; prints for each the
// reply and every byte of the buffer, which holds 1 in every byte before. tests/drawing/independent.py finds the same lines from the rules alone.
#![tactic(auto)]

ghost use Rattle.std.specs.Prelude.{◌≤◌};
ghost use Rattle.charts.specs.declared.TheConstants.{MOST};

use replies::Refusal;
use std::fmt;

// The bytes of the largest buffer.
const MOST: usize = 64;

// ---- charts

// A text, the box that it is drawn in, its rows that are drawn, from the first up to the end, if not all, and how many bytes the buffer has.
#[derive(Clone, Copy, Debug, PartialEq, Eq)]
struct Chart {
    text: &'static str,
    size: (usize, usize),
    rows: Option<(usize, usize)>,
    len: usize,
    ghost held: { len ≤ MOST },
}

impl fmt::Display for Chart {
    fn fmt<W: fmt::Write>(&self, f: &mut fmt::Formatter<W>) -> fmt::Result {
        if let Some((first, end)) = self.rows {
            write!(f, "rows {first} up to {end} of ")?;
        }
        let (w, h) = self.size;
        write!(f, "{w}x{h} in {} {}", self.len, self.text)
    }
}

const ACCEPTED: [Chart; 8] = [
    Chart {
        text: "linear-gradient(to right, black, white)",
        size: (4, 1),
        rows: None,
        len: 20,
    },
    Chart {
        text: "linear-gradient(to right, red, transparent)",
        size: (2, 1),
        rows: None,
        len: 8,
    },
    Chart {
        text: "linear-gradient(to top right, black, white)",
        size: (3, 4),
        rows: None,
        len: 50,
    },
    Chart {
        text: "linear-gradient(red 40%, white, black, blue)",
        size: (1, 16),
        rows: None,
        len: 64,
    },
    Chart {
        text: "linear-gradient(to left, red -50%, white, blue)",
        size: (5, 3),
        rows: None,
        len: 60,
    },
    Chart {
        text: "linear-gradient(200.25deg, red 2px, white 0px, #00f8 4px)",
        size: (4, 4),
        rows: None,
        len: 64,
    },
    Chart {
        text: "radial-gradient(circle at 0.5px 0.5px, red -50px, yellow 100px)",
        size: (1, 1),
        rows: None,
        len: 4,
    },
    Chart {
        text: "radial-gradient(circle closest-side at 30% 40%, red, lime 1px, blue 1px, #1234)",
        size: (4, 4),
        rows: None,
        len: 64,
    },
];

// Positions, runs of unplaced stops, a center and a size that are not whole units.
const BETWEEN_UNITS: [Chart; 3] = [
    Chart {
        text: "linear-gradient(to right, black 33.333%, white 66.667%)",
        size: (1, 1),
        rows: None,
        len: 4,
    },
    Chart {
        text: "linear-gradient(to top right, black -50%, red, white 50%)",
        size: (3, 4),
        rows: None,
        len: 48,
    },
    Chart {
        text: "radial-gradient(circle 0.995px at 33.333% 0.01px, red, blue)",
        size: (2, 2),
        rows: None,
        len: 16,
    },
];

const REFUSED: [Chart; 6] = [
    Chart {
        text: "linear-gradient(red, blue)",
        size: (0, 1),
        rows: None,
        len: 8,
    },
    Chart {
        text: "linear-gradient(red, blue)",
        size: (1, 2049),
        rows: None,
        len: 8,
    },
    Chart {
        text: "linear-gradient(red, blue)",
        size: (2, 2),
        rows: None,
        len: 15,
    },
    Chart {
        text: "linear-gradient(red, blue)",
        size: (1, 1),
        rows: None,
        len: 0,
    },
    Chart {
        text: "linear-gradient(red, blue",
        size: (1, 1),
        rows: None,
        len: 6,
    },
    Chart {
        text: "linear-gradient(45.1deg, red, blue)",
        size: (1, 1),
        rows: None,
        len: 6,
    },
];

const STRIPS: [Chart; 8] = [
    Chart {
        text: "linear-gradient(to top right, black, white)",
        size: (3, 4),
        rows: Some((0, 1)),
        len: 12,
    },
    Chart {
        text: "linear-gradient(to top right, black, white)",
        size: (3, 4),
        rows: Some((1, 3)),
        len: 26,
    },
    Chart {
        text: "linear-gradient(to top right, black, white)",
        size: (3, 4),
        rows: Some((3, 4)),
        len: 12,
    },
    Chart {
        text: "linear-gradient(to top right, black, white)",
        size: (3, 4),
        rows: Some((0, 4)),
        len: 50,
    },
    Chart {
        text: "linear-gradient(red 40%, white, black, blue)",
        size: (1, 16),
        rows: Some((6, 14)),
        len: 32,
    },
    Chart {
        text: "linear-gradient(to left, red -50%, white, blue)",
        size: (5, 3),
        rows: Some((2, 3)),
        len: 24,
    },
    Chart {
        text: "radial-gradient(circle closest-side at 30% 40%, red, lime 1px, blue 1px, #1234)",
        size: (4, 4),
        rows: Some((2, 4)),
        len: 32,
    },
    Chart {
        text: "radial-gradient(circle, red, blue 2px)",
        size: (2, 2000),
        rows: Some((999, 1001)),
        len: 16,
    },
];

// Of two reasons to refuse, the first in the order 1, 8, 2, 3 to 6 is given.
const REFUSED_ROWS: [Chart; 10] = [
    Chart {
        text: "linear-gradient(red, blue)",
        size: (2, 2),
        rows: Some((1, 1)),
        len: 8,
    },
    Chart {
        text: "linear-gradient(red, blue)",
        size: (2, 2),
        rows: Some((1, 3)),
        len: 16,
    },
    Chart {
        text: "linear-gradient(red, blue)",
        size: (2, 2),
        rows: Some((18446744073709551615, 1)),
        len: 8,
    },
    Chart {
        text: "linear-gradient(red, blue)",
        size: (2, 2),
        rows: Some((0, 18446744073709551615)),
        len: 8,
    },
    Chart {
        text: "linear-gradient(red, blue)",
        size: (2, 2),
        rows: Some((1, 2)),
        len: 7,
    },
    Chart {
        text: "linear-gradient(red, blue)",
        size: (0, 2),
        rows: Some((1, 1)),
        len: 8,
    },
    Chart {
        text: "linear-gradient(red, blue)",
        size: (2, 2),
        rows: Some((1, 1)),
        len: 0,
    },
    Chart {
        text: "linear-gradient(red, blue",
        size: (2, 2),
        rows: Some((1, 1)),
        len: 8,
    },
    Chart {
        text: "linear-gradient(red, blue",
        size: (2, 2),
        rows: Some((1, 2)),
        len: 7,
    },
    Chart {
        text: "linear-gradient(red, blue",
        size: (2, 2),
        rows: Some((1, 2)),
        len: 9,
    },
];

// Lines that repeat: periods within the box and before it, of a pixel and of a unit or two.
const REPEATING_LINES: [Chart; 6] = [
    Chart {
        text: "repeating-linear-gradient(to right, black, white 4px)",
        size: (8, 1),
        rows: None,
        len: 32,
    },
    Chart {
        text: "repeating-linear-gradient(to right, red -3px, blue -1px)",
        size: (8, 1),
        rows: None,
        len: 32,
    },
    Chart {
        text: "repeating-linear-gradient(red -1.5px, lime 1px, blue 2.5px)",
        size: (1, 8),
        rows: None,
        len: 32,
    },
    Chart {
        text: "repeating-linear-gradient(45deg, black, white 1px)",
        size: (4, 4),
        rows: None,
        len: 64,
    },
    Chart {
        text: "repeating-linear-gradient(to right, red, lime 0.008px, blue 0.016px)",
        size: (6, 2),
        rows: None,
        len: 48,
    },
    Chart {
        text: "repeating-linear-gradient(to bottom right, red, blue 0.016px, white 0.031px)",
        size: (4, 4),
        rows: None,
        len: 64,
    },
];

// One color, where the period is none.
const ONE_COLOR: [Chart; 3] = [
    Chart {
        text: "repeating-linear-gradient(red 0, white 0, blue 0)",
        size: (4, 2),
        rows: None,
        len: 36,
    },
    Chart {
        text: "repeating-radial-gradient(circle at 1px 1px, red 7px, #0f08 5px, transparent 2px)",
        size: (2, 2),
        rows: None,
        len: 16,
    },
    Chart {
        text: "repeating-radial-gradient(0px at 1.5px 1.5px, white, #123, #4567)",
        size: (3, 3),
        rows: None,
        len: 36,
    },
];

const REPEATING_CIRCLES: [Chart; 3] = [
    Chart {
        text: "repeating-radial-gradient(circle at 0 0, black, white 2px)",
        size: (4, 4),
        rows: None,
        len: 64,
    },
    Chart {
        text: "repeating-radial-gradient(circle closest-side, red -30%, #00f8 1px, lime 90%)",
        size: (4, 4),
        rows: None,
        len: 64,
    },
    Chart {
        text: "repeating-radial-gradient(1px, aqua, yellow)",
        size: (4, 4),
        rows: None,
        len: 64,
    },
];

// Bars, periods past the box and of half a pixel, colors that are not opaque.
const MORE_REPEATING_LINES: [Chart; 7] = [
    Chart {
        text: "repeating-linear-gradient(to left, #f00 50%, #f00 75%, #00f 75%, #00f)",
        size: (8, 1),
        rows: None,
        len: 32,
    },
    Chart {
        text: "repeating-linear-gradient(to right, red 100px, transparent 102px, blue 105px)",
        size: (16, 1),
        rows: None,
        len: 64,
    },
    Chart {
        text: "repeating-linear-gradient(to right, #ff000080, #00ff0000 1.5px, #0000ff40 3px)",
        size: (8, 1),
        rows: None,
        len: 40,
    },
    Chart {
        text: "REPEATING-LINEAR-GRADIENT(0DEG, #012 -40px, #fed 60px)",
        size: (1, 16),
        rows: None,
        len: 64,
    },
    Chart {
        text: "repeating-linear-gradient(200.25deg, red 2px, white 0px, #00f8 4px)",
        size: (4, 4),
        rows: None,
        len: 64,
    },
    Chart {
        text: "repeating-linear-gradient(to right, #000, #fff .5px)",
        size: (2, 1),
        rows: None,
        len: 8,
    },
    Chart {
        text: "repeating-linear-gradient(to right, #000 -.5px, #fff)",
        size: (3, 1),
        rows: None,
        len: 12,
    },
];

const REPEATING_REFUSED: [Chart; 5] = [
    Chart {
        text: "repeating-linear-gradient(red)",
        size: (1, 1),
        rows: None,
        len: 6,
    },
    Chart {
        text: "repeating-radial-gradient(red, blue)",
        size: (1, 1),
        rows: None,
        len: 6,
    },
    Chart {
        text: "repeating -linear-gradient(red, blue)",
        size: (1, 1),
        rows: None,
        len: 6,
    },
    Chart {
        text: "repeating-linear-gradient(45.1deg, red, blue 5px)",
        size: (1, 1),
        rows: None,
        len: 6,
    },
    Chart {
        text: "repeating-linear-gradient(red, blue)",
        size: (2, 2),
        rows: None,
        len: 15,
    },
];

const REPEATING_ROWS: [Chart; 6] = [
    Chart {
        text: "repeating-linear-gradient(to top right, black, white 1.5px)",
        size: (3, 4),
        rows: Some((1, 3)),
        len: 26,
    },
    Chart {
        text: "repeating-linear-gradient(red -40%, white, blue 10%)",
        size: (1, 16),
        rows: Some((6, 14)),
        len: 32,
    },
    Chart {
        text: "repeating-radial-gradient(circle closest-side at 30% 40%, red, lime .5px, blue .5px, #1234 1px)",
        size: (4, 4),
        rows: Some((2, 4)),
        len: 32,
    },
    Chart {
        text: "repeating-radial-gradient(circle, red, blue 2px)",
        size: (2, 2000),
        rows: Some((999, 1001)),
        len: 16,
    },
    Chart {
        text: "repeating-linear-gradient(red 3px, white 3px, transparent 3px)",
        size: (2, 2),
        rows: Some((1, 2)),
        len: 8,
    },
    Chart {
        text: "repeating-linear-gradient(red, blue)",
        size: (2, 2),
        rows: Some((1, 1)),
        len: 8,
    },
];

// ---- drawing

fn draw(chart: &Chart, buf: &mut [u8]) -> Result<(), Refusal> {
    let text = chart.text.as_bytes();
    let (w, h) = chart.size;
    match chart.rows {
        None => from_text::draw_text(text, w, h, buf),
        Some((first, end)) => from_text::draw_text_rows(text, w, h, first, end, buf),
    }
}

// Draws a chart, and prints it, the reply and what is left in the buffer. What cannot be written is left out.
fn report(rt: &impl Print, chart: &Chart) {
    let mut bytes = [1u8; MOST];
    let buf = &mut bytes[..chart.len];
    let reply = replies::number(draw(chart, buf));
    let _ = print!(rt; "{chart}\n{reply}:");
    for byte in buf {
        let _ = print!(rt; " {byte}");
    }
    let _ = println!(rt; "");
}

fn report_all(rt: &impl Print, charts: &[Chart]) {
    for chart in charts {
        report(rt, chart);
    }
}

fn main(rt: HostRuntime) {
    report_all(&rt, &ACCEPTED);
    report_all(&rt, &BETWEEN_UNITS);
    report_all(&rt, &REFUSED);
    report_all(&rt, &STRIPS);
    report_all(&rt, &REFUSED_ROWS);
    report_all(&rt, &REPEATING_LINES);
    report_all(&rt, &ONE_COLOR);
    report_all(&rt, &REPEATING_CIRCLES);
    report_all(&rt, &MORE_REPEATING_LINES);
    report_all(&rt, &REPEATING_REFUSED);
    report_all(&rt, &REPEATING_ROWS);
}
