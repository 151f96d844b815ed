// Prints the figures of the grid that documents 01 and 02 work through, as the compiled code finds them.
#![tactic(auto)]

ghost use Rattle.std.specs.Prelude.{◌≡◌, true, ◌≤◌, ◌<◌, nat_abs};
ghost use Rattle.gradient.specs.Range.{shape_in};
ghost use Rattle.line.specs.Box.{Box};
ghost use Rattle.numbers.specs.Units.{most_whole};

use gradient::{Coordinate, Direction, Extent, Horizontal, Shape, Size, Vertical};

// What cannot be written is left out.
fn say(rt: &impl Print, label: &str, n: u64) {
    let _ = println!(rt; "{label}: {n}");
}

// A biased number.
fn say_biased(rt: &impl Print, label: &str, u: u32) {
    let sign = if u < numbers::BIAS { "-" } else { "" };
    let n = numbers::apart(u as u64, numbers::WIDE_BIAS);
    let _ = println!(rt; "{label}: {sign}{n}");
}

fn say_percentage(rt: &impl Print, label: &str, p: i32, whole: u32)
    requires { (nat_abs p ≤ 1000000) × (whole ≤ most_whole) }
{
    say_biased(rt, label, numbers::percentage_units(p, whole));
}

fn say_length(rt: &impl Print, label: &str, s: Shape, w: usize, h: usize)
    requires { Box w h × (shape_in s ≡ true) }
{
    say(rt, label, line::line_length(s, w, h) as u64);
}

fn say_location(rt: &impl Print, label: &str, s: Shape, w: usize, h: usize, i: usize, j: usize)
    requires { Box w h × (shape_in s ≡ true) × (i < w) × (j < h) }
{
    let l = line::line_of(s, w, h);
    say(rt, label, line::location(l, w, h, i, j, 0));
}

#[tactic(auto, unfolding(gradient::specs::Range::shape_in))]
fn corner() -> Shape
    ensures { shape_in result ≡ true }
{
    Shape::Linear(Direction::Corner(Vertical::Top, Horizontal::Right))
}

#[tactic(auto, unfolding(gradient::specs::Range::shape_in))]
fn slanted() -> Shape
    ensures { shape_in result ≡ true }
{
    Shape::Linear(Direction::Angle(45000))
}

#[tactic(auto, unfolding(gradient::specs::Range::shape_in))]
fn closest() -> Shape
    ensures { shape_in result ≡ true }
{
    Shape::Circle(
        Size::Extent(Extent::ClosestCorner),
        Coordinate::Length(3000),
        Coordinate::Length(4000),
    )
}

#[tactic(auto, unfolding(gradient::specs::Range::shape_in))]
fn farthest() -> Shape
    ensures { shape_in result ≡ true }
{
    Shape::Circle(
        Size::Extent(Extent::FarthestCorner),
        Coordinate::Percentage(-1000000),
        Coordinate::Percentage(-1000000),
    )
}

fn say_units(rt: &impl Print) {
    say_biased(rt, "0.01px", numbers::length_units(10));
    say_biased(rt, "-0.01px", numbers::length_units(-10));
    say_percentage(rt, "33.333% of 12800", 33333, 12800);
    say_percentage(rt, "-0.01% of 12800", -10, 12800);
    say_percentage(rt, "50% of 1", 50000, 1);
    say_percentage(rt, "-50% of 1", -50000, 1);
}

fn say_lines(rt: &impl Print) {
    say_length(rt, "to top right in 3x4", corner(), 3, 4);
    say_location(rt, "to top right in 3x4, pixel 0,3", corner(), 3, 4, 0, 3);
    say_location(rt, "to top right in 3x4, pixel 2,0", corner(), 3, 4, 2, 0);
    say_length(
        rt,
        "closest-corner from 3px 4px in 20x20",
        closest(),
        20,
        20,
    );
    say_length(rt, "45deg in 2048x2048", slanted(), 2048, 2048);
    say_location(
        rt,
        "45deg in 2048x2048, pixel 2047,0",
        slanted(),
        2048,
        2048,
        2047,
        0,
    );
    say_length(
        rt,
        "farthest-corner from -1000% -1000% in 2048x2048",
        farthest(),
        2048,
        2048,
    );
}

fn main(rt: HostRuntime) {
    say_units(&rt);
    say_lines(&rt);
}
