// The drawing calls over values.
#![tactic(auto)]

ghost use Rattle.std.specs.Prelude.{◌≡◌, ◌*◌, ◌<◌, length};
ghost use Rattle.replies.specs.Refused.{reply_of};
ghost use Rattle.gradient.specs.Check.{Accepted};
ghost use Rattle.line.specs.Box.{Box};
ghost use Rattle.line.specs.Line.{rule_of};
ghost use Rattle.line.specs.Represented.{rule_in};
ghost use Rattle.stops.specs.Check.{placed_of};
ghost use Rattle.placing.specs.Placed.{placed_in};
ghost use Rattle.color.specs.Numbers.{Lendable};
ghost use Rattle.rows.specs.Pixel.{Placed, Rows};
ghost use Rattle.drawing.specs.Replies.{gradient_rows_reply, gradient_reply, stops_reply};
ghost use Rattle.drawing.specs.Drawn.{gradient_paint, stops_paint, DrawnRows, Drawn};
ghost use Rattle.drawing.specs.Inner.{Painted};

use gradient::Gradient;
use line::Line;
use replies::Refusal;
use rows::Strip;
use stops::PlacedStops;

// Draws a strip of the picture that placed stops color, repeated or not, then zeros.
fn draw_placed(l: Line, p: PlacedStops, repeating: bool, z: Strip, buf: &mut [u8])
    requires { Placed l z.w z.h × Lendable p × (1 < p.count) × Rows z (length buf.old) }
    ensures { Painted (rule_in l z.w z.h) repeating (placed_of p) z.w z.a z.b buf.old buf.new }
{
    let mut stops = [0u32; ramp::HEAD];
    ramp::set_stops(&mut stops, p, repeating);
    strips::draw(&stops, l, z, buf);
    picture::clear_from(buf, 4 * z.w * (z.b - z.a));
}

// Draws a strip of a gradient that is accepted, then zeros.
pub fn draw_strip(g: Gradient, z: Strip, buf: &mut [u8])
    requires { Box z.w z.h × Accepted g × Rows z (length buf.old) }
    ensures { Painted (rule_of g.shape z.w z.h) g.repeating (placed_in g z.w z.h) z.w z.a z.b buf.old buf.new }
{
    let shape = g.shape;
    let l = line::line_of(shape, z.w, z.h);
    let p = placing::place_in_box(g, z.w, z.h);
    draw_placed(l, p, g.repeating, z, buf);
}

// Judges a strip and its buffer, then the gradient.
#[tactic(auto, using(replies::proofs::Laws::refused_first, replies::proofs::Laws::done_next))]
fn gradient_reply(
    g: Gradient,
    w: usize,
    h: usize,
    a: usize,
    b: usize,
    n: usize,
) -> Result<(), Refusal>
    ensures { reply_of result ≡ gradient_rows_reply g w h a b n }
{
    replies::strip_reply(w, h, a, b, n)?;
    gradient::check(g)
}

// Draws rows a up to b of a gradient.
pub fn draw_gradient_rows(
    g: Gradient,
    w: usize,
    h: usize,
    a: usize,
    b: usize,
    buf: &mut [u8],
) -> Result<(), Refusal>
    ensures { DrawnRows (gradient_rows_reply g w h a b (length buf.old)) (rule_of g.shape w h) (gradient_paint g w h) w a b
        (reply_of result) buf.old buf.new }
{
    if let Err(refusal) = gradient_reply(g, w, h, a, b, buf.len()) {
        return Err(replies::refuse(buf, refusal));
    }
    draw_strip(g, Strip { w, h, a, b }, buf);
    Ok(())
}

// Draws a gradient.
pub fn draw_gradient(g: Gradient, w: usize, h: usize, buf: &mut [u8]) -> Result<(), Refusal>
    ensures { Drawn (gradient_reply g w h (length buf.old)) (rule_of g.shape w h) (gradient_paint g w h) w h
        (reply_of result) buf.old buf.new }
{
    draw_gradient_rows(g, w, h, 0, h, buf)
}

// Judges a box and its buffer, then the gradient beside the placed stops.
#[tactic(auto, using(replies::proofs::Laws::refused_first, replies::proofs::Laws::done_next))]
fn stops_reply(g: Gradient, p: PlacedStops, w: usize, h: usize, n: usize) -> Result<(), Refusal>
    ensures { reply_of result ≡ stops_reply g p w h n }
{
    replies::room_reply(w, h, n)?;
    replies::lower(gradient::check(g), stops::check_placed(p))
}

// Draws placed stops along a gradient's direction, or from its circle's center, repeated where the gradient repeats.
pub fn draw_stops(
    g: Gradient,
    p: PlacedStops,
    w: usize,
    h: usize,
    buf: &mut [u8],
) -> Result<(), Refusal>
    ensures { Drawn (stops_reply g p w h (length buf.old)) (rule_of g.shape w h) (stops_paint g p) w h
        (reply_of result) buf.old buf.new }
{
    if let Err(refusal) = stops_reply(g, p, w, h, buf.len()) {
        return Err(replies::refuse(buf, refusal));
    }
    let shape = g.shape;
    let l = line::line_of(shape, w, h);
    draw_placed(l, p, g.repeating, Strip { w, h, a: 0, b: h }, buf);
    Ok(())
}
