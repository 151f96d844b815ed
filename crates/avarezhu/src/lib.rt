// The calls of the C side: reading, placing and drawing on plain numbers and slices of bytes. include/avarezhu.h declares them, and docs/LAYOUT.md
// has the layouts of a gradient and of placed stops.
#![tactic(auto)]

ghost use Rattle.std.specs.Prelude.{◌≡◌, ◌≤◌, length, IfOk, OnOk};
ghost use Rattle.replies.specs.Refused.{reply_of};
ghost use Rattle.replies.specs.Handed.{Handed};
ghost use Rattle.reader.specs.Reading.{read_of};
ghost use Rattle.placing.specs.Placed.{placed_in, listed};
ghost use Rattle.placing.specs.Reply.{placing, handed_out};
ghost use Rattle.from_text.specs.Text.{draw_rows_reply, draw_text_reply, text_rule, text_paint};
ghost use Rattle.drawing.specs.Drawn.{DrawnRows, Drawn};
ghost use Rattle.to_png.specs.File.{png_reply, png_of};
ghost use Rattle.layout.specs.Words.{layout_of};
ghost use Rattle.layout.specs.Taken.{taken_of};
ghost use Rattle.stopslayout.specs.Words.{placed_layout_of};
ghost use Rattle.stopslayout.specs.Taken.{taken_stops_of};
ghost use Rattle.avarezhu.specs.Calls.{read_call, place_call, place_gradient_call, draw_gradient_rows_call, draw_gradient_call, draw_stops_call, placed_layout, taken_rule, taken_paint, taken_stops_paint};

use gradient::Gradient;
use replies::Refusal;
use stops::PlacedStops;

// ---- reading

// Judges a lent slice, then reads a text into it: one function, since a gradient that is handed on is copied once more on the stack.
fn read(text: &[u8], out: &mut [u8]) -> Result<(), Refusal>
    ensures { Handed (read_call text.now (length out.old)) (layout_of (read_of text.now).gradient)
        (reply_of result) out.old out.new }
{
    if let Err(refusal) = replies::size_reply(layout::SIZE, out.len()) {
        return Err(replies::refuse(out, refusal));
    }
    match reader::read(text) {
        Ok(g) => {
            layout::write(g, out);
            Ok(())
        }
        Err(refusal) => Err(replies::refuse(out, refusal)),
    }
}

// Reads a text, and hands out its gradient.
#[unsafe(no_mangle)]
pub extern "C" fn avarezhu_read(text: &[u8], out: &mut [u8]) -> u32
    ensures { Handed (read_call text.now (length out.old)) (layout_of (read_of text.now).gradient)
        result out.old out.new }
{
    replies::number(read(text, out))
}

// ---- placing

// Hands out placed stops, or their refusal.
fn hand_out(placed: Result<PlacedStops, Refusal>, out: &mut [u8]) -> Result<(), Refusal>
    requires { OnOk placed (132 ≤ length out.old) }
    ensures { Handed (placing placed).reply (placed_layout_of (placing placed).stops) (reply_of result) out.old out.new }
{
    match placed {
        Ok(p) => {
            stopslayout::write(p, out);
            Ok(())
        }
        Err(refusal) => Err(replies::refuse(out, refusal)),
    }
}

// Judges a box and a lent slice of n bytes, then places the stops of a text.
fn place_text(text: &[u8], w: usize, h: usize, n: usize) -> Result<PlacedStops, Refusal>
    ensures room { OnOk result (132 ≤ n) }
    ensures reply { (placing result).reply ≡ place_call text.now w h n }
    ensures stops { (placing result).stops ≡ handed_out (placing result).reply (listed (placed_in (read_of text.now).gradient w h)) }
{
    replies::room_for(w, h, stopslayout::SIZE, n)?;
    from_text::place_text(text, w, h)
}

// Places the stops of a text in a box.
#[unsafe(no_mangle)]
pub extern "C" fn avarezhu_place(text: &[u8], w: usize, h: usize, out: &mut [u8]) -> u32
    ensures { Handed (place_call text.now w h (length out.old)) (placed_layout (read_of text.now).gradient w h)
        result out.old out.new }
{
    let placed = place_text(text, w, h, out.len());
    replies::number(hand_out(placed, out))
}

// Judges a box and a lent slice of n bytes, then places the stops of a gradient that is handed in.
fn place_gradient(gradient: &[u8], w: usize, h: usize, n: usize) -> Result<PlacedStops, Refusal>
    ensures room { OnOk result (132 ≤ n) }
    ensures reply { (placing result).reply ≡ place_gradient_call gradient.now w h n }
    ensures stops { (placing result).stops ≡ handed_out (placing result).reply (listed (placed_in (taken_of gradient.now).gradient w h)) }
{
    replies::room_for(w, h, stopslayout::SIZE, n)?;
    let g = layout::take(gradient)?;
    placing::place(g, w, h)
}

// Places the stops of a gradient that is handed in.
// Kept: beside `avarezhu_place`, since C calls both.
#[unsafe(no_mangle)]
pub extern "C" fn avarezhu_place_gradient(
    gradient: &[u8],
    w: usize,
    h: usize,
    out: &mut [u8],
) -> u32
    ensures { Handed (place_gradient_call gradient.now w h (length out.old))
        (placed_layout (taken_of gradient.now).gradient w h) result out.old out.new }
{
    let placed = place_gradient(gradient, w, h, out.len());
    replies::number(hand_out(placed, out))
}

// ---- drawing

// Draws rows `first` up to `end` of a text.
#[unsafe(no_mangle)]
pub extern "C" fn avarezhu_draw_rows(
    text: &[u8],
    w: usize,
    h: usize,
    first: usize,
    end: usize,
    pixels: &mut [u8],
) -> u32
    ensures { DrawnRows (draw_rows_reply text.now w h first end (length pixels.old)) (text_rule text.now w h)
        (text_paint text.now w h) w first end result pixels.old pixels.new }
{
    replies::number(from_text::draw_text_rows(text, w, h, first, end, pixels))
}

// Draws a text.
#[unsafe(no_mangle)]
pub extern "C" fn avarezhu_draw(text: &[u8], w: usize, h: usize, pixels: &mut [u8]) -> u32
    ensures { Drawn (draw_text_reply text.now w h (length pixels.old)) (text_rule text.now w h)
        (text_paint text.now w h) w h result pixels.old pixels.new }
{
    replies::number(from_text::draw_text(text, w, h, pixels))
}

// Judges a strip and its buffer, then takes the gradient.
#[tactic(auto, using(replies::proofs::Laws::refused_first, replies::proofs::Laws::done_next, crate::proofs::Slices::slice_reply, crate::proofs::Slices::slice_gradient, from_text::proofs::Texts::no_gradient))]
fn take_for(
    gradient: &[u8],
    w: usize,
    h: usize,
    first: usize,
    end: usize,
    n: usize,
) -> Result<Gradient, Refusal>
    ensures reply { reply_of result ≡ draw_gradient_rows_call gradient.now w h first end n }
    ensures gradient { IfOk result (λ g. g ≡ (taken_of gradient.now).gradient) }
{
    replies::strip_reply(w, h, first, end, n)?;
    layout::take(gradient)
}

fn draw_gradient_rows(
    gradient: &[u8],
    w: usize,
    h: usize,
    first: usize,
    end: usize,
    pixels: &mut [u8],
) -> Result<(), Refusal>
    ensures { DrawnRows (draw_gradient_rows_call gradient.now w h first end (length pixels.old)) (taken_rule gradient.now w h)
        (taken_paint gradient.now w h) w first end (reply_of result) pixels.old pixels.new }
{
    match take_for(gradient, w, h, first, end, pixels.len()) {
        Ok(g) => drawing::draw_gradient_rows(g, w, h, first, end, pixels),
        Err(refusal) => Err(replies::refuse(pixels, refusal)),
    }
}

// Draws rows `first` up to `end` of a gradient that is handed in.
#[unsafe(no_mangle)]
pub extern "C" fn avarezhu_draw_gradient_rows(
    gradient: &[u8],
    w: usize,
    h: usize,
    first: usize,
    end: usize,
    pixels: &mut [u8],
) -> u32
    ensures { DrawnRows (draw_gradient_rows_call gradient.now w h first end (length pixels.old)) (taken_rule gradient.now w h)
        (taken_paint gradient.now w h) w first end result pixels.old pixels.new }
{
    replies::number(draw_gradient_rows(gradient, w, h, first, end, pixels))
}

// Draws a gradient that is handed in.
#[unsafe(no_mangle)]
pub extern "C" fn avarezhu_draw_gradient(
    gradient: &[u8],
    w: usize,
    h: usize,
    pixels: &mut [u8],
) -> u32
    ensures { Drawn (draw_gradient_call gradient.now w h (length pixels.old)) (taken_rule gradient.now w h)
        (taken_paint gradient.now w h) w h result pixels.old pixels.new }
{
    avarezhu_draw_gradient_rows(gradient, w, h, 0, h, pixels)
}

// Judges a box and its buffer, then takes the gradient and the placed stops, which are judged together.
fn take_both(
    gradient: &[u8],
    stops: &[u8],
    w: usize,
    h: usize,
    n: usize,
) -> Result<(Gradient, PlacedStops), Refusal>
    ensures reply { reply_of result ≡ draw_stops_call gradient.now stops.now w h n }
    ensures gradient { IfOk result (λ both. both.0 ≡ (taken_of gradient.now).gradient) }
    ensures stops { IfOk result (λ both. both.1 ≡ (taken_stops_of stops.now).stops) }
{
    replies::room_reply(w, h, n)?;
    let g = layout::take(gradient);
    let p = stopslayout::take(stops);
    replies::lower(g.and(Ok(())), p.and(Ok(())))?;
    Ok((g?, p?))
}

fn draw_stops(
    gradient: &[u8],
    stops: &[u8],
    w: usize,
    h: usize,
    pixels: &mut [u8],
) -> Result<(), Refusal>
    ensures { Drawn (draw_stops_call gradient.now stops.now w h (length pixels.old)) (taken_rule gradient.now w h)
        (taken_stops_paint gradient.now stops.now) w h (reply_of result) pixels.old pixels.new }
{
    match take_both(gradient, stops, w, h, pixels.len()) {
        Ok((g, p)) => drawing::draw_stops(g, p, w, h, pixels),
        Err(refusal) => Err(replies::refuse(pixels, refusal)),
    }
}

// Draws placed stops that are handed in, along the direction, or from the circle's center, of a gradient that is handed in.
#[unsafe(no_mangle)]
pub extern "C" fn avarezhu_draw_stops(
    gradient: &[u8],
    stops: &[u8],
    w: usize,
    h: usize,
    pixels: &mut [u8],
) -> u32
    ensures { Drawn (draw_stops_call gradient.now stops.now w h (length pixels.old)) (taken_rule gradient.now w h)
        (taken_stops_paint gradient.now stops.now) w h result pixels.old pixels.new }
{
    replies::number(draw_stops(gradient, stops, w, h, pixels))
}

// ---- a file to look at

// Draws a text to a PNG file.
#[unsafe(no_mangle)]
pub extern "C" fn avarezhu_png(text: &[u8], w: usize, h: usize, png: &mut [u8]) -> u32
    ensures { Handed (png_reply text.now w h (length png.old)) (png_of text.now w h)
        result png.old png.new }
{
    replies::number(to_png::draw_png(text, w, h, png))
}
