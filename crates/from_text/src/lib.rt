// From text to stops and to pixels.
#![tactic(auto)]

ghost use Rattle.std.specs.Prelude.{◌≡◌, length, IfOk};
ghost use Rattle.replies.specs.Refused.{reply_of};
ghost use Rattle.reader.specs.Reading.{read_of};
ghost use Rattle.placing.specs.Reply.{placing};
ghost use Rattle.from_text.specs.Text.{place_text_of, draw_rows_reply, draw_text_reply, text_rule, text_paint};
ghost use Rattle.drawing.specs.Drawn.{DrawnRows, Drawn};

use gradient::Gradient;
use replies::Refusal;
use rows::Strip;
use stops::PlacedStops;

// The stops of a text, placed in a box, where the box and the text are accepted.
pub fn place_text(s: &[u8], w: usize, h: usize) -> Result<PlacedStops, Refusal>
    ensures { placing result ≡ place_text_of s.now w h }
{
    if !replies::box_in(w, h) {
        return Err(Refusal::BadBox);
    }
    let g = reader::read(s)?;
    placing::place(g, w, h)
}

// Judges a strip and its buffer, then reads the text.
#[tactic(auto, using(replies::proofs::Laws::refused_first, replies::proofs::Laws::done_next, crate::proofs::Texts::read_reply, crate::proofs::Texts::read_gradient, crate::proofs::Texts::no_gradient))]
fn accepted(s: &[u8], w: usize, h: usize, a: usize, b: usize, n: usize) -> Result<Gradient, Refusal>
    ensures reply { reply_of result ≡ draw_rows_reply s.now w h a b n }
    ensures gradient { IfOk result (λ g. g ≡ (read_of s.now).gradient) }
{
    replies::strip_reply(w, h, a, b, n)?;
    reader::read(s)
}

// Draws rows a up to b of a text.
pub fn draw_text_rows(
    s: &[u8],
    w: usize,
    h: usize,
    a: usize,
    b: usize,
    buf: &mut [u8],
) -> Result<(), Refusal>
    ensures { DrawnRows (draw_rows_reply s.now w h a b (length buf.old)) (text_rule s.now w h)
        (text_paint s.now w h) w a b (reply_of result) buf.old buf.new }
{
    match accepted(s, w, h, a, b, buf.len()) {
        Ok(g) => {
            drawing::draw_strip(g, Strip { w, h, a, b }, buf);
            Ok(())
        }
        Err(refusal) => Err(replies::refuse(buf, refusal)),
    }
}

// Draws a text.
pub fn draw_text(s: &[u8], w: usize, h: usize, buf: &mut [u8]) -> Result<(), Refusal>
    ensures { Drawn (draw_text_reply s.now w h (length buf.old)) (text_rule s.now w h)
        (text_paint s.now w h) w h (reply_of result) buf.old buf.new }
{
    draw_text_rows(s, w, h, 0, h, buf)
}
