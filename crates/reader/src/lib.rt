// From the text of a gradient to its value.
#![tactic(auto)]

ghost use Rattle.std.specs.Prelude.{◌≡◌};
ghost use Rattle.text.specs.View.{view};
ghost use Rattle.tokens.specs.Cut.{cut};
ghost use Rattle.stoplist.specs.View.{items_in};
ghost use Rattle.reader.specs.Text.{with_stops, linear_of, circular_of, of_kind, body_of, kind_of, function_of};
ghost use Rattle.replies.specs.Refused.{reply_of};
ghost use Rattle.reader.specs.Reading.{reading, read_of};
ghost use Rattle.reader.specs.View.{view_body, draft_of, draft_reply, concluded};

use gradient::{Direction, Gradient, Shape, Side};
use replies::Refusal;
use stoplist::StopList;
use text::word_for;

// A gradient as it is written.
#[derive(Clone, Copy, Debug, PartialEq, Eq)]
pub struct Draft {
    pub shape: Shape,
    pub repeating: bool,
    pub list: StopList,
}

// Which function is called, and whether it is the repeating one.
#[derive(Clone, Copy, Debug, PartialEq, Eq)]
pub enum Kind {
    Linear(bool),
    Radial(bool),
}

// ---- what stands between the brackets

// A shape, and the text of its stops, if there is one.
fn with_stops(shape: Shape, repeating: bool, stops: Option<&[u8]>) -> Option<Draft>
    ensures { result ≡ draft_of (with_stops cut shape repeating (items_in stops.entry)) }
{
    let list = stoplist::read_stops(stops?)?;
    Some(Draft {
        shape,
        repeating,
        list,
    })
}

fn read_linear(repeating: bool, s: &[u8]) -> Option<Draft>
    ensures { result ≡ draft_of (linear_of cut repeating s.now) }
{
    let (first, others) = stoplist::first_item(s);
    match text::whole(first, directions::read_direction) {
        Some(direction) => with_stops(Shape::Linear(direction), repeating, others),
        None => with_stops(
            Shape::Linear(Direction::Side(Side::Bottom)),
            repeating,
            Some(s),
        ),
    }
}

fn read_circular(repeating: bool, s: &[u8]) -> Option<Draft>
    ensures { result ≡ draft_of (circular_of cut repeating s.now) }
{
    let (first, others) = stoplist::first_item(s);
    let shape = text::whole(first, circles::read_radial)?;
    with_stops(shape, repeating, others)
}

fn read_body(kind: Kind, s: &[u8]) -> Option<Draft>
    ensures { result ≡ draft_of (of_kind cut kind s.now) }
{
    match kind {
        Kind::Linear(repeating) => read_linear(repeating, s),
        Kind::Radial(repeating) => read_circular(repeating, s),
    }
}

// ---- the whole text

// What stands before the closing bracket, the last byte that is no white space.
fn body(s: &[u8]) -> Option<&[u8]>
    ensures { view_body result ≡ body_of s.now }
{
    let trimmed = text::trim_end(s);
    match trimmed {
        [body @ .., b')'] => Some(body),
        _ => None,
    }
}

fn read_kind(s: &[u8]) -> Option<(Kind, &[u8])>
    ensures { view result ≡ kind_of s.now }
{
    word_for(s, b"linear-gradient(", Kind::Linear(false))
        .or(word_for(s, b"radial-gradient(", Kind::Radial(false)))
        .or(word_for(s, b"repeating-linear-gradient(", Kind::Linear(true)))
        .or(word_for(s, b"repeating-radial-gradient(", Kind::Radial(true)))
}

#[tactic(auto, unfolding(crate::specs::Text::function_of))]
fn read_function(s: &[u8]) -> Option<Draft>
    ensures { result ≡ draft_of (function_of cut s.now) }
{
    let (kind, rest) = read_kind(s)?;
    read_body(kind, body(rest)?)
}

fn draft_reply(d: Draft) -> Result<(), Refusal>
    ensures { reply_of result ≡ draft_reply d }
{
    let list = d.list;
    if !gradient::shape_in(d.shape) || list.wide {
        return Err(Refusal::OutOfRange);
    }
    if 16 < list.count {
        return Err(Refusal::TooManyStops);
    }
    Ok(())
}

#[tactic(auto, using(crate::proofs::Answered::err_answered))]
fn conclude(d: Draft) -> Result<Gradient, Refusal>
    ensures { reading result ≡ concluded d }
{
    draft_reply(d)?;
    let list = d.list;
    let stops = list.stops;
    Ok(Gradient {
        shape: d.shape,
        repeating: d.repeating,
        count: list.count,
        stops,
    })
}

// Reads a gradient. Any bytes are taken, of any length.
pub fn read(s: &[u8]) -> Result<Gradient, Refusal>
    ensures { reading result ≡ read_of s.now }
{
    if 1024 < s.len() {
        return Err(Refusal::LongText);
    }
    match read_function(text::skip_space(s)) {
        Some(draft) => conclude(draft),
        None => Err(Refusal::Malformed),
    }
}
