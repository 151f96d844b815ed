// Color stops of the text, and lists of them.
#![tactic(auto)]

ghost use Rattle.std.specs.Prelude.{◌≡◌, ◌∷◌};
ghost use Rattle.text.specs.Text.{whole_of};
ghost use Rattle.text.specs.View.{view, view_whole};
ghost use Rattle.tokens.specs.Cut.{cut};
ghost use Rattle.stoplist.specs.Stops.{stop_position_of, stop_of, items_of, two_stops_of};
ghost use Rattle.stoplist.specs.View.{blank_list, added, list_in, items_in};

use gradient::{Position, Stop};
use tokens::Unit;

// The first 16 stops of a list, how many it has (17 where it has more than 16), and whether a number of it is out of its range.
// Kept: the count beside the array, since memory is fixed; and the note of a range, since a text that is no gradient is refused before one whose
// number is out of its range, which the list alone no longer tells past its sixteenth stop.
#[derive(Clone, Copy, Debug, PartialEq, Eq)]
pub struct StopList {
    pub stops: [Stop; 16],
    pub count: u32,
    pub wide: bool,
}

// ---- one stop

#[tactic(auto, unfolding(crate::specs::Stops::stop_position_of))]
fn read_position(s: &[u8]) -> Option<(Position, &[u8])>
    ensures { view result ≡ stop_position_of cut s.now }
{
    let (n, rest) = tokens::read_number(s)?;
    match n.unit {
        Unit::Length => Some((Position::Length(n.value), rest)),
        Unit::Percentage => Some((Position::Percentage(n.value), rest)),
        Unit::Angle => None,
    }
}

#[tactic(auto, unfolding(crate::specs::Stops::stop_of))]
fn read_stop(s: &[u8]) -> Option<(Stop, &[u8])>
    ensures { view result ≡ stop_of cut s.now }
{
    let (color, rest) = tokens::read_color(s)?;
    let position = text::gap(rest).and_then(read_position);
    let (position, rest) = position.unwrap_or((Position::Auto, rest));
    Some((Stop { color, position }, rest))
}

// White space may stand around a stop, and nothing else.
fn whole_stop(item: &[u8]) -> Option<Stop>
    ensures { view_whole result ≡ whole_of (stop_of cut) item.now }
{
    text::whole(item, read_stop)
}

// ---- lists

pub fn blank_list() -> StopList
    ensures { result ≡ blank_list }
{
    StopList {
        stops: [gradient::blank_stop(); 16],
        count: 0,
        wide: false,
    }
}

impl StopList {
    // One stop more. Past the sixteenth only the count and the range are noted.
    #[tactic(auto, unfolding(crate::specs::View::added))]
    fn add(&mut self, stop: Stop)
        ensures { self.new ≡ added self.old stop }
    {
        if self.count < 16 {
            self.stops[self.count as usize] = stop;
        }
        self.count = self.count.saturating_add(1).min(17);
        self.wide = self.wide || !gradient::position_in(stop.position);
    }
}

// The first item of a text, and what follows its comma, if it has one.
pub fn first_item(s: &[u8]) -> (&[u8], Option<&[u8]>)
    ensures { items_of s.now ≡ result.0.now ∷ items_in result.1 }
{
    let (item, rest) = text::run(s, |b| b != b',');
    match rest {
        [_, rest @ ..] => (item, Some(rest)),
        [] => (item, None),
    }
}

// The items of a text as stops, two or more.
pub fn read_stops(s: &[u8]) -> Option<StopList>
    ensures { result ≡ list_in (two_stops_of cut (items_of s.now)) }
{
    let mut list = blank_list();
    let mut left = Some(s);
    while let Some(text) = left {
        let (item, rest) = first_item(text);
        // Kept: `let .. else`, the form that docs/DECISIONS.md names for this place.
        let Some(stop) = whole_stop(item) else {
            return None;
        };
        list.add(stop);
        left = rest;
    }
    if list.count < 2 {
        return None;
    }
    Some(list)
}
