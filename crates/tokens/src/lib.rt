// Numbers and colors of the text.
#![tactic(auto)]

ghost use Rattle.std.specs.Prelude.{◌≡◌, ◌+◌, ◌*◌, ◌≤◌, min, [], length};
ghost use Rattle.text.specs.Text.{map_read};
ghost use Rattle.text.specs.View.{view, view_whole, SplitsRun};
ghost use Rattle.tokens.specs.Number.{is_digit, decimal, is_negative, after_sign, signed, fraction_of, magnitude_of, unit_of, number_of};
ghost use Rattle.tokens.specs.Cut.{cut, most, up_to};
ghost use Rattle.tokens.specs.Color.{color, hex_value, hex_color, hex_of, named_of, color_names, color_of};

use gradient::Color;
use text::word_for;

// px, % or deg.
#[derive(Clone, Copy, Debug, PartialEq, Eq)]
pub enum Unit {
    Length,
    Percentage,
    Angle,
}

// A number in thousandths of its unit, cut off at a million units either way.
#[derive(Clone, Copy, Debug, PartialEq, Eq)]
pub struct Number {
    pub value: i32,
    pub unit: Unit,
}

// ---- numbers

// The digits at the front of the text, and what follows them.
#[tactic(auto, using(crate::proofs::Decimal::same_digit))]
fn digits(s: &[u8]) -> (&[u8], &[u8])
    ensures { SplitsRun is_digit s.now result.0.now result.1.now }
{
    text::run(s, |b| b.is_ascii_digit())
}

// The number that digits write, cut off at a million.
#[tactic(auto, using(crate::proofs::Decimal::decimal_laws))]
fn value_of(digits: &[u8]) -> u32
    ensures { result ≡ min (decimal 0 digits.now) 1000000 }
{
    let mut value: u32 = 0;
    for b in digits {
        value = (value * 10 + b.saturating_sub(b'0') as u32).min(1_000_000);
    }
    value
}

// The 1 to 3 digits after a point.
fn read_fraction(s: &[u8]) -> Option<(u32, &[u8])>
    ensures { view result ≡ fraction_of s.now }
{
    let (digits, rest) = digits(s);
    let value = value_of(digits);
    match digits.len() {
        1 => Some((value * 100, rest)),
        2 => Some((value * 10, rest)),
        3 => Some((value, rest)),
        _ => None,
    }
}

// The digits of a number with or without a point, cut off at a million.
fn read_magnitude(s: &[u8]) -> Option<(u32, &[u8])>
    ensures { view result ≡ map_read up_to (magnitude_of s.now) }
{
    let (digits, rest) = digits(s);
    let units = value_of(digits) * 1000;
    if let Some(rest) = text::keyword(rest, b".") {
        let (fraction, rest) = read_fraction(rest)?;
        return Some(((units + fraction).min(1_000_000_000), rest));
    }
    if digits.is_empty() {
        None
    } else {
        Some((units, rest))
    }
}

// The unit of a number of so many thousandths.
fn read_unit(s: &[u8], magnitude: u32) -> Option<(Unit, &[u8])>
    ensures { view result ≡ unit_of magnitude s.now }
{
    word_for(s, b"px", Unit::Length)
        .or_else(|| word_for(s, b"%", Unit::Percentage))
        .or_else(|| word_for(s, b"deg", Unit::Angle))
        .or_else(|| if magnitude == 0 {
            Some((Unit::Length, s))
        } else {
            None
        })
}

// Whether a sign at the front is a minus, and what follows it.
#[tactic(auto, unfolding(crate::specs::Number::after_sign, crate::specs::Number::is_negative, text::specs::Text::peek_of, text::specs::Text::rest_of))]
fn read_sign(s: &[u8]) -> (bool, &[u8])
    ensures negative { result.0 ≡ is_negative s.now }
    ensures rest { result.1.now ≡ after_sign s.now }
{
    match s {
        [b'-', rest @ ..] => (true, rest),
        [b'+', rest @ ..] => (false, rest),
        _ => (false, s),
    }
}

fn with_sign(negative: bool, magnitude: u32) -> i32
    requires { magnitude ≤ most }
    ensures { result ≡ signed negative magnitude }
{
    let n = magnitude as i32;
    if negative { -n } else { n }
}

pub fn read_number(s: &[u8]) -> Option<(Number, &[u8])>
    ensures { view result ≡ number_of cut s.now }
{
    let (negative, rest) = read_sign(s);
    let (magnitude, rest) = read_magnitude(rest)?;
    let (unit, rest) = read_unit(rest, magnitude)?;
    let value = with_sign(negative, magnitude);
    Some((Number { value, unit }, rest))
}

// ---- colors

const fn rgba(red: u8, green: u8, blue: u8, alpha: u8) -> Color
    ensures { result ≡ color red green blue alpha }
{
    Color {
        red,
        green,
        blue,
        alpha,
    }
}

#[tactic(auto, unfolding(crate::specs::Color::hex_value))]
fn hex_value(b: u8) -> u8
    ensures { result ≡ hex_value b }
{
    match b {
        b'0'..=b'9' => b - b'0',
        b'A'..=b'F' => b - b'A' + 10,
        b'a'..=b'f' => b - b'a' + 10,
        _ => 0,
    }
}

// The channel of one hex digit, doubled.
#[tactic(auto, using(crate::proofs::Hex::hex_laws))]
fn short(digit: u8) -> u8
    ensures { result ≡ 17 * hex_value digit }
{
    17 * hex_value(digit)
}

// The channel of two.
#[tactic(auto, using(crate::proofs::Hex::hex_laws))]
fn long(high: u8, low: u8) -> u8
    ensures { result ≡ 16 * hex_value high + hex_value low }
{
    16 * hex_value(high) + hex_value(low)
}

// The color of 3, 4, 6 or 8 hex digits.
#[tactic(auto, unfolding(crate::specs::Color::hex_color))]
fn hex_color(digits: &[u8]) -> Option<Color>
    ensures { view_whole result ≡ hex_color (length digits.now) digits.now [] }
{
    match digits {
        [r, g, b] => Some(rgba(short(*r), short(*g), short(*b), 255)),
        [r, g, b, a] => Some(rgba(short(*r), short(*g), short(*b), short(*a))),
        [r, r2, g, g2, b, b2] => Some(rgba(long(*r, *r2), long(*g, *g2), long(*b, *b2), 255)),
        [r, r2, g, g2, b, b2, a, a2] => Some(rgba(
            long(*r, *r2),
            long(*g, *g2),
            long(*b, *b2),
            long(*a, *a2),
        )),
        _ => None,
    }
}

fn read_hex(s: &[u8]) -> Option<(Color, &[u8])>
    ensures { view result ≡ hex_of s.now }
{
    let (digits, rest) = text::run(s, |b| b.is_ascii_hexdigit());
    let color = hex_color(digits)?;
    Some((color, rest))
}

// The names, by their first letter.
fn read_name(s: &[u8]) -> Option<(Color, &[u8])>
    ensures { view result ≡ named_of color_names s.now }
{
    let (letter, _) = text::first_letter(s);
    match letter {
        b'a' => word_for(s, b"aqua", rgba(0x00, 0xff, 0xff, 0xff)),
        b'b' => {
            let black = word_for(s, b"black", rgba(0x00, 0x00, 0x00, 0xff));
            black.or_else(|| word_for(s, b"blue", rgba(0x00, 0x00, 0xff, 0xff)))
        }
        b'f' => word_for(s, b"fuchsia", rgba(0xff, 0x00, 0xff, 0xff)),
        b'g' => {
            let gray = word_for(s, b"gray", rgba(0x80, 0x80, 0x80, 0xff));
            gray.or_else(|| word_for(s, b"green", rgba(0x00, 0x80, 0x00, 0xff)))
        }
        b'l' => word_for(s, b"lime", rgba(0x00, 0xff, 0x00, 0xff)),
        b'm' => word_for(s, b"maroon", rgba(0x80, 0x00, 0x00, 0xff)),
        b'n' => word_for(s, b"navy", rgba(0x00, 0x00, 0x80, 0xff)),
        b'o' => word_for(s, b"olive", rgba(0x80, 0x80, 0x00, 0xff)),
        b'p' => word_for(s, b"purple", rgba(0x80, 0x00, 0x80, 0xff)),
        b'r' => word_for(s, b"red", rgba(0xff, 0x00, 0x00, 0xff)),
        b's' => word_for(s, b"silver", rgba(0xc0, 0xc0, 0xc0, 0xff)),
        b't' => {
            let teal = word_for(s, b"teal", rgba(0x00, 0x80, 0x80, 0xff));
            teal.or_else(|| word_for(s, b"transparent", rgba(0x00, 0x00, 0x00, 0x00)))
        }
        b'w' => word_for(s, b"white", rgba(0xff, 0xff, 0xff, 0xff)),
        b'y' => word_for(s, b"yellow", rgba(0xff, 0xff, 0x00, 0xff)),
        _ => None,
    }
}

#[tactic(auto, unfolding(crate::specs::Color::color_of, text::specs::Text::peek_of, text::specs::Text::rest_of))]
pub fn read_color(s: &[u8]) -> Option<(Color, &[u8])>
    ensures { view result ≡ color_of s.now }
{
    match s {
        [b'#', rest @ ..] => read_hex(rest),
        _ => read_name(s),
    }
}
