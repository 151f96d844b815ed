// Refusals, the reply numbers that C sees of them and their order, and what every call judges first: a box, the rows of a strip, and the length of a lent
// slice.
#![tactic(auto)]

ghost use Rattle.std.specs.Prelude.{◌≡◌, length, replicate};
ghost use Rattle.replies.specs.Replies.{lowest};
ghost use Rattle.replies.specs.Refused.{number, reply_of};
ghost use Rattle.replies.specs.Room.{box_in, box_reply, rows_in, rows_reply, size_reply, room_for, strip_reply, room_reply};

// Why a call is refused, in the order of the reply numbers.
#[derive(Clone, Copy, Debug, PartialEq, Eq)]
pub enum Refusal {
    // Width or height outside 1 to 2,048.
    BadBox,
    // Buffer shorter than 4·W bytes for each row to be drawn, or lent slice shorter than the size of its layout.
    NoRoom,
    // Text longer than 1,024 bytes.
    LongText,
    // Text not in the grammar, or a gradient or stops handed in that break their layout.
    Malformed,
    // A number outside its range.
    OutOfRange,
    // More than 16 stops.
    TooManyStops,
    // Rows of a strip that are none, or that end below the box. It is judged after `BadBox` and before `NoRoom`.
    BadRows,
}

// The reply number of a refusal; 0 is none's.
impl From<Refusal> for u32 {
    ghost from_gives = { λ refusal n. n ≡ number refusal };

    fn from(refusal: Refusal) -> u32 {
        match refusal {
            Refusal::BadBox => 1,
            Refusal::NoRoom => 2,
            Refusal::LongText => 3,
            Refusal::Malformed => 4,
            Refusal::OutOfRange => 5,
            Refusal::TooManyStops => 6,
            Refusal::BadRows => 8,
        }
    }
}

// The reply number of a call, 0 where it is not refused.
pub fn number(reply: Result<(), Refusal>) -> u32
    ensures { result ≡ reply_of reply }
{
    match reply {
        Ok(()) => 0,
        Err(refusal) => refusal.into(),
    }
}

// The greatest width and height of a box.
const SIDE_MAX: usize = 2048;

// Whether a box is from 1 to 2,048 pixels wide and high.
pub fn box_in(w: usize, h: usize) -> bool
    ensures { result ≡ box_in w h }
{
    1 <= w && (w <= SIDE_MAX && (1 <= h && h <= SIDE_MAX))
}

// Whether a box is allowed.
pub fn box_reply(w: usize, h: usize) -> Result<(), Refusal>
    ensures { reply_of result ≡ box_reply w h }
{
    if box_in(w, h) {
        Ok(())
    } else {
        Err(Refusal::BadBox)
    }
}

// Whether rows `first` up to `end` are one or more, and within a height of h.
pub fn rows_in(h: usize, first: usize, end: usize) -> bool
    ensures { result ≡ rows_in h first end }
{
    first < end && end <= h
}

// Whether the rows of a strip are allowed.
pub fn rows_reply(h: usize, first: usize, end: usize) -> Result<(), Refusal>
    ensures { reply_of result ≡ rows_reply h first end }
{
    if rows_in(h, first, end) {
        Ok(())
    } else {
        Err(Refusal::BadRows)
    }
}

// Whether a lent slice of n bytes has room for an answer of `size` bytes.
pub fn size_reply(size: usize, n: usize) -> Result<(), Refusal>
    ensures { reply_of result ≡ size_reply size n }
{
    if size <= n {
        return Ok(());
    }
    Err(Refusal::NoRoom)
}

// Judges a box, and a lent slice of n bytes for an answer of `size` bytes.
#[tactic(auto, using(crate::proofs::Laws::refused_first, crate::proofs::Laws::done_next), unfolding(crate::specs::Room::room_for))]
pub fn room_for(w: usize, h: usize, size: usize, n: usize) -> Result<(), Refusal>
    ensures { reply_of result ≡ room_for w h size n }
{
    box_reply(w, h).and(size_reply(size, n))
}

// Judges a box, rows `first` up to `end` of it, and a buffer of n bytes for them.
pub fn strip_reply(w: usize, h: usize, first: usize, end: usize, n: usize) -> Result<(), Refusal>
    ensures { reply_of result ≡ strip_reply w h first end n }
{
    if !box_in(w, h) {
        return Err(Refusal::BadBox);
    }
    if !rows_in(h, first, end) {
        return Err(Refusal::BadRows);
    }
    size_reply(4 * w * (end - first), n)
}

// Judges a box, and a buffer of n bytes for all its rows.
pub fn room_reply(w: usize, h: usize, n: usize) -> Result<(), Refusal>
    ensures { reply_of result ≡ room_reply w h n }
{
    strip_reply(w, h, 0, h, n)
}

// Of two reply numbers the lower, where both refuse; else that of the one that does. Any numbers are taken.
pub fn lower_number(a: u32, b: u32) -> u32
    ensures { result ≡ lowest a b }
{
    if a == 0 {
        return b;
    }
    if b == 0 {
        return a;
    }
    // Kept: by `if`, so that its edit `higher_reply` changes which is answered and nothing else.
    if a <= b { a } else { b }
}

// The same of two replies.
pub fn lower(a: Result<(), Refusal>, b: Result<(), Refusal>) -> Result<(), Refusal>
    ensures { reply_of result ≡ lowest (reply_of a) (reply_of b) }
{
    if lower_number(number(a), number(b)) == number(a) {
        a
    } else {
        b
    }
}

// Leaves zeros, and hands on what is replied: a refusal, or its number.
pub fn refuse<R>(buf: &mut [u8], refusal: R) -> R
    ensures reply { result ≡ refusal }
    ensures bytes_left { buf.new ≡ replicate (length buf.old) 0 }
{
    picture::clear(buf);
    refusal
}
