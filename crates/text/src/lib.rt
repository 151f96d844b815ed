// Reading a text of bytes. A reading takes the text from some place on, and answers what it found there and the rest after it.
#![tactic(auto)]

ghost use Rattle.std.specs.Prelude.{◌≡◌, ◌≤◌, ℕ, Bool, List, length};
ghost use Rattle.std.specs.List.{prefix_len};
ghost use Rattle.std.specs.Str.{IsTrimAsciiEnd};
ghost use Rattle.text.specs.Text.{peek_of, rest_of, past, is_space, gap_of, lower, keyword_of, Read, whole_of};
ghost use Rattle.text.specs.View.{view, view_rest, bytes_for, view_whole, Reads, Tests, SplitsRun};

// The longest run of bytes of a class at the front of the text, and what lies past it.
pub fn run<P: Fn(u8) -> bool>(s: &[u8], class: P) -> (&[u8], &[u8])
    requires { P.IsAlwaysCallable class }
    ensures { (p : ℕ → Bool) → Tests P.Fn class p → SplitsRun p s.now result.0.now result.1.now }
{
    let (fours, last) = s.as_chunks::<4>();
    for (k, four) in fours.iter().enumerate() {
        let end = run_end(four, &class);
        if end < 4 {
            return s.split_at(4 * k + end);
        }
    }
    s.split_at(4 * fours.len() + run_end(last, &class))
}

// How many bytes of a class the text begins with.
#[inline(always)]
fn run_end<P: Fn(u8) -> bool>(s: &[u8], class: &P) -> usize
    requires { P.IsAlwaysCallable class.now }
    ensures as_class { (p : ℕ → Bool) → Tests P.Fn class.now p → result ≡ prefix_len p s.now }
    ensures within { result ≤ length s.now }
{
    s.iter().position(|b| !class(*b)).unwrap_or(s.len())
}

// At the place of each byte an s if it is white space, and else a dash.
static SPACES: [u8; 256] = *b"\
    ---------ss-ss------------------\
    s-------------------------------\
    --------------------------------\
    --------------------------------\
    --------------------------------\
    --------------------------------\
    --------------------------------\
    --------------------------------";

// Kept: by a table. The library's `is_ascii_whitespace` compares, and 900 blanks in a text took up to 1.4 of the time by it.
fn is_space(b: u8) -> bool
    ensures { result ≡ is_space b }
{
    SPACES[b as usize] == b's'
}

// The text after white space that it begins with, four bytes at a time: up to three of it stay. By `&`, as four bytes then take one branch.
#[tactic(auto, using(crate::proofs::Space::past_four))]
fn skip_fours(mut s: &[u8]) -> &[u8]
    ensures { past is_space result.now ≡ past is_space s.now }
{
    while let [a, b, c, d, rest @ ..] = s
        && is_space(*a) & is_space(*b) & is_space(*c) & is_space(*d)
    {
        s = rest;
    }
    s
}

// The same, byte by byte: none of it stays.
#[tactic(auto, using(crate::proofs::Space::past_space), unfolding(crate::specs::Text::past))]
fn skip_bytes(mut s: &[u8]) -> &[u8]
    ensures { result.now ≡ past is_space s.now }
{
    while let [first, rest @ ..] = s
        && is_space(*first)
    {
        s = rest;
    }
    s
}

// The text after the white space that it begins with.
#[tactic(auto, using(crate::proofs::Space::past_space), unfolding(crate::specs::Text::past))]
pub fn skip_space(s: &[u8]) -> &[u8]
    ensures { result.now ≡ past is_space s.now }
{
    match s {
        [first, rest @ ..] if is_space(*first) => skip_bytes(skip_fours(rest)),
        _ => s,
    }
}

// The text without white space at its end, four bytes at a time: up to three of it stay.
// Kept: beside `trim_ascii_end`, by which alone 900 blanks at the end of a text took up to 1.4 of the time.
fn trim_fours(mut s: &[u8]) -> &[u8]
    ensures { (r : List ℕ) → IsTrimAsciiEnd result.now r → IsTrimAsciiEnd s.now r }
{
    while let [rest @ .., a, b, c, d] = s
        && is_space(*a)
        && is_space(*b)
        && is_space(*c)
        && is_space(*d)
    {
        s = rest;
    }
    s
}

// The text without the white space at its end.
pub fn trim_end(s: &[u8]) -> &[u8]
    ensures { IsTrimAsciiEnd s.now result.now }
{
    trim_fours(s).trim_ascii_end()
}

// White space, at least one.
#[tactic(auto, using(crate::proofs::Space::gap_laws))]
pub fn gap(s: &[u8]) -> Option<&[u8]>
    ensures { view_rest result ≡ gap_of s.now }
{
    let rest = skip_space(s);
    if rest.len() < s.len() {
        Some(rest)
    } else {
        None
    }
}

// The first byte, in lower case, and what follows it. The end counts as a byte 0.
#[tactic(auto, using(crate::proofs::Space::lower_laws), unfolding(crate::specs::Text::peek_of, crate::specs::Text::rest_of))]
pub fn first_letter(s: &[u8]) -> (u8, &[u8])
    ensures letter { result.0 ≡ lower (peek_of s.now) }
    ensures rest { result.1.now ≡ rest_of s.now }
{
    match s {
        [b, rest @ ..] => (b.to_ascii_lowercase(), rest),
        [] => (0, s),
    }
}

// The word at the front of the text, its letters in either case. `word` is in lower case.
pub fn keyword<'a>(s: &'a [u8], word: &[u8]) -> Option<&'a [u8]>
    ensures { view_rest result ≡ keyword_of word.now s.now }
{
    let mut rest = s;
    for letter in word {
        let (first, after) = first_letter(rest);
        if first != *letter {
            return None;
        }
        rest = after;
    }
    Some(rest)
}

// A word that stands for a value.
pub fn word_for<'a, T: Copy>(s: &'a [u8], word: &[u8], value: T) -> Option<(T, &'a [u8])>
    ensures { view result ≡ bytes_for word.now value s.now }
{
    let rest = keyword(s, word)?;
    Some((value, rest))
}

// A reading of a whole text, with white space around it.
pub fn whole<'a, T: Copy, F: Fn(&'a [u8]) -> Option<(T, &'a [u8])>>(
    s: &'a [u8],
    read: F,
) -> Option<T>
    requires { F.IsAlwaysCallable read }
    ensures { (grammar : List ℕ → Read T) → Reads F.Fn read grammar → view_whole result ≡ whole_of grammar s.now }
{
    let (value, rest) = read(skip_space(s))?;
    if skip_space(rest).is_empty() {
        Some(value)
    } else {
        None
    }
}
