// Reads texts from standard input, one to a line, and prints for each the reply and the gradient that reading it hands out.
// tests/reading/independent.py describes the lines, and finds them from the rules alone. What cannot be written is left out.
#![tactic(auto)]

ghost use Rattle.std.specs.Prelude.{◌<◌, length, IfSome};
ghost use Rattle.texts.specs.Counts.{IsPrefixLen};

mod shown;

use shown::Shown;
use std::io::Read;

// ---- a line

// The byte of two hex digits.
fn hex_byte(high: u8, low: u8) -> Option<u8> {
    let high = (high as char).to_digit(16)?;
    let low = (low as char).to_digit(16)?;
    Some((16 * high + low) as u8)
}

// What a line starts with, and the rest of it: \xNN is the byte with that number, \\ one backslash, anything else the byte itself.
fn split_byte(line: &[u8]) -> Option<(u8, &[u8])>
    ensures { IfSome result (λ v. length v.1.now < length line.now) }
{
    match line {
        [] => None,
        [b'\\', b'\\', rest @ ..] => Some((b'\\', rest)),
        [b'\\', b'x', high, low, rest @ ..] => match hex_byte(*high, *low) {
            Some(byte) => Some((byte, rest)),
            None => Some((b'\\', &line[1..])),
        },
        [byte, rest @ ..] => Some((*byte, rest)),
    }
}

// Puts the text of a line into a buffer, up to the buffer's end, and answers how long it is there.
fn read_line(line: &[u8], out: &mut [u8]) -> usize
    ensures { IsPrefixLen result out.new }
{
    let mut rest = line;
    let mut n = 0;
    for place in out.iter_mut() {
        let Some((byte, after)) = split_byte(rest) else {
            break;
        };
        *place = byte;
        rest = after;
        n += 1;
    }
    n
}

// A line that starts with # is a heading. A text that does not fit the buffer is cut: it is longer than a text may be either way.
fn report(rt: &impl Print, line: &[u8]) {
    if line.first() == Some(&b'#') {
        let _ = rt.write_all(line);
        let _ = println!(rt; "");
        return;
    }
    let mut bytes = [0u8; 4096];
    let n = read_line(line, &mut bytes);
    let _ = match reader::read(&bytes[..n]) {
        Ok(gradient) => println!(rt; "0 {}", Shown(gradient)),
        Err(refusal) => println!(rt; "{} blank", u32::from(refusal)),
    };
}

fn report_lines(rt: &impl Print, text: &[u8]) {
    for line in text.split_inclusive(|b| *b == b'\n') {
        report(rt, line.strip_suffix(b"\n").unwrap_or(line));
    }
}

// ---- the input

// Reads until the buffer is full, the input ends or a read fails, and answers how many bytes were put at the start of the buffer.
fn read_full(input: &mut impl Read, buf: &mut [u8]) -> usize
    ensures { IsPrefixLen result buf.new }
{
    let mut done = 0;
    // Kept: a read says how far it came, and `read_to_end`, which does without a loop, fills a `Vec`: there is no heap here.
    while done < buf.len() {
        match input.read(&mut buf[done..]) {
            Ok(0) | Err(_) => return done,
            Ok(n) => done += n,
        }
    }
    done
}

fn main(rt: HostRuntime) {
    let mut input = [0u8; 65536];
    let n = read_full(&mut rt.stdin(), &mut input);
    if n == input.len() {
        let _ = println!(rt; "the input is too long: it may have 65,535 bytes");
        return;
    }
    report_lines(&rt, &input[..n]);
}
