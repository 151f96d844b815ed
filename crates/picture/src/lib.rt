// Writes into a lent buffer of bytes, four to a pixel.
#![tactic(auto)]

ghost use Rattle.std.specs.Prelude.{◌≡◌, ◌∷◌, [], ◌+◌, ◌-◌, ◌≤◌, ◌<◌, length, take, drop, replicate};
ghost use Rattle.picture.specs.Picture.{patched};

// How many bytes are copied at a time.
const BLOCK: usize = 2048;

// Stores four bytes from `at` on.
pub fn put(buf: &mut [u8], at: usize, r: u8, g: u8, b: u8, a: u8)
    requires { at + 4 ≤ length buf.old }
    ensures { buf.new ≡ patched buf.old at (r ∷ g ∷ b ∷ a ∷ []) }
{
    buf[at..at + 4].copy_from_slice(&[r, g, b, a]);
}

// Zeros from `at` to the end.
pub fn clear_from(buf: &mut [u8], at: usize)
    requires { at ≤ length buf.old }
    ensures { buf.new ≡ patched buf.old at (replicate (length buf.old - at) 0) }
{
    buf[at..].fill(0);
}

// Zeros everywhere.
pub fn clear(buf: &mut [u8])
    ensures { buf.new ≡ replicate (length buf.old) 0 }
{
    buf.fill(0);
}

// Copies the n bytes that stand from `from` on to a later place.
fn copy_bytes(buf: &mut [u8], from: usize, to: usize, n: usize)
    requires { (from + n ≤ to) × (to + n ≤ length buf.old) }
    ensures { buf.new ≡ patched buf.old to (take n (drop from buf.old)) }
{
    // Kept: byte by byte, which a compiler makes wide copies of. The library's copy of a part of the buffer into another calls `memmove`.
    for i in 0..n {
        buf[to + i] = buf[from + i];
    }
}

// n, or `most` where that is less.
pub fn at_most(most: usize, n: usize) -> usize
    requires { (0 < most) × (0 < n) }
    ensures { (0 < result) × (result ≤ most) × (result ≤ n) }
{
    n.min(most)
}

// Copies the n bytes that stand from `from` on to a later place, block by block. Copied in one loop, many rows are tested for an overlap all at once,
// one is found, and every byte is copied by itself.
pub fn copy_row(buf: &mut [u8], from: usize, to: usize, n: usize)
    requires { (from + n ≤ to) × (to + n ≤ length buf.old) }
    ensures { buf.new ≡ patched buf.old to (take n (drop from buf.old)) }
{
    for block in 0..n.div_ceil(BLOCK) {
        let i = BLOCK * block;
        let k = (n - i).min(BLOCK);
        copy_bytes(buf, from + i, to + i, k);
    }
}

// Copies all of `bytes` to `at`.
fn copy_piece(buf: &mut [u8], at: usize, bytes: &[u8])
    requires { at + length bytes.now ≤ length buf.old }
    ensures { buf.new ≡ patched buf.old at bytes.now }
{
    buf[at..at + bytes.len()].copy_from_slice(bytes);
}

// Copies all of `bytes` to `at`, 2,048 at a time: longer runs the C library copies by one string instruction, whose speed depends on where in their
// pages the two lie.
pub fn copy_in(buf: &mut [u8], at: usize, bytes: &[u8])
    requires { at + length bytes.now ≤ length buf.old }
    ensures { buf.new ≡ patched buf.old at bytes.now }
{
    for block in 0..bytes.len().div_ceil(BLOCK) {
        let i = BLOCK * block;
        let end = i + (bytes.len() - i).min(BLOCK);
        copy_piece(buf, at + i, &bytes[i..end]);
    }
}
