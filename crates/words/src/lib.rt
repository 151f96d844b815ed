// Words of 32 bits in a slice of bytes, the lowest byte first.
#![tactic(auto)]

ghost use Rattle.std.specs.Prelude.{◌≡◌, ◌+◌, ◌≤◌, ◌<◌, length, get_or};
ghost use Rattle.std.specs.Int.{w32};
ghost use Rattle.std.proofs.Common.{of_z, to_z};
ghost use Rattle.picture.specs.Picture.{patched};
ghost use Rattle.words.specs.Word.{word_bytes, word_at, equal};

// The bits of a signed number, in two's complement.
pub fn bits(v: i32) -> u32
    ensures { result ≡ of_z w32 v }
{
    v.cast_unsigned()
}

// The signed number of these bits.
pub fn signed(x: u32) -> i32
    ensures { result ≡ to_z w32 x }
{
    x.cast_signed()
}

// Stores a word from `at` on.
pub fn put_word(buf: &mut [u8], at: usize, w: u32)
    requires { at + 4 ≤ length buf.old }
    ensures { buf.new ≡ patched buf.old at (word_bytes w) }
{
    buf[at..at + 4].copy_from_slice(&w.to_le_bytes());
}

// The byte at `at`, 0 past the end.
pub fn byte_at(s: &[u8], at: usize) -> u8
    ensures { result ≡ get_or s.now at 0 }
{
    s.get(at).copied().unwrap_or(0)
}

// The word from `at` on; bytes past the end count as 0.
pub fn word_at(s: &[u8], at: usize) -> u32
    requires { at < 1024 }
    ensures { result ≡ word_at s.now at }
{
    u32::from_le_bytes([
        byte_at(s, at),
        byte_at(s, at + 1),
        byte_at(s, at + 2),
        byte_at(s, at + 3),
    ])
}

// Whether two slices hold the same bytes.
#[tactic(auto, using(crate::proofs::Equal::equal_is))]
pub fn same(a: &[u8], b: &[u8]) -> bool
    ensures { result ≡ equal a.now b.now }
{
    a == b
}
