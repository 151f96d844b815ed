// The checksums of a PNG file: CRC-32 of its chunks, Adler-32 of its zlib stream. Each goes on from the checksum of the bytes before, so that a file
// can be summed part by part.
#![tactic(auto)]

ghost use Rattle.std.specs.Prelude.{◌≡◌};
ghost use Rattle.checksums.specs.Crc.{bit_step, byte_step, crc};
ghost use Rattle.checksums.specs.Adler.{adler};

// ---- CRC-32

// One bit of the division.
#[tactic(auto, unfolding(crate::specs::Crc::bit_step))]
fn bit_step(c: u32) -> u32
    ensures { result ≡ bit_step c }
{
    (c / 2) ^ (c % 2 * 0xedb88320)
}

// Eight bits.
#[tactic(auto, unfolding(crate::specs::Crc::bits, crate::specs::Crc::byte_step))]
fn byte_step(c: u32, b: u8) -> u32
    ensures { result ≡ byte_step c b }
{
    let four = bit_step(bit_step(bit_step(bit_step(c ^ b as u32))));
    bit_step(bit_step(bit_step(bit_step(four))))
}

// The CRC-32 of bytes whose CRC-32 is c, 0 if there are none, with s after them.
pub fn crc32(c: u32, s: &[u8]) -> u32
    ensures { result ≡ crc c s.now }
{
    let mut r = c ^ 0xffffffff;
    for b in s {
        r = byte_step(r, *b);
    }
    r ^ 0xffffffff
}

// ---- Adler-32

// The Adler-32 of bytes whose Adler-32 is c, 1 if there are none, with s after them.
pub fn adler32(c: u32, s: &[u8]) -> u32
    ensures { result ≡ adler c s.now }
{
    let mut one = c % 65536;
    let mut two = c / 65536;
    for b in s {
        one = (one + *b as u32) % 65521;
        two = (two + one) % 65521;
    }
    two * 65536 + one
}
