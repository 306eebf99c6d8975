// The CRC of ISO/IEC 13818-1, Annex A: polynomial 0x04C11DB7, start all ones, high bit first, no final change. A section is
// good when the CRC over all its bytes is 0. Eight bytes go in at once: what they make of the register is, by xor, what eight
// zero bytes make of the register xor the first four, and what four zero bytes make of the other four.
ghost use Rattle.std.specs.Prelude.{◌≡◌, ◌+◌, ◌≤◌, ◌<◌, fold};
ghost use Rattle.isdb_tlv.specs.Crc.{feed_byte, crc_from, crc_of, zero_bytes};

mod tables;

// The register after k + 4 zero bytes, by its own bytes.
fn feed_zeros(k: usize, x: u32) -> u32
    requires { k ≤ 4 }
    ensures { result ≡ zero_bytes (k + 4) x }
{
    let [a, b, c, d] = x.to_be_bytes();
    (tables::after(k + 3, a) ^ tables::after(k + 2, b))
        ^ (tables::after(k + 1, c) ^ tables::after(k, d))
}

// A byte goes into the register.
fn feed_byte(z: u32, b: u8) -> u32
    ensures { result ≡ feed_byte z b }
{
    let [a, _, _, _] = z.to_be_bytes();
    (z << 8) ^ tables::after(0, a ^ b)
}

// Eight bytes go into the register. The later four go first, since they do not wait for the register.
fn feed_eight(z: u32, s: [u8; 8]) -> u32
    ensures { result ≡ crc_from z s }
{
    let [a, b, c, d, e, f, g, h] = s;
    let y = feed_zeros(0, u32::from_be_bytes([e, f, g, h]));
    feed_zeros(4, z ^ u32::from_be_bytes([a, b, c, d])) ^ y
}

// Many times eight bytes go into the register.
fn feed_eights(z: u32, s: &[[u8; 8]]) -> u32
    ensures { result ≡ fold crc_from z s.now }
{
    s.iter().fold(z, |z, eight| feed_eight(z, *eight))
}

// Bytes go into the register one by one.
fn feed_bytes(z: u32, s: &[u8]) -> u32
    ensures { result ≡ fold feed_byte z s.now }
{
    s.iter().fold(z, |z, b| feed_byte(z, *b))
}

// The CRC of a section, or of any bytes.
#[tactic(auto, using(crate::proofs::CrcWords::chunked), unfolding(crate::specs::Crc::crc_of))]
pub fn crc32(s: &[u8]) -> u32
    ensures { result ≡ crc_of s.now }
{
    let (eights, rest) = s.as_chunks::<8>();
    feed_bytes(feed_eights(0xFFFF_FFFF, eights), rest)
}
