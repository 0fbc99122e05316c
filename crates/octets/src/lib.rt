// The order of a number's octets, in code: the library's conversions, under `big_endian` and `octets`, which contracts cite.
// No trait over the widths: its impls would have these bodies, and for each type its number as a ghost member besides.
#![tactic(auto, unfolding(arithmetic::specs::Octets::octets))]

ghost use Rattle.std.specs.Prelude.{◌≡◌, [], ◌∷◌, reverse, ◌+◌, ◌*◌, ◌^◌};
ghost use Rattle.arithmetic.specs.Octets.{big_endian, octets};

// The number of two octets, the highest first.
pub fn be16(a: u8, b: u8) -> u16
    ensures { result ≡ big_endian (a ∷ b ∷ []) }
{
    u16::from_be_bytes([a, b])
}

// The number of four octets, the highest first.
pub fn be32(a: u8, b: u8, c: u8, d: u8) -> u32
    ensures { result ≡ big_endian (a ∷ b ∷ c ∷ d ∷ []) }
{
    u32::from_be_bytes([a, b, c, d])
}

// The number of eight octets, from the numbers of their halves.
pub fn from_halves(high: u32, low: u32) -> u64
    ensures { result ≡ high * 256 ^ 4 + low }
{
    u64::from(high) * 0x1_0000_0000 + u64::from(low)
}

// The number whose octets are those of x in reverse order.
pub fn swap_octets32(x: u32) -> u32
    ensures { result ≡ big_endian (reverse (octets 4 x)) }
{
    u32::swap_bytes(x)
}

pub fn swap_octets64(x: u64) -> u64
    ensures { result ≡ big_endian (reverse (octets 8 x)) }
{
    u64::swap_bytes(x)
}
