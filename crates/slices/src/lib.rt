// Numbers in a slice of octets, read and stored: `octets_at` and `put` serve every width, and what is left of a width is its conversion, by `octets`. A trait over the
// widths would hold the same conversions, and for each type its number as a ghost member besides.
#![tactic(auto, using(crate::proofs::Numbers::numbers))]

ghost use Rattle.std.specs.Prelude.{◌≡◌, ◌+◌, cond, leb, length, get_or, MatchOption};
ghost use Rattle.std.proofs.lemmas.List.Edits.{sets};
ghost use Rattle.arithmetic.specs.Octets.{big_endian};
ghost use Rattle.slices.specs.Slices.{read_at, write_at, write_reversed_at};

use octets::{be16, be32, from_halves, swap_octets32, swap_octets64};

// The octet at index i, and 0 behind the last one.
pub fn octet_or_zero(p: &[u8], i: usize) -> u8
    ensures { result ≡ get_or p.now i 0 }
{
    p.get(i).copied().unwrap_or(0)
}

// The N octets from index at on, if the slice has them.
#[tactic(auto, unfolding(crate::specs::Slices::read_at))]
fn octets_at<const N: usize>(p: &[u8], at: usize) -> Option<&[u8; N]>
    ensures { MatchOption result (read_at N p.now at ≡ 0) (λ x. (length x.now ≡ N) × (read_at N p.now at ≡ big_endian x.now)) }
{
    p.get(at..)?.first_chunk()
}

// The number of the two octets from index at on, and 0 if the slice does not have them.
pub fn read_be16(p: &[u8], at: usize) -> u16
    ensures { result ≡ read_at 2 p.now at }
{
    octets_at::<2>(p, at).map_or(0, |x| be16(x[0], x[1]))
}

pub fn read_be32(p: &[u8], at: usize) -> u32
    ensures { result ≡ read_at 4 p.now at }
{
    octets_at::<4>(p, at).map_or(0, |x| be32(x[0], x[1], x[2], x[3]))
}

pub fn read_be64(p: &[u8], at: usize) -> u64
    ensures { result ≡ read_at 8 p.now at }
{
    octets_at::<8>(p, at).map_or(
        0,
        |x| from_halves(be32(x[0], x[1], x[2], x[3]), be32(x[4], x[5], x[6], x[7])),
    )
}

// Stores octets from index at on, and nothing if there is no room for them.
fn put<const N: usize>(b: &mut [u8], at: usize, octets: [u8; N])
    ensures { b.new ≡ cond (leb (at + N) (length b.old)) (sets b.old at octets.entry) b.old }
{
    if at <= b.len() && N <= b.len() - at {
        b[at..at + N].copy_from_slice(&octets);
    }
}

// Stores the octets of x from index at on, and nothing if there is no room for them.
#[tactic(auto, unfolding(crate::specs::Slices::write_at, arithmetic::specs::Octets::octets))]
pub fn write_be32(b: &mut [u8], at: usize, x: u32)
    ensures { b.new ≡ write_at 4 b.old at x }
{
    put(b, at, u32::to_le_bytes(swap_octets32(x)));
}

#[tactic(auto, unfolding(crate::specs::Slices::write_at, arithmetic::specs::Octets::octets))]
pub fn write_be64(b: &mut [u8], at: usize, x: u64)
    ensures { b.new ≡ write_at 8 b.old at x }
{
    put(b, at, u64::to_le_bytes(swap_octets64(x)));
}

// The same with the lowest octet first, for a number that is put together in that order.
#[tactic(auto, unfolding(crate::specs::Slices::write_reversed_at, arithmetic::specs::Octets::octets))]
pub fn write_le32(b: &mut [u8], at: usize, x: u32)
    ensures { b.new ≡ write_reversed_at 4 b.old at x }
{
    put(b, at, u32::to_le_bytes(x));
}
