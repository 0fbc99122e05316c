// Two's complement, in code: the library's casts, under `signed` and `bits` at the width, which contracts cite.
// No trait over the widths: its impls would have these six bodies, and for each type its width and its number as ghost members besides.
#![tactic(auto, using(crate::proofs::Signs::casts))]

ghost use Rattle.std.specs.Prelude.{◌≡◌};
ghost use Rattle.arithmetic.specs.TwosComplement.{signed, bits};

// The signed number that the bits of x stand for.
pub fn signed8(x: u8) -> i8
    ensures { result ≡ signed 8 x }
{
    u8::cast_signed(x)
}

pub fn signed32(x: u32) -> i32
    ensures { result ≡ signed 32 x }
{
    u32::cast_signed(x)
}

pub fn signed64(x: u64) -> i64
    ensures { result ≡ signed 64 x }
{
    u64::cast_signed(x)
}

// The bits of a signed number.
pub fn bits8(x: i8) -> u8
    ensures { result ≡ bits 8 x }
{
    i8::cast_unsigned(x)
}

pub fn bits32(x: i32) -> u32
    ensures { result ≡ bits 32 x }
{
    i32::cast_unsigned(x)
}

pub fn bits64(x: i64) -> u64
    ensures { result ≡ bits 64 x }
{
    i64::cast_unsigned(x)
}
