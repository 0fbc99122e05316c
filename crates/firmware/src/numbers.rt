// Numbers that are wider in C than in the calls.
ghost use Rattle.std.specs.Prelude.{◌≡◌, min};
ghost use Rattle.firmware.specs.Numbers.{narrow_signed};

// What 8 bits do not hold becomes 255, and is refused by the number of its range.
pub fn narrow(n: u32) -> u8
    ensures { result ≡ min n 255 }
{
    u8::try_from(n).unwrap_or(u8::MAX)
}

// What 8 bits do not hold becomes -128 or 127.
pub fn narrow_signed(n: i32) -> i8
    ensures { result ≡ narrow_signed n }
{
    n.clamp(-128, 127) as i8
}
