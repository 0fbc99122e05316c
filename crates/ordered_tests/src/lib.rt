// Tests in order. In code a table is a line `if test { return Err(REFUSAL); }` for each test, in the table's order, and `Ok` at the end. specs/Tests.antt says what a
// table gives.
#![tactic(auto)]

ghost use Rattle.std.specs.Prelude.{◌≡◌};
ghost use Rattle.ordered_tests.specs.Tests.{between};

// Low to high, both included.
pub fn between(low: u8, high: u8, n: u8) -> bool
    ensures { result ≡ between low high n }
{
    (low..=high).contains(&n)
}
