// The number of the record in use: whether it is in the list, and where it goes after a kiss.
ghost use Rattle.std.specs.Prelude.{◌≡◌};
ghost use Rattle.association_rules.specs.InUse.{outside, use_after};

use refusals::Refusal;
use reply_checks::ArrivalAnswer;

// The list is empty or has more than eight records, or one of the two numbers is not in it. No record is looked at, so the count is handed in and not the list.
#[tactic(auto, unfolding(crate::specs::InUse::outside))]
pub(crate) fn outside(count: usize, at: usize, in_use: usize) -> bool
    ensures { result ≡ outside count at in_use }
{
    !(1..=8).contains(&count) || at >= count || in_use >= count
}

// The number in use after an arrival for the record `at` with this answer. After a kiss of the record in use its alternate is in use, if it has one.
pub fn use_after(
    answer: Result<ArrivalAnswer, Refusal>,
    alternate: Option<usize>,
    at: usize,
    in_use: usize,
) -> usize
    ensures { result ≡ use_after answer alternate at in_use }
{
    match (answer, alternate) {
        (Ok(ArrivalAnswer::Kiss { .. }), Some(i)) if at == in_use => i,
        _ => in_use,
    }
}
