// The tests of a list, before the client's own.
ghost use Rattle.std.specs.Prelude.{◌≡◌};
ghost use Rattle.ordered_tests.specs.Tests.{tested, pass};
ghost use Rattle.association_rules.specs.Associations.{any_illegal, list_tests};

use crate::in_use::outside;
use client::Client;
use refusals::Refusal;

#[tactic(auto, unfolding(crate::specs::Associations::any_illegal))]
fn any_illegal(list: &[Client]) -> bool
    ensures { result ≡ any_illegal list.now }
{
    list.iter().any(|c| c.illegal())
}

pub fn check(list: &[Client], at: usize, in_use: usize) -> Result<(), Refusal>
    ensures { result ≡ tested (list_tests list.now at in_use pass) }
{
    if outside(list.len(), at, in_use) {
        return Err(Refusal::NotInList);
    }
    if any_illegal(list) {
        return Err(Refusal::RecordNotLegal);
    }
    Ok(())
}
