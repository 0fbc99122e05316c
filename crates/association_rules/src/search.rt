// The search for the alternate of a record.
ghost use Rattle.std.specs.Prelude.{◌≡◌, ◌<◌, length, not, position, IfSome};
ghost use Rattle.client.specs.Record.{is_stopped};
ghost use Rattle.association_rules.specs.Associations.{alternate, alternate_of_record};

use client::Client;

// Where the first record stands that is not stopped.
fn first_running(list: &[Client]) -> Option<usize>
    ensures first { result ≡ position (λ c. not (is_stopped c.phase)) list.now }
    ensures bound { IfSome result (λ i. i < length list.now) }
{
    list.iter().position(|c| !c.phase.is_stopped())
}

// The first other record after this one, wrapping past the end of the list, that is not stopped.
#[tactic(auto, using(crate::proofs::Running::alternate_is))]
fn alternate_of(list: &[Client], at: usize) -> Option<usize>
    requires { at < length list.now }
    ensures { result ≡ alternate list.now at }
{
    match first_running(&list[at + 1..]) {
        Some(i) => Some(at + 1 + i),
        None => first_running(&list[..at]),
    }
}

// The same of any number: a record that is not in the list has none.
pub fn alternate(list: &[Client], at: usize) -> Option<usize>
    ensures { result ≡ alternate_of_record list.now at }
{
    if at < list.len() {
        alternate_of(list, at)
    } else {
        None
    }
}
