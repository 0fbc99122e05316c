// The rules of a gateway's associations, over a list of client records (docs/RULES.md, "Associations"). The crate `associations` has the calls.
#![tactic(auto)]

ghost use Rattle.std.specs.Prelude.{◌≡◌};
ghost use Rattle.association_rules.specs.Associations.{refused_for};

mod in_use;
mod list_tests;
mod search;

pub use in_use::use_after;
pub use list_tests::check;
use refusals::Refusal;
pub use search::alternate;

// What a call for one record answers, with the number in use after it.
#[derive(Clone, Copy, Debug, PartialEq, Eq)]
pub struct ListCalled<T> {
    pub answer: Result<T, Refusal>,
    pub in_use: usize,
}

impl<T> ListCalled<T> {
    // A refused call leaves the number in use as it was.
    pub fn refused(refusal: Refusal, in_use: usize) -> ListCalled<T>
        ensures { result ≡ refused_for refusal in_use }
    {
        ListCalled {
            answer: Err(refusal),
            in_use,
        }
    }
}
