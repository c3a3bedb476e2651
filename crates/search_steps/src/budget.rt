// A search with a budget of nodes, or without one. Where no node is left it is over, and says nothing.
ghost use Rattle.std.specs.Prelude.{◌≡◌, true, MatchResult, is_some};
ghost use Rattle.search_steps.specs.Steps.{denied_by};

use crate::{Over, Starts};

// One node less of a budget; None is no bound.
pub fn fewer(budget: Option<u32>) -> Result<Option<u32>, Over>
    ensures { MatchResult result (λ rest. is_some rest ≡ is_some budget) (λ _. is_some budget ≡ true) }
{
    match budget {
        Some(0) => Err(Over),
        Some(left) => Ok(Some(left - 1)),
        None => Ok(None),
    }
}

// Whether a search came to its end and found none.
pub fn denies(answer: Result<Option<Starts>, Over>) -> bool
    ensures { result ≡ denied_by answer }
{
    match answer {
        Ok(found) => found.is_none(),
        Err(_) => false,
    }
}
