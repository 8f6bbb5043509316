//! What decides.
ghost use Rattle.std.specs.Prelude.{◌≡◌, ℕ, List, IfOk, IfErr};
ghost use Rattle.cedar_endpoints.specs.declared.replies.Outcome.{Outcome};
ghost use Rattle.cedar_endpoints.specs.declared.replies.Finding.{Finding};
ghost use Rattle.cedar_endpoints.specs.Asked as asked;
ghost use Rattle.cedar_endpoints.specs.declared.replies.Remainder.{Remainder};
ghost use Rattle.cedar_endpoints.specs.declared.routes.Replaced.{Replaced};
ghost use Rattle.cedar_endpoints.specs.Reloads.{IsNotRemade};
ghost use Rattle.cedar_endpoints.specs.Searches as searches;
ghost use Rattle.cedar_endpoints.specs.Partials as partials;

use crate::asked::Evaluation;
use crate::partials::Partial;
use crate::replies::{Finding, NotRemade, Outcome, Remainder};
use crate::routes::Replaced;
use crate::searches::Search;
use std::alloc::{AllocError, Global};

/// Decides what is asked. It is lent, so that no question changes what the next one is answered.
pub trait Decider: Drop {
    // What may be decided for this evaluation.
    ghost decides: { Self → asked.Evaluation → Outcome → Type 0 };

    // Which page may be found for this search, behind so many candidates and with at most so many.
    ghost finds: { Self → searches.Search → ℕ → ℕ → Finding → Type 0 };

    // In which version: what finds another page is of another version.
    ghost version: { Self → List ℕ };

    // How many candidates there are for any search.
    ghost count: { Self → ℕ };

    // What takes its place where this text is taken in place of its policies or its entities.
    ghost remakes: { Self → Replaced → List ℕ → Self → Type 0 };

    // What may be told where the text is refused.
    ghost refuses: { Self → Replaced → List ℕ → List ℕ → Type 0 };

    // What may be left of the policies for this request, with the entities that this text, which writes it, brings.
    ghost leaves: { Self → partials.Partial → List ℕ → Remainder → Type 0 };

    // What may be decided for the request that this text writes.
    ghost authorizes: { Self → List ℕ → Outcome → Type 0 };

    /// What is decided for an evaluation, or why nothing is. Refuses only if out of memory.
    fn decide(&self, alloc: Global, question: &Evaluation<'_, '_>) -> Result<Outcome, AllocError>
        ensures { IfOk result (decides self.now (asked.evaluation_view question.now)) };

    /// The page of what is found behind so many candidates, with at most so many, or why there is none. Refuses only if
    /// out of memory.
    fn search(
        &self,
        alloc: Global,
        search: &Search<'_, '_>,
        after: usize,
        most: usize,
    ) -> Result<Finding, AllocError>
        ensures { IfOk result (finds self.now (searches.search_view search.now) after most) };

    /// The version of what is found: a text of letters and digits. What finds another page has another one.
    fn version_text(&self) -> &str
        ensures { result.now ≡ version self.now };

    /// How many candidates there are for any search.
    fn candidate_count(&self) -> usize
        ensures { result ≡ count self.now };

    /// What is decided for the request that this text writes, or why nothing is. Refuses only if out of memory.
    fn authorize(&self, alloc: Global, text: &str) -> Result<Outcome, AllocError>
        ensures { IfOk result (authorizes self.now text.now) };

    /// What is left of the policies for a request of which parts may be unknown, with the entities that its text brings,
    /// or why nothing is told. Refuses only if out of memory.
    fn authorize_partially(
        &self,
        alloc: Global,
        request: &Partial<'_, '_>,
        text: &str,
    ) -> Result<Remainder, AllocError>
        ensures { IfOk result (leaves self.now (partials.partial_view request.now) text.now) };

    /// What takes its place where this text is taken in place of its policies or its entities. Refuses a text that is
    /// wrong.
    fn remake(&self, alloc: Global, replaced: Replaced, text: &str) -> Result<Self, NotRemade>
        ensures remade { IfOk result (remakes self.now replaced text.now) }
        ensures refused { IfErr result (IsNotRemade (refuses self.now replaced text.now)) };
}
