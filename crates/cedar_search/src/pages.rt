//! What is permitted, page by page.
ghost use Rattle.std.specs.Prelude.{◌≡◌, [], IfOk};
ghost use Rattle.cedar_search.specs.Questions.{names_of, candidates_of, question};
ghost use Rattle.cedar_search.specs.Pages.{IsPage, page_view, page_made};

use crate::asking::is_permitted;
use crate::searches::{Search, add_if};
use cedar_authorizer::authorizer::Authorizer;
use cedar_names::EntityUID;
use std::alloc::{AllocError, Global};

/// Some of what is permitted, and where the next page begins.
#[derive(Drop)]
pub struct Page {
    /// Those of the candidates that this page asked for which are permitted, in their order.
    pub found: Vec<EntityUID>,
    /// Behind how many candidates the next page begins: `None` where no candidate is left.
    pub next: Option<usize>,
}

impl Search<'_> {
    /// The first `count` candidates that are permitted, of those behind the first `after`; fewer only where no
    /// candidate is left. The next page begins behind the candidates that were asked for this one: the pages of one
    /// search, the first behind none and each next one where the page before it says, are together what `permitted`
    /// answers. The last may be empty; with a count of 0 a page is empty, and the next begins where it does. Each
    /// candidate is decided as in `permitted`. Refuses only if out of memory.
    pub fn page(
        &self,
        alloc: Global,
        authorizer: &Authorizer<'_>,
        after: usize,
        count: usize,
    ) -> Result<Page, AllocError>
        ensures { IfOk result (λ p. IsPage (question authorizer.now self.now) (candidates_of self.now) after count
            (page_view p)) }
    {
        let request = self.request.clone()?;
        let search = Search {
            request: &request,
            ..*self
        };
        page_of(alloc, authorizer, &search, after, count)
    }
}

// The page. Copies of the request share its context.
fn page_of(
    alloc: Global,
    authorizer: &Authorizer<'_>,
    search: &Search<'_>,
    after: usize,
    count: usize,
) -> Result<Page, AllocError>
    ensures { IfOk result (λ p. IsPage (question authorizer.now search.now) (candidates_of search.now) after count
        (page_view p)) }
{
    let mut found: Vec<EntityUID> = Vec::new(alloc);
    let next = fill(alloc, authorizer, search, after, count, &mut found)?;
    Ok(Page { found, next })
}

// Fills the page, and answers where the next one begins.
fn fill(
    alloc: Global,
    authorizer: &Authorizer<'_>,
    search: &Search<'_>,
    after: usize,
    count: usize,
    found: &mut Vec<EntityUID>,
) -> Result<Option<usize>, AllocError>
    requires { found.now.items ≡ [] }
    ensures { IfOk result (λ next. IsPage (question authorizer.now search.now) (candidates_of search.now) after count
        (page_made (names_of found.new.items) next)) }
{
    'candidates: for index in after..search.candidates.len() {
        if found.len() == count {
            return Ok(Some(index));
        }
        let candidate = &search.candidates[index];
        let permitted = is_permitted(alloc, authorizer, search, candidate)?;
        add_if(permitted, candidate, found)?;
    }
    Ok(None)
}
