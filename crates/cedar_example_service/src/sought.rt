//! What is sought: who may do something, what with, and what may be done.
use crate::documents::DOCUMENTS;
use crate::names::{both, name, uid};
use crate::requests::Asked;
use crate::stop::Stop;
use cedar_policy_core::ast::{EntityType, EntityUID, EntityUIDEntry, PolicySet, Request};
use cedar_policy_core::authorizer::Authorizer;
use cedar_policy_core::entities::Entities;
use cedar_search::{Page, Part, Search};
use std::alloc::{AllocError, Global};
use std::io::Write;

/// How many levels deep conditions are evaluated.
pub const LIMIT: usize = 100;

/// How many a page has.
const PAGE: usize = 2;

/// A request, and which part of it is sought: what the request has there is not looked at.
pub struct Sought {
    /// The part.
    pub part: Part,
    /// The request.
    pub asked: Asked,
}

/// What is sought, in order.
pub static SOUGHT: [Sought; 5] = [
    Sought {
        part: Part::Principal,
        asked: Asked {
            user: None,
            action: "edit",
            document: "plan",
            hour: 9,
            address: "203.0.113.7",
        },
    },
    Sought {
        part: Part::Resource,
        asked: Asked {
            user: Some("bob"),
            action: "view",
            document: "any",
            hour: 9,
            address: "203.0.113.7",
        },
    },
    Sought {
        part: Part::Resource,
        asked: Asked {
            user: Some("carol"),
            action: "edit",
            document: "any",
            hour: 20,
            address: "203.0.113.7",
        },
    },
    Sought {
        part: Part::Action,
        asked: Asked {
            user: Some("alice"),
            action: "any",
            document: "deed",
            hour: 9,
            address: "203.0.113.7",
        },
    },
    Sought {
        part: Part::Principal,
        asked: Asked {
            user: None,
            action: "view",
            document: "plan",
            hour: 9,
            address: "10.20.0.1",
        },
    },
];

/// The entities that are asked for: users and a role, actions, documents.
const CANDIDATES: [(&str, &str); 6] = [
    ("User", "alice"),
    ("Role", "editor"),
    ("User", "bob"),
    ("User", "carol"),
    ("Action", "edit"),
    ("Action", "view"),
];

/// Prints all that is permitted, and then the same page by page.
pub fn print_sought<W: Write>(
    alloc: Global,
    sought: &Sought,
    policies: &PolicySet,
    entities: &Entities,
    authorizer: &Authorizer<'_>,
    out: &mut W,
) -> Result<(), Stop> {
    let request = sought.request(alloc)?;
    let candidates = candidates(alloc)?;
    let search = Search {
        part: sought.part,
        request: &request,
        policies,
        entities,
        candidates: candidates.as_slice(),
    };
    print_all(alloc, sought, &search, authorizer, out)?;
    print_pages(alloc, &search, authorizer, out)
}

fn print_all<W: Write>(
    alloc: Global,
    sought: &Sought,
    search: &Search<'_>,
    authorizer: &Authorizer<'_>,
    out: &mut W,
) -> Result<(), Stop> {
    let found = search.permitted(alloc, authorizer)?;
    sought.print(out)?;
    print_found(&found, out)?;
    writeln!(out, "")?;
    Ok(())
}

// A line a page, each behind `  page: `.
fn print_pages<W: Write>(
    alloc: Global,
    search: &Search<'_>,
    authorizer: &Authorizer<'_>,
    out: &mut W,
) -> Result<(), Stop> {
    let mut next: Option<usize> = Some(0);
    for _ in 0..search.candidates.len() {
        if let Some(after) = next {
            next = print_page(alloc, search, authorizer, after, out)?;
        }
    }
    Ok(())
}

// The page behind so many candidates. Answers where the next one begins.
fn print_page<W: Write>(
    alloc: Global,
    search: &Search<'_>,
    authorizer: &Authorizer<'_>,
    after: usize,
    out: &mut W,
) -> Result<Option<usize>, Stop> {
    let page: Page = search.page(alloc, authorizer, after, PAGE)?;
    write!(out, "  page:")?;
    print_found(&page.found, out)?;
    writeln!(out, "")?;
    Ok(page.next)
}

fn print_found<W: Write>(found: &[EntityUID], out: &mut W) -> Result<(), Stop> {
    for entity in found {
        write!(out, " {entity}")?;
    }
    Ok(())
}

impl Sought {
    // The request, with an unknown of the part's type as the part.
    fn request(&self, alloc: Global) -> Result<Request, AllocError> {
        let ty = EntityType::new(name(alloc, self.part_type())?);
        let unknown = EntityUIDEntry::unknown_with_type(ty, None);
        with_unknown(self.part, unknown, self.asked.request(alloc))
    }

    fn part_type(&self) -> &'static str {
        match self.part {
            Part::Principal => "User",
            Part::Action => "Action",
            Part::Resource => "Document",
        }
    }

    // `who may ACTION DOCUMENT at HOUR from ADDRESS:` and its kin
    fn print<W: Write>(&self, out: &mut W) -> Result<(), Stop> {
        let asked = &self.asked;
        let user = asked.user.unwrap_or("who");
        match self.part {
            Part::Principal => write!(out, "who may {} {}", asked.action, asked.document)?,
            Part::Action => write!(out, "what may {user} do with {}", asked.document)?,
            Part::Resource => write!(out, "what may {user} {}", asked.action)?,
        }
        write!(out, " at {} from {}:", asked.hour, asked.address)?;
        Ok(())
    }
}

fn with_unknown(
    part: Part,
    unknown: EntityUIDEntry,
    request: Result<Request, AllocError>,
) -> Result<Request, AllocError> {
    let (unknown, request) = both(Ok(unknown), request)?;
    let (principal, action, resource, context) = request.into_parts();
    match part {
        Part::Principal => Ok(Request::new_with_unknowns(unknown, action, resource, context)),
        Part::Action => Ok(Request::new_with_unknowns(principal, unknown, resource, context)),
        Part::Resource => Ok(Request::new_with_unknowns(principal, action, unknown, context)),
    }
}

fn candidates(alloc: Global) -> Result<Vec<EntityUID>, AllocError> {
    let mut candidates: Vec<EntityUID> = Vec::new(alloc);
    for (type_name, id) in CANDIDATES {
        candidates.push(uid(alloc, type_name, id)?)?;
    }
    for id in DOCUMENTS {
        candidates.push(uid(alloc, "Document", id)?)?;
    }
    Ok(candidates)
}
