#![tactic(auto)]
//! What became of the policies of texts and tables.
use crate::trips::{comes_back, is_memory};
use cedar_functions::Functions;
use cedar_layers::policies::Policy;
use cedar_text_parser::{ParsedPolicies, parse_policies};
use std::alloc::{AllocError, Global};

/// How many policies and templates were read of texts, how many of these came back, and how many texts were not read.
#[derive(Clone, Copy, Drop)]
pub struct Tally {
    /// Policies and templates.
    pub policies: usize,
    /// Those that came back.
    pub same: usize,
    /// Texts that are not read as policies.
    pub unread: usize,
}

impl Tally {
    /// Nothing is counted yet.
    pub fn none() -> Tally {
        Tally {
            policies: 0,
            same: 0,
            unread: 0,
        }
    }

    // One policy more, which came back or not.
    fn with(self, came_back: bool) -> Tally {
        let same = if came_back {
            self.same.saturating_add(1)
        } else {
            self.same
        };
        Tally {
            policies: self.policies.saturating_add(1),
            same,
            unread: self.unread,
        }
    }

    // One text more that is not read.
    fn with_unread(self) -> Tally {
        Tally {
            policies: self.policies,
            same: self.same,
            unread: self.unread.saturating_add(1),
        }
    }
}

/// The tally with the policies of one text more, of which each is read with at most so many levels. Refuses only if out of
/// memory.
pub fn with_text(
    alloc: Global,
    tally: Tally,
    text: &str,
    limit: usize,
) -> Result<Tally, AllocError> {
    match parse_policies(alloc, text, limit, &Functions::any()) {
        Ok(parsed) => {
            let counted = with_parsed(alloc, tally, &parsed, limit.saturating_add(1));
            drop(parsed);
            counted
        }
        Err(errors) => {
            let is_memory = is_memory(&errors.first);
            drop(errors);
            if is_memory {
                Err(AllocError)
            } else {
                Ok(tally.with_unread())
            }
        }
    }
}

fn with_parsed(
    alloc: Global,
    tally: Tally,
    parsed: &ParsedPolicies,
    limit: usize,
) -> Result<Tally, AllocError> {
    let mut counted = tally;
    'policies: for policy in parsed.policies.policies() {
        counted = counted.with(comes_back(alloc, false, policy, limit)?);
    }
    with_templates(alloc, counted, parsed.templates.as_slice(), limit)
}

fn with_templates(
    alloc: Global,
    tally: Tally,
    templates: &[Policy],
    limit: usize,
) -> Result<Tally, AllocError> {
    let mut counted = tally;
    'templates: for template in templates {
        counted = counted.with(comes_back(alloc, true, template, limit)?);
    }
    Ok(counted)
}

/// The same with a row of a table: of `TEXT => ANSWER` the text, and of the facts `policy ID TEXT` and
/// `clause ID PLACE TEXT` theirs. A line without `permit` and `forbid` is no such row.
pub fn with_row(alloc: Global, tally: Tally, row: &str, limit: usize) -> Result<Tally, AllocError> {
    match policies_of(row) {
        Some(text) => with_text(alloc, tally, text, limit),
        None => Ok(tally),
    }
}

fn policies_of(row: &str) -> Option<&str> {
    let text = text_of(row)?;
    if text.contains("permit") || text.contains("forbid") {
        Some(text)
    } else {
        None
    }
}

fn text_of(row: &str) -> Option<&str> {
    if let Some(rest) = row.strip_prefix("policy ") {
        behind_word(rest)
    } else if let Some(rest) = row.strip_prefix("clause ") {
        behind_word(behind_word(rest)?)
    } else {
        let (text, _) = row.split_once(" => ")?;
        Some(text)
    }
}

fn behind_word(text: &str) -> Option<&str> {
    let (_, rest) = text.split_once(' ')?;
    Some(rest)
}
