//! Links of templates: policies in text with those that a file of links makes of their templates, and the command `link`.
use crate::files::{File, policies_of, refuse_second_input, source_of, text_of};
use crate::policies::{LEVELS, known_functions};
use cedar_cli::{Printed, Refusal, Source, check_policies, refuse_with_line};
use cedar_linked_text::{AddedLink, LinkedTextError, NewLink, add_link, linked_to_text};
use clap::ArgMatches;
use std::alloc::{AllocError, Global};
use std::rt::Files;
use std::{fs, io};

/// The text of the policies and of those that the links make.
pub(crate) fn linked_text(
    alloc: Global,
    policies: Source<'_>,
    links: Source<'_>,
) -> Result<String, Refusal> {
    let functions = known_functions(alloc)?;
    let text = linked_to_text(alloc, policies.text, links.text, &functions, LEVELS);
    drop(functions);
    match text {
        Ok(text) => Ok(text),
        Err(error) => Err(refusal(alloc, policies, links.name, &error)),
    }
}

// Policies that can't be read are refused as ever, each error at its place.
#[cold]
fn refusal(alloc: Global, policies: Source<'_>, links: &str, error: &LinkedTextError) -> Refusal {
    let name = policies.name;
    match error {
        LinkedTextError::Memory(_) => Refusal::Memory,
        LinkedTextError::Unread(_) => unread(alloc, policies),
        LinkedTextError::Link(error) => {
            refuse_with_line(alloc, format!(in alloc; "{links}: {error}"))
        }
        LinkedTextError::NewLink(error) => {
            refuse_with_line(alloc, format!(in alloc; "the new link: {error}"))
        }
        LinkedTextError::Shared(_) => {
            refuse_with_line(alloc, format!(in alloc; "{name}: {error}"))
        }
        LinkedTextError::Text(error) => {
            refuse_with_line(alloc, format!(in alloc; "{name}: {error}"))
        }
    }
}

#[cold]
fn unread(alloc: Global, policies: Source<'_>) -> Refusal {
    match check_policies(alloc, policies, true) {
        Err(refusal) => refusal,
        Ok(()) => {
            let name = policies.name;
            refuse_with_line(
                alloc,
                format!(in alloc; "{name}: the policies can't be read"),
            )
        }
    }
}

/// Prints the policy that the template is linked to, and adds the link to the file of links, if one is named.
pub(crate) fn link<R: Files + Input + AllocGlobal>(
    rt: &R,
    matches: &ArgMatches<'_>,
) -> Result<Printed, Refusal> {
    refuse_second_input(rt.alloc(), matches)?;
    refuse_input_as_list(rt.alloc(), matches)?;
    let policies = policies_of(rt, matches)?;
    let links = text_of(rt, matches.get_str("template-linked"))?;
    let added = added_link(rt.alloc(), &policies, &links, matches);
    drop((policies, links));
    let AddedLink { policy, list } = added?;
    write_in_place(rt, matches.get_str("template-linked"), list.as_str())?;
    drop(list);
    Ok(Printed {
        output: policy,
        warnings: String::new(rt.alloc()),
        status: 0,
    })
}

// Standard input can't be written.
fn refuse_input_as_list(alloc: Global, matches: &ArgMatches<'_>) -> Result<(), Refusal> {
    if matches.get_str("template-linked") == Some("-") {
        let line = String::from_str(
            alloc,
            "`-` is standard input: the file of links is written too",
        );
        Err(refuse_with_line(alloc, line))
    } else {
        Ok(())
    }
}

fn added_link(
    alloc: Global,
    policies: &Option<File>,
    links: &Option<File>,
    matches: &ArgMatches<'_>,
) -> Result<AddedLink, Refusal> {
    let policies = source_or(policies, "--policies", "");
    let links = source_or(links, "--template-linked", "[]");
    let new = NewLink {
        template_id: matches.get_str("template-id").unwrap_or(""),
        new_id: matches.get_str("new-id").unwrap_or(""),
        arguments: matches.get_str("arguments").unwrap_or(""),
    };
    let functions = known_functions(alloc)?;
    let added = add_link(alloc, policies.text, links.text, new, &functions, LEVELS);
    drop(functions);
    match added {
        Ok(added) => Ok(added),
        Err(error) => Err(refusal(alloc, policies, links.name, &error)),
    }
}

fn source_or<'a>(file: &'a Option<File>, name: &'static str, text: &'static str) -> Source<'a> {
    match file {
        Some(file) => source_of(file),
        None => Source { name, text },
    }
}

/// Writes the text beside the file, if one is named, and puts it in the file's place, so that a whole text is there at any
/// time.
pub(crate) fn write_in_place<R: Files + AllocGlobal>(
    rt: &R,
    name: Option<&str>,
    text: &str,
) -> Result<(), Refusal> {
    match name {
        Some(name) => {
            let beside = format!(in rt.alloc(); "{name}.new")?;
            let written = put_text(rt, name, beside.as_str(), text);
            drop(beside);
            match written {
                Ok(()) => Ok(()),
                Err(error) => Err(unwritten(rt.alloc(), name, &error)),
            }
        }
        None => Ok(()),
    }
}

fn put_text<R: Files>(rt: &R, name: &str, beside: &str, text: &str) -> io::Result<()> {
    fs::write(rt, beside, text)?;
    fs::rename(rt, beside, name)
}

#[cold]
fn unwritten(alloc: Global, name: &str, error: &io::Error) -> Refusal {
    refuse_with_line(alloc, format!(in alloc; "{name}: not written: {error}"))
}
