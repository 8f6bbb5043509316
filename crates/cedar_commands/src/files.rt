//! The files that arguments name. `-` is standard input, which is read once.
use crate::links::linked_text;
use crate::policies::text_of_json;
use cedar_cli::{Refusal, Source, Step, refuse_with_line};
use clap::ArgMatches;
use std::alloc::Global;
use std::io::Read;
use std::rt::Files;
use std::{fs, io};

// What stands for standard input in place of a file's name, and what it is called.
const INPUT: &str = "-";

const INPUT_NAME: &str = "standard input";

// The options that name one file.
const FILE_OPTIONS: [&str; 10] = [
    "policies",
    "resume",
    "template-linked",
    "with",
    "tests",
    "context",
    "request-json",
    "requests",
    "entities",
    "sql",
];

/// A file's name, and its text.
#[derive(Drop)]
pub(crate) struct File {
    pub(crate) name: String,
    pub(crate) text: String,
}

/// The files of a step.
#[derive(Drop)]
struct StepFiles {
    values: File,
    entities: Option<File>,
}

/// The texts of the files that the arguments of these names name.
#[derive(Drop)]
pub(crate) struct Texts {
    policies: Option<File>,
    with: Option<File>,
    tests: Option<File>,
    context: Option<File>,
    request: Option<File>,
    requests: Option<File>,
    entities: Option<File>,
    columns: Option<File>,
    line: Option<File>,
    steps: Vec<StepFiles>,
}

impl Texts {
    /// Reads all files that are named, and refuses a second `-` before it reads any. Of policies in JSON the text is
    /// the one that says the same.
    pub(crate) fn read<R: Files + Input + AllocGlobal>(
        rt: &R,
        matches: &ArgMatches<'_>,
    ) -> Result<Texts, Refusal> {
        refuse_second_input(rt.alloc(), matches)?;
        let (policies, with) = all_policies(rt, matches)?;
        let tests = text_of(rt, matches.get_str("tests"))?;
        let context = text_of(rt, matches.get_str("context"))?;
        let request = text_of(rt, matches.get_str("request-json"))?;
        let requests = text_of(rt, matches.get_str("requests"))?;
        let entities = text_of(rt, matches.get_str("entities"))?;
        let columns = text_of(rt, matches.get_str("sql"))?;
        let line = text_of(rt, matches.get_str("resume"))?;
        let steps = step_files(rt, matches)?;
        Ok(Texts {
            policies,
            with,
            tests,
            context,
            request,
            requests,
            entities,
            columns,
            line,
            steps,
        })
    }

    /// The policies: of no file, if none is named.
    pub(crate) fn policies(&self) -> Source<'_> {
        source_or(&self.policies, "--policies")
    }

    /// The new policies: of no file, if none is named.
    pub(crate) fn new_policies(&self) -> Source<'_> {
        source_or(&self.with, "--with")
    }

    /// The tests: of no file, if none is named.
    pub(crate) fn tests(&self) -> Source<'_> {
        source_or(&self.tests, "FILE")
    }

    /// The context, if its file is named.
    pub(crate) fn context(&self) -> Option<Source<'_>> {
        source(&self.context)
    }

    /// The whole request, if its file is named.
    pub(crate) fn request(&self) -> Option<Source<'_>> {
        source(&self.request)
    }

    /// The lines of requests, if their file is named.
    pub(crate) fn requests(&self) -> Option<&str> {
        match &self.requests {
            Some(file) => Some(file.text.as_str()),
            None => None,
        }
    }

    /// The entities, if their file is named.
    pub(crate) fn entities(&self) -> Option<Source<'_>> {
        source(&self.entities)
    }

    /// The columns of a table, if their file is named.
    pub(crate) fn columns(&self) -> Option<Source<'_>> {
        source(&self.columns)
    }

    /// The line that is taken further, if its file is named.
    pub(crate) fn line(&self) -> Option<Source<'_>> {
        source(&self.line)
    }

    /// The steps, in their order; whether there may be more entities than those of a step, and how many ancestors these
    /// have at most.
    pub(crate) fn steps(
        &self,
        alloc: Global,
        is_partial: bool,
        max_ancestors: Option<usize>,
    ) -> Result<Vec<Step<'_>>, Refusal> {
        let mut steps: Vec<Step<'_>> = Vec::new(alloc);
        'files: for files in self.steps.iter() {
            steps.push(step_of(files, is_partial, max_ancestors))?;
        }
        Ok(steps)
    }
}

// The policies and the new policies, with those that links make of their templates.
fn all_policies<R: Files + Input + AllocGlobal>(
    rt: &R,
    matches: &ArgMatches<'_>,
) -> Result<(Option<File>, Option<File>), Refusal> {
    let policies = policies_of(rt, matches)?;
    let with = text_of(rt, matches.get_str("with"))?;
    match text_of(rt, matches.get_str("template-linked"))? {
        Some(links) => {
            let policies = with_links(rt.alloc(), policies, &links)?;
            let with = with_links(rt.alloc(), with, &links)?;
            Ok((policies, with))
        }
        None => Ok((policies, with)),
    }
}

fn with_links(alloc: Global, file: Option<File>, links: &File) -> Result<Option<File>, Refusal> {
    match file {
        Some(file) => {
            let text = linked_text(alloc, source_of(&file), source_of(links));
            let File { name, text: old } = file;
            drop(old);
            Ok(Some(text_file(alloc, name, "with links", text)?))
        }
        None => Ok(None),
    }
}

/// The policies, of whose text the same is said in JSON.
pub(crate) fn policies_of<R: Files + Input + AllocGlobal>(
    rt: &R,
    matches: &ArgMatches<'_>,
) -> Result<Option<File>, Refusal> {
    match text_of(rt, matches.get_str("policies"))? {
        Some(file) => Ok(Some(as_text(rt.alloc(), file, matches)?)),
        None => Ok(None),
    }
}

// Whether the policies are in JSON, by their format or by the direction in which they are translated.
fn is_json(matches: &ArgMatches<'_>) -> bool {
    matches.get_str("policy-format") == Some("json")
        || matches.get_str("direction") == Some("json-to-cedar")
}

// Without the templates that have links in the JSON, where nothing asks for these.
fn is_deciding(matches: &ArgMatches<'_>) -> bool {
    matches.get_str("direction").is_none()
        && matches.get_str("template-id").is_none()
        && matches.get_str("template-linked").is_none()
}

fn as_text(alloc: Global, file: File, matches: &ArgMatches<'_>) -> Result<File, Refusal> {
    if is_json(matches) {
        let text = text_of_json(alloc, source_of(&file), is_deciding(matches));
        let File { name, text: json } = file;
        drop(json);
        text_file(alloc, name, "as text", text)
    } else {
        Ok(file)
    }
}

fn text_file(
    alloc: Global,
    name: String,
    how: &str,
    text: Result<String, Refusal>,
) -> Result<File, Refusal> {
    match text {
        Ok(text) => {
            let name = format!(in alloc; "{name} {how}")?;
            Ok(File { name, text })
        }
        Err(refusal) => {
            drop(name);
            Err(refusal)
        }
    }
}

fn step_of(files: &StepFiles, is_partial: bool, max_ancestors: Option<usize>) -> Step<'_> {
    Step {
        values: source_of(&files.values),
        entities: source(&files.entities),
        is_partial,
        max_ancestors,
    }
}

// Of no file, if none is named: then it is called so.
fn source_or<'a>(file: &'a Option<File>, name: &'static str) -> Source<'a> {
    match file {
        Some(file) => source_of(file),
        None => Source { name, text: "" },
    }
}

fn source(file: &Option<File>) -> Option<Source<'_>> {
    match file {
        Some(file) => Some(source_of(file)),
        None => None,
    }
}

/// What is told of the file where its text is wrong, and the text.
pub(crate) fn source_of(file: &File) -> Source<'_> {
    Source {
        name: file.name.as_str(),
        text: file.text.as_str(),
    }
}

// The files that each use of `--step` names.
fn step_files<R: Files + Input + AllocGlobal>(
    rt: &R,
    matches: &ArgMatches<'_>,
) -> Result<Vec<StepFiles>, Refusal> {
    let mut steps: Vec<StepFiles> = Vec::new(rt.alloc());
    if let Some(uses) = matches.get_raw_occurrences("step") {
        'uses: for names in uses {
            put_step(rt, names, &mut steps)?;
        }
    }
    Ok(steps)
}

fn put_step<R: Files + Input + AllocGlobal>(
    rt: &R,
    names: &[&str],
    steps: &mut Vec<StepFiles>,
) -> Result<(), Refusal> {
    if let Some(values) = names.first() {
        let values = read_named(rt, values)?;
        let step = with_entities(rt, values, names.get(1).copied())?;
        steps.push(step)?;
    }
    Ok(())
}

fn with_entities<R: Files + Input + AllocGlobal>(
    rt: &R,
    values: File,
    entities: Option<&str>,
) -> Result<StepFiles, Refusal> {
    match text_of(rt, entities) {
        Ok(entities) => Ok(StepFiles { values, entities }),
        Err(refusal) => {
            drop(values);
            Err(refusal)
        }
    }
}

/// The file of this name and its text, if one is named.
pub(crate) fn text_of<R: Files + Input + AllocGlobal>(
    rt: &R,
    name: Option<&str>,
) -> Result<Option<File>, Refusal> {
    match name {
        Some(name) => Ok(Some(read_named(rt, name)?)),
        None => Ok(None),
    }
}

fn read_named<R: Files + Input + AllocGlobal>(rt: &R, name: &str) -> Result<File, Refusal> {
    if name == INPUT {
        let text = input_text(rt)?;
        let name = String::from_str(rt.alloc(), INPUT_NAME)?;
        Ok(File { name, text })
    } else {
        let text = file_text(rt, name)?;
        let name = String::from_str(rt.alloc(), name)?;
        Ok(File { name, text })
    }
}

// All of standard input.
fn input_text<R: Input + AllocGlobal>(rt: &R) -> Result<String, Refusal> {
    let mut text = String::new(rt.alloc());
    match rt.reader().read_to_string(&mut text) {
        Ok(_) => Ok(text),
        Err(error) => Err(unread(rt.alloc(), INPUT_NAME, &error)),
    }
}

/// Refuses the arguments where more than one of them is `-`: standard input is read once.
pub(crate) fn refuse_second_input(alloc: Global, matches: &ArgMatches<'_>) -> Result<(), Refusal> {
    let mut count: usize = 0;
    'options: for option in FILE_OPTIONS {
        if matches.get_str(option) == Some(INPUT) {
            count = count.saturating_add(1);
        }
    }
    if count.saturating_add(step_inputs(matches)) > 1 {
        let line = String::from_str(
            alloc,
            "`-` is standard input, which is read once: give it once",
        );
        return Err(refuse_with_line(alloc, line));
    }
    Ok(())
}

// How many files of steps are `-`.
fn step_inputs(matches: &ArgMatches<'_>) -> usize {
    let mut count: usize = 0;
    if let Some(uses) = matches.get_raw_occurrences("step") {
        'uses: for names in uses {
            'names: for name in names {
                if *name == INPUT {
                    count = count.saturating_add(1);
                }
            }
        }
    }
    count
}

fn file_text<R: Files + AllocGlobal>(rt: &R, name: &str) -> Result<String, Refusal> {
    match fs::read_to_string(rt, name) {
        Ok(text) => Ok(text),
        Err(error) => Err(unread(rt.alloc(), name, &error)),
    }
}

#[cold]
fn unread(alloc: Global, name: &str, error: &io::Error) -> Refusal {
    let line = match error.kind() {
        io::ErrorKind::OutOfMemory => return Refusal::Memory,
        io::ErrorKind::NotFound => format!(in alloc; "{name}: no such file"),
        io::ErrorKind::InvalidData => format!(in alloc; "{name}: not UTF-8"),
        _ => format!(in alloc; "{name}: {error}"),
    };
    refuse_with_line(alloc, line)
}
