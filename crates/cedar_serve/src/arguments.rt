//! The options.
ghost use Rattle.std.specs.Prelude.{◌≡◌, option_map, codes};
ghost use Rattle.clap.specs.Words.{found_of, first_value};
ghost use Rattle.cedar_serve.specs.Options.{text_at, IsFlag, IsNumber, IsNumberOr, AreBounds};
ghost use Rattle.cedar_serve.specs.Options.{properties_said, properties_named, entities_said, entities_named};

use crate::refusal::{Refusal, refuse_with_line};
use cedar_endpoints::Bounds;
use cedar_service::{RequestEntities, RequestProperties};
use clap::builder::ValueParser;
use clap::error::ErrorKind;
use clap::{Arg, ArgAction, ArgMatches, Command, Error};
use std::alloc::{AllocError, Global};

// The version: of the program, of the language, and of the kit that proved and built it.
const VERSION: &str =
    "0.1.0 (Cedar as of cedar-policy-core 4.14.1; rattle-kit-13f logic dac8208d650f15bf)";

// The values of `--request-properties`.
const PROPERTIES: [&str; 4] = ["none", "unstored", "beside", "win"];

// The values of `--request-entities`.
const ENTITIES: [&str; 2] = ["none", "allowed"];

/// How many a page of a search has at most, where that is not said.
pub const PAGE_SIZE: usize = 100;
/// How many entities a request may bring, where that is not said.
pub const REQUEST_ENTITIES: usize = 100;
/// How many parents these may name, all together, where that is not said.
pub const REQUEST_ANCESTORS: usize = 10_000;
/// How many evaluations a document may ask, where that is not said.
pub const EVALUATIONS: usize = 1_000;
/// How many candidates a page of a search looks at, where that is not said.
pub const CANDIDATES: usize = 100_000;

/// What the options say.
#[derive(Clone, Copy)]
pub(crate) struct Options<'a> {
    /// The name of the file of policies.
    pub(crate) policies: &'a str,
    /// The name of the file of entities.
    pub(crate) entities: &'a str,
    /// Where the service is on the network, if that is to be told.
    pub(crate) url: Option<&'a str>,
    /// How many a page of a search has at most.
    pub(crate) page: usize,
    /// Whether requests come a line each, and not over HTTP.
    pub(crate) is_lines: bool,
    /// Whether requests may put other policies and entities in place of these.
    pub(crate) allows_reload: bool,
    /// Of which entities the properties of an evaluation are taken.
    pub(crate) properties: RequestProperties,
    /// Whether a request may bring entities.
    pub(crate) brought: RequestEntities,
    /// How much a request may ask and bring.
    pub(crate) bounds: Bounds,
    /// The type of the actions, if that is said.
    pub(crate) action_type: Option<&'a str>,
    /// How many bytes the body of a request may have, if that is said.
    pub(crate) max_body: Option<usize>,
    /// The name of the file to which decisions are told, if they are to be.
    pub(crate) log: Option<&'a str>,
}

/// The command line.
pub(crate) fn command<'a>(alloc: Global) -> Result<Command<'a>, AllocError> {
    let url = "Where the service is, as https://pdp.example.com, for AuthZEN's metadata";
    let page_size = "How many a page of a search has at most; left out, 100";
    let allow_reload = "Takes PUT /v1/policies and PUT /v1/entities from whoever is connected";
    let max_body = "How many bytes a body may have; left out, 1,048,576";
    Command::new(alloc, "cedar_serve")
        .bin_name("cedar_serve")?
        .version(VERSION)
        .about("Serves Cedar's decisions over HTTP: one connection, on standard input and output")
        .arg(file(alloc, "policies", "The policies, in Cedar's text"))?
        .arg(file(alloc, "entities", "The entities, in Cedar's JSON"))?
        .arg(option(alloc, "url", "URL", url))?
        .arg(option(alloc, "page-size", "COUNT", page_size).value_parser(ValueParser::Unsigned(
            1, 1_000_000,
        )))?
        .arg(flag(alloc, "allow-reload", allow_reload))?
        .arg(request_properties(alloc)?)?
        .arg(request_entities(alloc))?
        .arg(max_request_entities(alloc))?
        .arg(max_request_ancestors(alloc))?
        .arg(max_evaluations(alloc)?)?
        .arg(max_candidates(alloc)?)?
        .arg(action_type(alloc)?)?
        .arg(lines(alloc)?)?
        .arg(log(alloc))?
        .arg(option(alloc, "max-body", "BYTES", max_body).value_parser(ValueParser::Unsigned(
            0,
            1_000_000_000,
        )))
}

// An option with a value.
fn option<'a>(alloc: Global, name: &'a str, value: &'a str, help: &'a str) -> Arg<'a> {
    Arg::new(alloc, name)
        .long(name)
        .action(ArgAction::Set)
        .value_name(value)
        .help(help)
}

// Lines are answered alone: what is said of HTTP goes with it.
fn lines<'a>(alloc: Global) -> Result<Arg<'a>, AllocError> {
    let help = "Answers Cedar's own requests, a line of JSON each, and not HTTP";
    flag(alloc, "lines", help)
        .conflicts_with("url")?
        .conflicts_with("page-size")?
        .conflicts_with("allow-reload")?
        .conflicts_with("max-body")
}

// A log tells of actions of the type that is left out.
fn action_type<'a>(alloc: Global) -> Result<Arg<'a>, AllocError> {
    let help = "The type of the actions that AuthZEN's requests name; left out, Action";
    option(alloc, "action-type", "TYPE", help)
        .conflicts_with("log")?
        .conflicts_with("lines")
}

// Lines have no properties.
fn request_properties<'a>(alloc: Global) -> Result<Arg<'a>, AllocError> {
    let help =
        "Of which entities AuthZEN's properties are taken: of none, of those that are not stored, \
        of all beside stored attributes, or of all, where they win over stored ones; left out, none";
    let option = option(alloc, "request-properties", "ENTITIES", help);
    option
        .value_parser(ValueParser::Names(&PROPERTIES))
        .conflicts_with("lines")
}

fn request_entities<'a>(alloc: Global) -> Arg<'a> {
    let help =
        "Whether requests of Cedar's own may bring entities: none or allowed; left out, none";
    option(alloc, "request-entities", "WHICH", help).value_parser(ValueParser::Names(&ENTITIES))
}

fn max_request_entities<'a>(alloc: Global) -> Arg<'a> {
    let help = "How many entities a request may bring; left out, 100";
    count(alloc, "max-request-entities", help)
}

fn max_request_ancestors<'a>(alloc: Global) -> Arg<'a> {
    let help =
        "How many parents the entities that a request brings may name, all together; left out, 10,000";
    count(alloc, "max-request-ancestors", help)
}

fn max_evaluations<'a>(alloc: Global) -> Result<Arg<'a>, AllocError> {
    let help = "How many evaluations a document may ask; left out, 1,000";
    count(alloc, "max-evaluations", help).conflicts_with("lines")
}

fn max_candidates<'a>(alloc: Global) -> Result<Arg<'a>, AllocError> {
    let help = "How many candidates a page of a search looks at; left out, 100,000";
    count(alloc, "max-candidates", help).conflicts_with("lines")
}

// An option whose value is a number, of at least 1.
fn count<'a>(alloc: Global, name: &'a str, help: &'a str) -> Arg<'a> {
    option(alloc, name, "COUNT", help).value_parser(ValueParser::Unsigned(1, 1_000_000_000))
}

fn log<'a>(alloc: Global) -> Arg<'a> {
    let help = "A file to which each decision is written as a line of JSON, before it is answered";
    option(alloc, "log", "FILE", help)
}

// An option without a value.
fn flag<'a>(alloc: Global, name: &'a str, help: &'a str) -> Arg<'a> {
    Arg::new(alloc, name)
        .long(name)
        .action(ArgAction::SetTrue)
        .help(help)
}

// An option that names a file, and must be given.
fn file<'a>(alloc: Global, name: &'a str, help: &'a str) -> Arg<'a> {
    option(alloc, name, "FILE", help).required(true)
}

/// What the options say, by what was matched of the words; each number and each word that is not given is the one that
/// stands for it.
pub(crate) fn options_of<'a>(matches: &ArgMatches<'a>) -> Options<'a>
    ensures policies { result.policies.now ≡ text_at (found_of matches.now) (codes "policies") }
    ensures entities { result.entities.now ≡ text_at (found_of matches.now) (codes "entities") }
    ensures url { option_map (λ t. t.now) result.url ≡ first_value (found_of matches.now) (codes "url") }
    ensures page { IsNumberOr (found_of matches.now) (codes "page-size") 100 result.page }
    ensures lines { IsFlag (found_of matches.now) (codes "lines") result.is_lines }
    ensures reload { IsFlag (found_of matches.now) (codes "allow-reload") result.allows_reload }
    ensures properties { result.properties
        ≡ properties_said (first_value (found_of matches.now) (codes "request-properties")) }
    ensures brought { result.brought
        ≡ entities_said (first_value (found_of matches.now) (codes "request-entities")) }
    ensures bounds { AreBounds (found_of matches.now) result.bounds }
    ensures action_type { option_map (λ t. t.now) result.action_type
        ≡ first_value (found_of matches.now) (codes "action-type") }
    ensures max_body { IsNumber (found_of matches.now) (codes "max-body") result.max_body }
    ensures log { option_map (λ t. t.now) result.log ≡ first_value (found_of matches.now) (codes "log") }
{
    Options {
        policies: text_at(matches, "policies"),
        entities: text_at(matches, "entities"),
        url: matches.get_str("url"),
        page: number_or(matches, "page-size", PAGE_SIZE),
        is_lines: flag_at(matches, "lines"),
        allows_reload: flag_at(matches, "allow-reload"),
        properties: properties_said(matches.get_str("request-properties")),
        brought: entities_said(matches.get_str("request-entities")),
        bounds: bounds_of(matches),
        action_type: matches.get_str("action-type"),
        max_body: number_at(matches, "max-body"),
        log: matches.get_str("log"),
    }
}

fn bounds_of(matches: &ArgMatches<'_>) -> Bounds
    ensures { AreBounds (found_of matches.now) result }
{
    Bounds {
        entities: number_or(matches, "max-request-entities", REQUEST_ENTITIES),
        ancestors: number_or(matches, "max-request-ancestors", REQUEST_ANCESTORS),
        evaluations: number_or(matches, "max-evaluations", EVALUATIONS),
        candidates: number_or(matches, "max-candidates", CANDIDATES),
    }
}

// The word of an option that must be given.
fn text_at<'a>(matches: &ArgMatches<'a>, id: &str) -> &'a str
    ensures { result.now ≡ text_at (found_of matches.now) id.now }
{
    match matches.get_str(id) {
        Some(text) => text,
        None => "",
    }
}

fn flag_at(matches: &ArgMatches<'_>, id: &str) -> bool
    ensures { IsFlag (found_of matches.now) id.now result }
{
    matches.get_flag(id)
}

fn number_or(matches: &ArgMatches<'_>, id: &str, default: usize) -> usize
    ensures { IsNumberOr (found_of matches.now) id.now default result }
{
    number_at(matches, id).unwrap_or(default)
}

fn number_at(matches: &ArgMatches<'_>, id: &str) -> Option<usize>
    ensures { IsNumber (found_of matches.now) id.now result }
{
    match matches.get_one::<usize>(id) {
        Some(number) => Some(number),
        None => None,
    }
}

// What is no word of these does not come here.
fn properties_said(word: Option<&str>) -> RequestProperties
    ensures { result ≡ properties_said (option_map (λ t. t.now) word.entry) }
{
    match word {
        Some(word) => properties_named(word),
        None => RequestProperties::None,
    }
}

fn properties_named(word: &str) -> RequestProperties
    ensures { result ≡ properties_named word.now }
{
    if word == "unstored" {
        RequestProperties::Unstored
    } else if word == "beside" {
        RequestProperties::Beside
    } else if word == "win" {
        RequestProperties::Win
    } else {
        RequestProperties::None
    }
}

fn entities_said(word: Option<&str>) -> RequestEntities
    ensures { result ≡ entities_said (option_map (λ t. t.now) word.entry) }
{
    match word {
        Some(word) => entities_named(word),
        None => RequestEntities::None,
    }
}

fn entities_named(word: &str) -> RequestEntities
    ensures { result ≡ entities_named word.now }
{
    if word == "allowed" {
        RequestEntities::Allowed
    } else {
        RequestEntities::None
    }
}

/// The help that is asked for; a mistake in the words is refused.
#[cold]
pub(crate) fn text_of_help(alloc: Global, error: &Error) -> Result<String, Refusal> {
    if error.kind() == ErrorKind::OutOfMemory {
        return Err(Refusal::Memory);
    }
    let text = format!(in alloc; "{error}")?;
    if error.use_stderr() {
        Err(Refusal::Told(text))
    } else {
        Ok(text)
    }
}
