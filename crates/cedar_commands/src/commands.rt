//! The commands and their arguments.
use clap::builder::ValueParser;
use clap::{Arg, ArgAction, Command};
use std::alloc::{AllocError, Global};

// The version: of the program, of the language, and of the kit that proved and built it.
const VERSION: &str =
    "0.1.0 (Cedar as of cedar-policy-core 4.14.1; rattle-kit-13f logic dac8208d650f15bf)";

/// How policies that err are handled.
pub(crate) const HANDLINGS: [&str; 2] = ["skip", "forbid"];

// Into what policies are translated.
const DIRECTIONS: [&str; 2] = ["cedar-to-json", "json-to-cedar"];

// In which form policies are given.
const FORMATS: [&str; 2] = ["cedar", "json"];

// What a step takes.
const STEP_FILES: [&str; 2] = ["VALUES", "ENTITIES"];

/// All commands.
pub(crate) fn cedar<'a>(alloc: Global) -> Result<Command<'a>, AllocError> {
    Command::new(alloc, "cedar")
        .bin_name("cedar")?
        .version(VERSION)
        .about("Answers questions about Cedar's policies. A FILE that is `-` is standard input")
        .subcommand_required(true)
        .arg_required_else_help(true)
        .subcommand(authorize(alloc)?)?
        .subcommand(diff(alloc)?)?
        .subcommand(run_tests(alloc)?)?
        .subcommand(partially_authorize(alloc)?)?
        .subcommand(evaluate(alloc)?)?
        .subcommand(check_parse(alloc)?)?
        .subcommand(format(alloc)?)?
        .subcommand(translate(alloc)?)?
        .subcommand(link(alloc)?)
}

// An option with a value.
fn option<'a>(alloc: Global, name: &'a str, value: &'a str, help: &'a str) -> Arg<'a> {
    Arg::new(alloc, name)
        .long(name)
        .action(ArgAction::Set)
        .value_name(value)
        .help(help)
}

// A flag.
fn flag<'a>(alloc: Global, name: &'a str, help: &'a str) -> Arg<'a> {
    Arg::new(alloc, name)
        .long(name)
        .action(ArgAction::SetTrue)
        .help(help)
}

fn policies<'a>(alloc: Global) -> Arg<'a> {
    option(alloc, "policies", "FILE", "The policies")
        .short('p')
        .required(true)
}

fn policy_format<'a>(alloc: Global) -> Arg<'a> {
    let help = "In which form the policies are: in Cedar's text, or in its JSON of policies";
    option(alloc, "policy-format", "FORMAT", help)
        .value_parser(ValueParser::Names(&FORMATS))
        .default_value("cedar")
}

fn template_linked<'a>(alloc: Global) -> Arg<'a> {
    let help = "The links of templates, in JSON: the policies that they make decide too";
    option(alloc, "template-linked", "FILE", help).short('k')
}

fn limit<'a>(alloc: Global) -> Arg<'a> {
    let help = "How many levels deep is evaluated; left out, as many as can be needed";
    option(alloc, "limit", "N", help).value_parser(ValueParser::Unsigned(1, 1_000_000))
}

fn error_handling<'a>(alloc: Global) -> Arg<'a> {
    let help = "Whether a policy that errs is skipped, or a forbid that errs forbids";
    option(alloc, "error-handling", "WAY", help)
        .value_parser(ValueParser::Names(&HANDLINGS))
        .default_value("skip")
}

// The command with the arguments that say what is asked, over which entities.
fn with_request<'a>(
    alloc: Global,
    command: Command<'a>,
    entities: Arg<'a>,
) -> Result<Command<'a>, AllocError> {
    let principal = option(alloc, "principal", "ENTITY", "Who asks, as User::\"alice\"");
    let action = option(alloc, "action", "ENTITY", "What to do, as Action::\"view\"");
    let resource = option(alloc, "resource", "ENTITY", "With what, as Photo::\"trip\"");
    let context = option(alloc, "context", "FILE", "The context, a record in JSON");
    command
        .arg(principal.short('l'))?
        .arg(action.short('a'))?
        .arg(resource.short('r'))?
        .arg(context.short('c'))?
        .arg(request_json(alloc)?)?
        .arg(entities)?
        .arg(max_ancestors(alloc))
}

fn entities<'a>(alloc: Global) -> Arg<'a> {
    let help = "The entities, in JSON, with their parents";
    option(alloc, "entities", "FILE", help)
}

fn max_ancestors<'a>(alloc: Global) -> Arg<'a> {
    let help = "How many ancestors entities have in all at most; left out, 5,000,000";
    option(alloc, "max-ancestors", "N", help).value_parser(ValueParser::Unsigned(0, 1_000_000_000))
}

fn json<'a>(alloc: Global) -> Arg<'a> {
    flag(alloc, "json", "Prints the whole answer as one JSON value")
}

fn request_json<'a>(alloc: Global) -> Result<Arg<'a>, AllocError> {
    option(alloc, "request-json", "FILE", "The whole request, in JSON")
        .conflicts_with("principal")?
        .conflicts_with("action")?
        .conflicts_with("resource")?
        .conflicts_with("context")
}

fn requests<'a>(alloc: Global) -> Result<Arg<'a>, AllocError> {
    let help =
        "Many requests, each a line of JSON as --request-json has it; a line of JSON is printed of each";
    option(alloc, "requests", "FILE", help)
        .conflicts_with("principal")?
        .conflicts_with("action")?
        .conflicts_with("resource")?
        .conflicts_with("context")?
        .conflicts_with("request-json")
}

fn authorize<'a>(alloc: Global) -> Result<Command<'a>, AllocError> {
    let verbose = flag(alloc, "verbose", "Prints the policies that decided too").short('v');
    let command = Command::new(alloc, "authorize")
        .about("What the policies decide: ALLOW (status 0) or DENY (status 2)")
        .arg(policies(alloc))?
        .arg(policy_format(alloc))?
        .arg(template_linked(alloc))?
        .arg(error_handling(alloc))?
        .arg(limit(alloc))?
        .arg(requests(alloc)?)?
        .arg(verbose)?
        .arg(json(alloc))?
        .arg(explain(alloc)?)?
        .arg(no_values(alloc)?)?;
    with_request(alloc, command, entities(alloc).required(true))
}

fn diff<'a>(alloc: Global) -> Result<Command<'a>, AllocError> {
    let with = option(alloc, "with", "FILE", "The new policies, in Cedar's text");
    let requests = option(
        alloc,
        "requests",
        "FILE",
        "The requests, each a line of JSON as --request-json has it",
    );
    Command::new(alloc, "diff")
        .about("What new policies answer differently, a line of JSON for each request (status 2)")
        .arg(policies(alloc))?
        .arg(template_linked(alloc))?
        .arg(with.required(true))?
        .arg(requests.required(true))?
        .arg(error_handling(alloc))?
        .arg(limit(alloc))?
        .arg(entities(alloc).required(true))?
        .arg(max_ancestors(alloc))
}

fn run_tests<'a>(alloc: Global) -> Result<Command<'a>, AllocError> {
    let tests = Arg::new(alloc, "tests")
        .required(true)
        .action(ArgAction::Set)
        .value_name("FILE")
        .help("The tests, an array in JSON");
    Command::new(alloc, "run-tests")
        .about("Which tests the policies fail, a line of JSON for each (status 1)")
        .arg(tests)?
        .arg(policies(alloc))?
        .arg(policy_format(alloc))?
        .arg(template_linked(alloc))?
        .arg(error_handling(alloc))?
        .arg(limit(alloc))?
        .arg(entities(alloc))?
        .arg(max_ancestors(alloc))
}

fn explain<'a>(alloc: Global) -> Result<Arg<'a>, AllocError> {
    let help = "Prints why too: the parts of each policy that decide it";
    flag(alloc, "explain", help).conflicts_with("requests")
}

fn no_values<'a>(alloc: Global) -> Result<Arg<'a>, AllocError> {
    let help = "Of values that are no booleans, --explain prints only that they are none";
    flag(alloc, "no-values", help).requires_arg("explain")
}

fn partially_authorize<'a>(alloc: Global) -> Result<Command<'a>, AllocError> {
    let command = Command::new(alloc, "partially-authorize")
        .about("What is known of the decision where parts are unknown: those that are not given")
        .arg(policies_or_line(alloc)?)?
        .arg(save(alloc)?)?
        .arg(resume(alloc)?)?
        .arg(policy_format(alloc))?
        .arg(template_linked(alloc))?
        .arg(error_handling(alloc))?
        .arg(limit(alloc))?;
    with_request(alloc, with_stages(alloc, command)?, entities(alloc))
}

// The command with the arguments of steps and rows, and of what is not all known.
fn with_stages<'a>(alloc: Global, command: Command<'a>) -> Result<Command<'a>, AllocError> {
    let partial = flag(
        alloc,
        "partial",
        "There may be more entities than those of --entities",
    );
    let partial_step = flag(
        alloc,
        "partial-step",
        "There may be more entities than those of a step",
    );
    let principal_type = option(alloc, "principal-type", "TYPE", "The type of who asks");
    let resource_type = option(alloc, "resource-type", "TYPE", "The type of the resource");
    command
        .arg(partial)?
        .arg(step(alloc))?
        .arg(partial_step)?
        .arg(json(alloc))?
        .arg(sql(alloc)?)?
        .arg(candidates(alloc)?)?
        .arg(principal_type.conflicts_with("principal")?)?
        .arg(resource_type.conflicts_with("resource")?)
}

fn policies_or_line<'a>(alloc: Global) -> Result<Arg<'a>, AllocError> {
    option(alloc, "policies", "FILE", "The policies")
        .short('p')
        .required_unless_present("resume")
}

fn save<'a>(alloc: Global) -> Result<Arg<'a>, AllocError> {
    let help =
        "Writes the whole answer to this file too, as a line of JSON that --resume takes further: sign it";
    option(alloc, "save", "FILE", help).conflicts_with("sql")
}

fn resume<'a>(alloc: Global) -> Result<Arg<'a>, AllocError> {
    let help =
        "A line that --save wrote, whose request and policies are taken further: whoever can write it can change the decision";
    option(alloc, "resume", "FILE", help)
        .conflicts_with("policies")?
        .conflicts_with("policy-format")?
        .conflicts_with("template-linked")?
        .conflicts_with("principal")?
        .conflicts_with("principal-type")?
        .conflicts_with("action")?
        .conflicts_with("resource")?
        .conflicts_with("resource-type")?
        .conflicts_with("context")?
        .conflicts_with("request-json")?
        .conflicts_with("error-handling")?
        .conflicts_with("sql")
}

fn sql<'a>(alloc: Global) -> Result<Arg<'a>, AllocError> {
    let help =
        "Prints the SQL of the rows that are allowed, where each is an entity that is not given: the columns, in JSON";
    option(alloc, "sql", "COLUMNS", help)
        .conflicts_with("step")?
        .conflicts_with("json")
}

fn candidates<'a>(alloc: Global) -> Result<Arg<'a>, AllocError> {
    let help = "With --sql those that may be allowed: what is left of some policies SQL can't say";
    flag(alloc, "candidates", help).requires_arg("sql")
}

// Each use has one value or two.
fn step<'a>(alloc: Global) -> Arg<'a> {
    Arg::new(alloc, "step")
        .long("step")
        .action(ArgAction::Append)
        .num_args(1..=2)
        .value_names(&STEP_FILES)
        .help("Values for unknowns, in JSON, and perhaps the entities that there are then")
}

fn evaluate<'a>(alloc: Global) -> Result<Command<'a>, AllocError> {
    let expression = Arg::new(alloc, "expression")
        .required(true)
        .action(ArgAction::Set)
        .value_name("EXPRESSION")
        .help("An expression, in Cedar's text");
    let command = Command::new(alloc, "evaluate")
        .about("The value of an expression")
        .arg(expression)?
        .arg(limit(alloc))?
        .arg(json(alloc))?;
    with_request(alloc, command, entities(alloc))
}

fn check_parse<'a>(alloc: Global) -> Result<Command<'a>, AllocError> {
    Command::new(alloc, "check-parse")
        .about("Whether the policies can be read")
        .arg(policies(alloc))?
        .arg(policy_format(alloc))?
        .arg(template_linked(alloc))?
        .arg(flag(alloc, "strict", "Tells the policies that apply in no world"))?
        .arg(flag(alloc, "unknowns", "The policies may call `unknown`"))?
        .arg(deny_warnings(alloc)?)
}

fn deny_warnings<'a>(alloc: Global) -> Result<Arg<'a>, AllocError> {
    let help = "With --strict the status is 1 if a policy is told";
    flag(alloc, "deny-warnings", help).requires_arg("strict")
}

fn link<'a>(alloc: Global) -> Result<Command<'a>, AllocError> {
    let template = option(alloc, "template-id", "ID", "Which template is linked");
    let new = option(
        alloc,
        "new-id",
        "ID",
        "The id of the policy that it is linked to",
    )
    .short('n');
    let help = "The entities of its slots, as {\"?principal\": \"User::\\\"alice\\\"\"}";
    let arguments = option(alloc, "arguments", "JSON", help).short('a');
    let file = "The links that there are, in JSON: the new one is added";
    Command::new(alloc, "link")
        .about("The policy that a template is linked to, which is added to the file of links")
        .arg(policies(alloc))?
        .arg(policy_format(alloc))?
        .arg(option(alloc, "template-linked", "FILE", file).short('k'))?
        .arg(template.required(true))?
        .arg(new.required(true))?
        .arg(arguments.required(true))
}

fn translate<'a>(alloc: Global) -> Result<Command<'a>, AllocError> {
    let direction = option(alloc, "direction", "DIRECTION", "From what into what")
        .value_parser(ValueParser::Names(&DIRECTIONS))
        .required(true);
    Command::new(alloc, "translate-policy")
        .about(
            "The policies and templates as Cedar's JSON of policies, or of that JSON as Cedar's text",
        )
        .arg(policies(alloc))?
        .arg(direction)
}

fn format<'a>(alloc: Global) -> Result<Command<'a>, AllocError> {
    let help = "Prints nothing; the status is 1 if the file would change";
    Command::new(alloc, "format")
        .about("The policies in one layout, with their comments")
        .arg(policies(alloc))?
        .arg(flag(alloc, "check", help))
}
