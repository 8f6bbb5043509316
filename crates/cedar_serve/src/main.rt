//! Cedar's decisions over HTTP, as a program: it reads policies and entities once from files, and serves one connection
//! on standard input and output, as `socat`, systemd or inetd starts it. `docs/SERVING.md` describes it.
//!
//! - `main`: reads the words of the command line and the files, serves, and ends with a status: 0 where the connection is
//!   done, `REFUSED` where there is none or it breaks, `NO_TYPE`, and `OUT_OF_MEMORY`.
//! - `arguments`: the options. `types`: the type of actions. `files`: the files that are named. `serving`:
//!   `serve_texts`, the connection from the two texts on. `lines`: `answer_texts`, requests that come a line each.
//!   `logging`, `logged_lines`: `log_texts` and `log_answers`, the same with a log. `hosts`: all of it over what
//!   the system gives. `metadata`: where the endpoints are. `reasons`, `refusal`, `visible`: why there is no
//!   connection, as it is told on standard error.
//!
//! The promise, of `serve_texts`: what is sent is the answers that are due to the requests received, in their order,
//! where decisions are those of the policies and the entities that the two texts say (`IsServedFrom` in
//! `specs/Connections`); or nothing is read and nothing sent, for what is wrong with the texts.
#![tactic(auto)]

mod arguments;
mod files;
mod hosts;
mod lines;
mod logged_lines;
mod logging;
mod metadata;
mod reasons;
mod refusal;
mod serving;
mod types;
mod visible;

use arguments::{Options, command, options_of, text_of_help};
use files::{file_text, file_to_append};
use hosts::{config, log_host, log_lines_host, serve_host};
use lines::answer_texts;
use reasons::refuse_texts;
use refusal::{Refusal, refuse_with_line};
use serving::{Stopped, Texts, texts_of};
use std::alloc::Global;
use std::env::Env;
use std::io::{BufReader, BufWriter, Write};
use std::process::ExitCode;
use std::random::RandomSource;
use std::rt::Files;
use std::{env, io};
use types::type_said;

/// The connection is done, or help was printed.
pub const DONE: u8 = 0;
/// Nothing is served, or the connection broke.
pub const REFUSED: u8 = 1;
/// Nothing is served, for the type of actions that an option says is no name.
pub const NO_TYPE: u8 = 2;
/// Out of memory.
pub const OUT_OF_MEMORY: u8 = 3;

fn main(rt: HostRuntime) -> ExitCode {
    ExitCode::from(run(&rt))
}

// Serves as the arguments say, and answers the exit status.
fn run<R: Env + Files + Input + AllocGlobal + Print + Eprint + RandomSource>(rt: &R) -> u8 {
    match serve_words(rt) {
        Ok(()) => DONE,
        Err(Refusal::Told(line)) => {
            drop(rt.eprint(line.as_str()));
            REFUSED
        }
        Err(Refusal::NoType(line)) => {
            drop(rt.eprint(line.as_str()));
            NO_TYPE
        }
        Err(Refusal::Memory) => {
            drop(rt.eprint("out of memory\n"));
            OUT_OF_MEMORY
        }
    }
}

fn serve_words<R: Env + Files + Input + AllocGlobal + Print + RandomSource>(
    rt: &R,
) -> Result<(), Refusal> {
    let words = words(rt)?;
    let command = command(rt.alloc())?;
    match command.try_get_matches_from(words.as_slice()) {
        Ok(matches) => serve_files(rt, options_of(&matches)),
        Err(error) => print_help(rt, text_of_help(rt.alloc(), &error)?.as_str()),
    }
}

fn words<R: Env + AllocGlobal>(rt: &R) -> Result<Vec<String>, Refusal> {
    match words_given(rt) {
        Ok(words) => Ok(words),
        Err(error) => Err(refuse_unread(rt.alloc(), &error)),
    }
}

fn words_given<R: Env + AllocGlobal>(rt: &R) -> io::Result<Vec<String>> {
    let mut words: Vec<String> = Vec::new(rt.alloc());
    for word in env::args(rt)? {
        words.push(word)?;
    }
    Ok(words)
}

#[cold]
fn refuse_unread(alloc: Global, error: &io::Error) -> Refusal {
    match error.kind() {
        io::ErrorKind::OutOfMemory => Refusal::Memory,
        io::ErrorKind::InvalidData => {
            refuse_with_line(alloc, String::from_str(alloc, "an argument is not UTF-8"))
        }
        _ => refuse_with_line(
            alloc,
            format!(in alloc; "the arguments can't be read: {error}"),
        ),
    }
}

fn print_help<R: AllocGlobal + Print>(rt: &R, text: &str) -> Result<(), Refusal> {
    match rt.print(text) {
        Ok(()) => Ok(()),
        Err(error) => Err(refuse_broken(rt.alloc(), &error)),
    }
}

// Serves one connection over the texts of the files.
fn serve_files<R: Files + Input + AllocGlobal + Print + RandomSource>(
    rt: &R,
    options: Options<'_>,
) -> Result<(), Refusal> {
    let action_type = type_said(rt.alloc(), options.action_type)?;
    let policies = file_text(rt, options.policies)?;
    let entities = file_text(rt, options.entities)?;
    let texts = texts_of(
        &options,
        policies.as_str(),
        entities.as_str(),
        action_type.as_str(),
    );
    let ended = serve_as(rt, &options, texts)?;
    match ended {
        Ok(()) => Ok(()),
        Err(Stopped::NotStarted(reason)) => {
            Err(refuse_texts(rt.alloc(), &options, &texts, &reason))
        }
        Err(Stopped::Broken(error)) => Err(refuse_broken(rt.alloc(), &error)),
    }
}

// With a log, if one is asked for.
fn serve_as<R: Files + Input + AllocGlobal + Print + RandomSource>(
    rt: &R,
    options: &Options<'_>,
    texts: Texts<'_>,
) -> Result<Result<(), Stopped>, Refusal> {
    match options.log {
        Some(name) => {
            let log = file_to_append(rt, name)?;
            Ok(serve_logged(rt, options, texts, log))
        }
        None => Ok(serve_unlogged(rt, options, texts)),
    }
}

fn serve_logged<R: Input + AllocGlobal + Print + RandomSource, L: Write + Drop>(
    rt: &R,
    options: &Options<'_>,
    texts: Texts<'_>,
    log: L,
) -> Result<(), Stopped> {
    if options.is_lines {
        log_lines_host(rt, texts, log)
    } else {
        log_host(rt, config(options.max_body), texts, log)
    }
}

fn serve_unlogged<R: Input + AllocGlobal + Print + RandomSource>(
    rt: &R,
    options: &Options<'_>,
    texts: Texts<'_>,
) -> Result<(), Stopped> {
    if options.is_lines {
        answer_host(rt, texts)
    } else {
        serve_host(rt, config(options.max_body), texts)
    }
}

// Answers lines of standard input, through buffers.
fn answer_host<R: Input + AllocGlobal + Print>(rt: &R, texts: Texts<'_>) -> Result<(), Stopped> {
    let mut reader = BufReader::new(rt.alloc(), rt.reader())?;
    let mut writer = BufWriter::new(rt.alloc(), io::writer(rt))?;
    answer_texts(rt.alloc(), texts, &mut reader, &mut writer)
}

#[cold]
fn refuse_broken(alloc: Global, error: &io::Error) -> Refusal {
    match error.kind() {
        io::ErrorKind::OutOfMemory => Refusal::Memory,
        _ => refuse_with_line(alloc, format!(in alloc; "the connection broke: {error}")),
    }
}
