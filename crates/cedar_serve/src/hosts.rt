//! Connections over what the system gives.
use crate::logged_lines::log_answers;
use crate::logging::log_texts;
use crate::serving::{Stopped, Texts, serve_texts};
use cedar_log::Flushed;
use http_server::{Config, State};
use std::hash::RandomState;
use std::io;
use std::io::{BufReader, BufWriter, Write};
use std::random::RandomSource;

/// How long a body may be; all else is as `http_server` has it.
pub(crate) fn config(max_body: Option<usize>) -> Config {
    let default = Config::default();
    Config {
        max_body_len: max_body.unwrap_or(default.max_body_len),
        ..default
    }
}

/// Over standard input and output, which is written through a buffer.
pub(crate) fn serve_host<R: Input + AllocGlobal + Print + RandomSource>(
    rt: &R,
    config: Config,
    texts: Texts<'_>,
) -> Result<(), Stopped> {
    let keys = RandomState::new(rt)?;
    let mut writer = BufWriter::new(rt.alloc(), io::writer(rt))?;
    let ended = serve_texts(
        rt.alloc(),
        keys,
        config,
        texts,
        &mut rt.reader(),
        &mut writer,
    )?;
    done(ended)
}

/// The same as `serve_host`, with this log, which is flushed after each decision.
pub(crate) fn log_host<R: Input + AllocGlobal + Print + RandomSource, L: Write + Drop>(
    rt: &R,
    config: Config,
    texts: Texts<'_>,
    log: L,
) -> Result<(), Stopped> {
    let keys = RandomState::new(rt)?;
    let mut writer = BufWriter::new(rt.alloc(), io::writer(rt))?;
    let (log, ended) = log_texts(
        rt.alloc(),
        keys,
        config,
        texts,
        Flushed { writer: log },
        &mut rt.reader(),
        &mut writer,
    );
    drop(log);
    done(ended?)
}

/// Answers lines of standard input, through buffers, with this log, which is flushed after each decision.
pub(crate) fn log_lines_host<R: Input + AllocGlobal + Print, L: Write + Drop>(
    rt: &R,
    texts: Texts<'_>,
    log: L,
) -> Result<(), Stopped> {
    let mut reader = BufReader::new(rt.alloc(), rt.reader())?;
    let mut writer = BufWriter::new(rt.alloc(), io::writer(rt))?;
    let log = Flushed { writer: log };
    let (log, answered) = log_answers(rt.alloc(), texts, log, &mut reader, &mut writer);
    drop(log);
    answered
}

fn done(ended: State) -> Result<(), Stopped> {
    match ended {
        State::Aborted => Err(Stopped::Broken(io::ErrorKind::OutOfMemory.into())),
        State::Open | State::Closing(_) | State::Upgraded => Ok(()),
    }
}
