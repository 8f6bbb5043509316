//! The answer to one line, and what is told of it.
ghost use Rattle.std.specs.Prelude.{◌≡◌, ◌++◌, IfOk, codes, string_bytes};
ghost use Rattle.cedar_endpoints.specs.declared.answers.Status.TheVariants as statuses;
ghost use Rattle.cedar_logged_lines.specs.Lines.{IsToldBy, IsTextOf};

use cedar_endpoints::{Decider, Reply, Status, authorize};
use cedar_log::request_line;
use std::alloc::{AllocError, Global};
use std::io;
use std::io::ErrorKind;

// An answer, on a line, and the line that tells it to the log; no line where nothing is decided.
#[derive(Drop)]
pub(crate) struct Answer {
    pub(crate) answer: String,
    pub(crate) told: String,
}

/// The answer to the line, and what is told of it. Refuses if out of memory, and where it can't be told.
pub(crate) fn answer_to<D: Decider>(alloc: Global, decider: &D, line: &[u8]) -> io::Result<Answer>
    ensures { IfOk result (IsTextOf (D.authorizes decider.now) (D.version decider.now) line.now) }
{
    let reply = authorize(alloc, decider, line)?;
    let told = told_of(alloc, decider.version_text(), line, &reply)?;
    let answer = ended(alloc, &reply)?;
    Ok(Answer { answer, told })
}

fn ended(alloc: Global, reply: &Reply) -> Result<String, AllocError>
    ensures { IfOk result (λ s. string_bytes s ≡ string_bytes reply.now.body ++ codes "\n") }
{
    let body = reply.body.as_str();
    let end = "\n";
    format!(in alloc; "{body}{end}")
}

// ---- what is told

fn told_of(alloc: Global, version: &str, line: &[u8], reply: &Reply) -> io::Result<String>
    ensures { IfOk result (λ s.
        IsToldBy reply.now.status version.now line.now (string_bytes reply.now.body) (string_bytes s)) }
{
    match reply.status {
        Status::Ok => told_line(alloc, version, line, reply.body.as_str()),
        Status::BadRequest => Ok(String::new(alloc)),
        Status::NotFound => Ok(String::new(alloc)),
        Status::TooLarge => Ok(String::new(alloc)),
        Status::PostOnly => Ok(String::new(alloc)),
        Status::GetOnly => Ok(String::new(alloc)),
        Status::PutOnly => Ok(String::new(alloc)),
    }
}

fn told_line(alloc: Global, version: &str, line: &[u8], body: &str) -> io::Result<String>
    ensures { IfOk result (λ s. IsToldBy statuses.Ok version.now line.now body.now (string_bytes s)) }
{
    match request_line(alloc, version, line, body)? {
        Some(told) => Ok(told),
        None => Err(ErrorKind::InvalidData.into()),
    }
}
