//! A service with a log.
ghost use Rattle.std.specs.Prelude.{◌≡◌, ◌||◌, true, false, option_map, string_bytes};
ghost use Rattle.cedar_log.specs.Exchanges.{hands_out, AreFound};
ghost use Rattle.cedar_log.specs.Logs.{IsHandedOut, IsLogged, IsWithheld, IsKeptOr, TellsOrWithholds};

use crate::exchanges::{hands_out, lines_of};
use crate::logs::{Log, append};
use crate::sinks::Sink;
use bytes::Bytes;
use http::{Request, StatusCode};
use http_server::{Response, Service};
use std::alloc::{AllocError, Global};

/// A service whose decisions are appended to a log before they are handed out.
#[derive(Drop)]
pub struct Logged<S: Service + Drop, L: Sink> {
    pub alloc: Global,
    /// What answers.
    pub service: S,
    /// To it a line is appended for each decision, before the answer is handed out.
    pub log: Log<L>,
    /// Whether a decision was withheld since memory ran out before its line was made.
    pub lacked_memory: bool,
}

/// Each request is answered as by the service without a log, once the lines of the decisions in the answer stand in the
/// log. Else by 500 and no decision: where they can't be appended whole, where one of the two bodies is no JSON, or if
/// out of memory, which is noted.
impl<S: Service + Drop, L: Sink> Service for Logged<S, L> {
    ghost answers = { λ before request response after.
        IsLogged S.answers L.contents request response before after };

    fn call(
        &mut self,
        request: &Request<Bytes>,
        response: &mut Response,
    ) -> Result<(), AllocError> {
        self.service.call(request, response)?;
        let lacks_memory = hand_out(self.alloc, &mut self.log, request, response);
        self.lacked_memory = either(self.lacked_memory, lacks_memory);
        Ok(())
    }
}

fn either(before: bool, now: bool) -> bool
    ensures { result ≡ (before || now) }
{
    before || now
}

// Hands the response out, once it is told, or withholds it. Whether memory ran out.
fn hand_out<L: Sink>(
    alloc: Global,
    log: &mut Log<L>,
    request: &Request<Bytes>,
    response: &mut Response,
) -> bool
    ensures { IsHandedOut L.contents request.now response.old response.new log.old log.new result }
{
    if hands_out(request, response) {
        tell(alloc, log, request, response)
    } else {
        false
    }
}

fn tell<L: Sink>(
    alloc: Global,
    log: &mut Log<L>,
    request: &Request<Bytes>,
    response: &mut Response,
) -> bool
    requires { hands_out request.now response.old ≡ true }
    ensures { IsHandedOut L.contents request.now response.old response.new log.old log.new result }
{
    match lines_of(alloc, request, response) {
        Ok(found) => {
            tell_found(log, found, request, response);
            false
        }
        Err(AllocError) => {
            withhold(response);
            true
        }
    }
}

// The same, once the lines are found, if there are any.
fn tell_found<L: Sink>(
    log: &mut Log<L>,
    found: Option<String>,
    request: &Request<Bytes>,
    response: &mut Response,
)
    requires hands_out { hands_out request.now response.old ≡ true }
    requires told { AreFound request.now response.old (option_map string_bytes found) }
    ensures { IsHandedOut L.contents request.now response.old response.new log.old log.new false }
{
    match found {
        Some(lines) => tell_lines(log, lines.as_str(), response),
        None => withhold(response),
    }
}

fn tell_lines<L: Sink>(log: &mut Log<L>, lines: &str, response: &mut Response)
    ensures { TellsOrWithholds L.contents lines.now response.old response.new log.old log.new }
{
    let is_whole = append(log, lines);
    keep_or_withhold(is_whole, response);
}

fn keep_or_withhold(keeps: bool, response: &mut Response)
    ensures { IsKeptOr keeps response.old response.new }
{
    if !keeps {
        withhold(response);
    }
}

// Nothing is sent but 500.
fn withhold(response: &mut Response)
    ensures { IsWithheld response.new }
{
    response.clear();
    response.status = StatusCode::INTERNAL_SERVER_ERROR;
}
