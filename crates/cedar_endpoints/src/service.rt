#![tactic(auto, using(crate::proofs::Texts::texts, crate::proofs::Changed::changed, crate::proofs::Untold::untold))]
//! The service.
ghost use Rattle.std.specs.Prelude.{◌≡◌, Some, None, IfOk, OnOk, OnErr, option_map, string_bytes};
ghost use Rattle.http_server.specs.Response.{IsBlank};
ghost use Rattle.cedar_endpoints.specs.Asked.{fault_view};
ghost use Rattle.json.specs.Tree.{HasNumbers};
ghost use Rattle.json.specs.Value.{value_view};
ghost use Rattle.cedar_endpoints.specs.Documents.{IsRepliedTo, IsReplyUnread, whole};
ghost use Rattle.cedar_endpoints.specs.Found.{finder_of};
ghost use Rattle.cedar_endpoints.specs.Answers.{IsSent};
ghost use Rattle.cedar_endpoints.specs.Answered.{IsAnswered, IsTakenSent, IsUntakenSent};
ghost use Rattle.cedar_endpoints.specs.Reloads.{replaced_by};
ghost use Rattle.cedar_endpoints.specs.Served.{reloads_of, asked_route, request_id};
ghost use Rattle.cedar_endpoints.specs.Served.{offered, IsEvaluated, IsAskedAs, IsMetadata, IsReply, IsServed};

use crate::answers::{Status, send};
use crate::asked::{Fault, read_evaluation};
use crate::authorized::authorize;
use crate::decider::Decider;
use crate::documents::{Unread, parse_json};
use crate::evaluations::{decide_said, evaluate_all};
use crate::found::search_value;
use crate::partials::answer_partly;
use crate::reloads::{
    Untaken, nothing_here, put_alone, remake, replaced_by, taken_text, unreplaced,
};
use crate::replies::{Reply, faulty, plain};
use crate::routes::{Replaced, Route, route_of};
use crate::searches::Sought;
use bytes::Bytes;
use http::Request;
use http_server::{Response, Service};
use json::{Scratch, Value};
use std::alloc::{AllocError, Global};

// What a document may ask.
#[derive(Clone, Copy)]
pub(crate) enum Asks {
    // One evaluation.
    One,
    // One, or a list of several.
    Several,
    // A part of one, which is searched for.
    Part(Sought),
    // Cedar's own request, of which parts may be unknown.
    Partly,
}

/// A service that asks one decider.
#[derive(Drop)]
pub struct Decisions<D: Decider> {
    pub alloc: Global,
    pub decider: D,
    /// AuthZEN's metadata, as JSON; where there are none, that endpoint is not there.
    pub metadata: Option<String>,
    /// How many a page has at most. With 0 a page is empty, and the next one begins where it does.
    pub page: usize,
    /// Whether other policies and entities are taken in place of these.
    pub allows_reload: bool,
    /// How many evaluations one document may ask; more are answered with 413.
    pub max_evaluations: usize,
}

/// Each request is answered by what is due to it alone, and the service stays as it is, but where a request replaces
/// the policies or the entities and may.
impl<D: Decider> Service for Decisions<D> {
    ghost answers = { λ before request response after. IsAnswered (offered
        (D.decides before.decider) (D.authorizes before.decider) (D.leaves before.decider)
        (finder_of (D.finds before.decider) (D.version before.decider) (D.count before.decider)
        before.page)
        (reloads_of before.allows_reload (D.refuses before.decider))
        (option_map string_bytes before.metadata) before.max_evaluations)
        (D.remakes before.decider) D.version request response before after };

    fn call(
        &mut self,
        request: &Request<Bytes>,
        response: &mut Response,
    ) -> Result<(), AllocError> {
        let route = asked_route(request);
        match replaced_by(self.allows_reload, route) {
            Some(replaced) => reload(self, replaced, request, response),
            None => respond(self, route, request, response),
        }
    }
}

// Which endpoint the request names.
fn asked_route(request: &Request<Bytes>) -> Route
    ensures { result ≡ asked_route request.now }
{
    route_of(request.method().as_str(), request.uri().path())
}

fn respond<D: Decider>(
    service: &Decisions<D>,
    route: Route,
    request: &Request<Bytes>,
    response: &mut Response,
) -> Result<(), AllocError>
    requires blank { IsBlank response.old }
    requires route { route ≡ asked_route request.now }
    requires stays { replaced_by service.now.allows_reload route ≡ None }
    ensures { OnOk result (IsServed (offered
        (D.decides service.now.decider) (D.authorizes service.now.decider) (D.leaves service.now.decider)
        (finder_of (D.finds service.now.decider) (D.version service.now.decider) (D.count service.now.decider)
        service.now.page)
        (reloads_of service.now.allows_reload (D.refuses service.now.decider))
        (option_map string_bytes service.now.metadata) service.now.max_evaluations) request.now response.new) }
{
    let reply = reply(service, route, request.body().as_slice())?;
    let version = service.decider.version_text();
    send_to(
        service.alloc,
        reply.status,
        version,
        request,
        reply.body.as_str(),
        response,
    )
}

// Sends it with the request's id.
fn send_to(
    alloc: Global,
    status: Status,
    version: &str,
    request: &Request<Bytes>,
    body: &str,
    response: &mut Response,
) -> Result<(), AllocError>
    requires { IsBlank response.old }
    ensures { OnOk result (IsSent status version.now (request_id request.now) body.now response.new) }
{
    let id = request.headers().get("x-request-id");
    send(alloc, status, version, id, body, response)
}

// ---- other policies and entities

fn reload<D: Decider>(
    service: &mut Decisions<D>,
    replaced: Replaced,
    request: &Request<Bytes>,
    response: &mut Response,
) -> Result<(), AllocError>
    requires blank { IsBlank response.old }
    requires asked { replaced_by service.old.allows_reload (asked_route request.now) ≡ Some replaced }
    ensures ok { OnOk result (IsAnswered (offered
        (D.decides service.old.decider) (D.authorizes service.old.decider) (D.leaves service.old.decider)
        (finder_of (D.finds service.old.decider) (D.version service.old.decider) (D.count service.old.decider)
        service.old.page)
        (reloads_of service.old.allows_reload (D.refuses service.old.decider))
        (option_map string_bytes service.old.metadata) service.old.max_evaluations)
        (D.remakes service.old.decider) D.version request.now response.new service.old service.new) }
    ensures err { OnErr result (service.new ≡ service.old) }
{
    match remake(
        service.alloc,
        &service.decider,
        replaced,
        request.body().as_slice(),
    ) {
        Ok(made) => take(service, made, request, response),
        Err(untaken) => keep(service, untaken, request, response),
    }
}

// It decides as what was made.
fn take<D: Decider>(
    service: &mut Decisions<D>,
    made: D,
    request: &Request<Bytes>,
    response: &mut Response,
) -> Result<(), AllocError>
    requires { IsBlank response.old }
    ensures taken { OnOk result (service.new ≡ record service.old { decider = made }) }
    ensures sent { OnOk result (IsTakenSent (D.version made) request.now response.new) }
    ensures err { OnErr result (service.new ≡ service.old) }
{
    match send_taken(service.alloc, &made, request, response) {
        Ok(()) => {
            service.decider = made;
            Ok(())
        }
        Err(AllocError) => {
            drop(made);
            Err(AllocError)
        }
    }
}

fn send_taken<D: Decider>(
    alloc: Global,
    made: &D,
    request: &Request<Bytes>,
    response: &mut Response,
) -> Result<(), AllocError>
    requires { IsBlank response.old }
    ensures { OnOk result (IsTakenSent (D.version made.now) request.now response.new) }
{
    let version = made.version_text();
    let body = taken_text(alloc, version)?;
    send_to(alloc, Status::Ok, version, request, body.as_str(), response)
}

// It stays as it is, and why is sent.
fn keep<D: Decider>(
    service: &Decisions<D>,
    untaken: Untaken,
    request: &Request<Bytes>,
    response: &mut Response,
) -> Result<(), AllocError>
    requires { IsBlank response.old }
    ensures { OnOk result (IsUntakenSent (D.version service.now.decider) untaken request.now response.new) }
{
    match untaken {
        Untaken::Memory => Err(AllocError),
        Untaken::Replied(reply) => {
            let version = service.decider.version_text();
            send_to(
                service.alloc,
                reply.status,
                version,
                request,
                reply.body.as_str(),
                response,
            )
        }
    }
}

// ---- what is replied

fn reply<D: Decider>(service: &Decisions<D>, route: Route, body: &[u8]) -> Result<Reply, AllocError>
    requires { replaced_by service.now.allows_reload route ≡ None }
    ensures { IfOk result (IsReply (offered
        (D.decides service.now.decider) (D.authorizes service.now.decider) (D.leaves service.now.decider)
        (finder_of (D.finds service.now.decider) (D.version service.now.decider) (D.count service.now.decider)
        service.now.page)
        (reloads_of service.now.allows_reload (D.refuses service.now.decider))
        (option_map string_bytes service.now.metadata) service.now.max_evaluations) route body.now) }
{
    let alloc = service.alloc;
    match route {
        Route::Evaluation => ask(service, Asks::One, body),
        Route::Evaluations => ask(service, Asks::Several, body),
        Route::Search(sought) => ask(service, Asks::Part(sought), body),
        Route::Authorize => authorize(alloc, &service.decider, body),
        Route::PartiallyAuthorize => ask(service, Asks::Partly, body),
        Route::Reload(replaced) => unreplaced(alloc, service.allows_reload, replaced),
        Route::Health => plain(alloc, "{\"status\":\"ok\"}"),
        Route::Metadata => metadata(alloc, &service.metadata),
        Route::PostOnly => faulty(alloc, Status::PostOnly, whole("there is POST alone")),
        Route::GetOnly => faulty(
            alloc,
            Status::GetOnly,
            whole("there are GET and HEAD alone"),
        ),
        Route::PutOnly => put_alone(alloc, service.allows_reload),
        Route::Unknown => nothing_here(alloc),
    }
}

pub(crate) fn whole(reason: &'static str) -> Fault
    ensures { fault_view result ≡ whole reason.now }
{
    Fault {
        part: "",
        member: "",
        reason,
    }
}

fn metadata(alloc: Global, metadata: &Option<String>) -> Result<Reply, AllocError>
    ensures { IfOk result (IsMetadata (option_map string_bytes metadata.now)) }
{
    match metadata {
        Some(text) => plain(alloc, text.as_str()),
        None => nothing_here(alloc),
    }
}

// ---- AuthZEN's documents

fn ask<D: Decider>(service: &Decisions<D>, asks: Asks, body: &[u8]) -> Result<Reply, AllocError>
    ensures { IfOk result (IsRepliedTo (IsAskedAs asks (offered
        (D.decides service.now.decider) (D.authorizes service.now.decider) (D.leaves service.now.decider)
        (finder_of (D.finds service.now.decider) (D.version service.now.decider) (D.count service.now.decider)
        service.now.page)
        (reloads_of service.now.allows_reload (D.refuses service.now.decider))
        (option_map string_bytes service.now.metadata) service.now.max_evaluations) body.now) body.now) }
{
    match str::from_utf8(body) {
        Ok(text) => ask_text(service, asks, text),
        Err(_) => faulty(service.alloc, Status::BadRequest, whole("not UTF-8")),
    }
}

fn ask_text<D: Decider>(service: &Decisions<D>, asks: Asks, text: &str) -> Result<Reply, AllocError>
    ensures { IfOk result (IsRepliedTo (IsAskedAs asks (offered
        (D.decides service.now.decider) (D.authorizes service.now.decider) (D.leaves service.now.decider)
        (finder_of (D.finds service.now.decider) (D.version service.now.decider) (D.count service.now.decider)
        service.now.page)
        (reloads_of service.now.allows_reload (D.refuses service.now.decider))
        (option_map string_bytes service.now.metadata) service.now.max_evaluations) text.now) text.now) }
{
    let alloc = service.alloc;
    let mut scratch = Scratch::new(alloc);
    match parse_json(alloc, text, &mut scratch) {
        Ok(value) => ask_value(service, asks, text, &value),
        Err(unread) => reply_unread(alloc, unread),
    }
}

fn reply_unread(alloc: Global, unread: Unread) -> Result<Reply, AllocError>
    ensures { IfOk result (IsReplyUnread unread) }
{
    match unread {
        Unread::Syntax => faulty(alloc, Status::BadRequest, whole("not JSON")),
        Unread::DuplicateKey => {
            faulty(
                alloc,
                Status::BadRequest,
                whole("a key comes twice in an object"),
            )
        }
        Unread::Memory => Err(AllocError),
    }
}

fn ask_value<D: Decider>(
    service: &Decisions<D>,
    asks: Asks,
    text: &str,
    value: &Value<'_>,
) -> Result<Reply, AllocError>
    requires { HasNumbers (value_view value.now) }
    ensures { IfOk result (IsAskedAs asks (offered
        (D.decides service.now.decider) (D.authorizes service.now.decider) (D.leaves service.now.decider)
        (finder_of (D.finds service.now.decider) (D.version service.now.decider) (D.count service.now.decider)
        service.now.page)
        (reloads_of service.now.allows_reload (D.refuses service.now.decider))
        (option_map string_bytes service.now.metadata) service.now.max_evaluations) text.now (value_view value.now)) }
{
    let alloc = service.alloc;
    match asks {
        Asks::One => evaluate_one(alloc, &service.decider, value),
        Asks::Several => evaluate_all(alloc, &service.decider, service.max_evaluations, value),
        Asks::Part(sought) => search_value(alloc, &service.decider, service.page, sought, value),
        Asks::Partly => answer_partly(alloc, &service.decider, text, value),
    }
}

fn evaluate_one<D: Decider>(
    alloc: Global,
    decider: &D,
    value: &Value<'_>,
) -> Result<Reply, AllocError>
    ensures { IfOk result (IsEvaluated (D.decides decider.now) (value_view value.now)) }
{
    decide_said(alloc, decider, read_evaluation(value))
}
