//! One connection, from the texts of policies and entities on.
ghost use Rattle.std.specs.Prelude.{◌≡◌, IfOk, IfErr, OnOk, option_map, string_bytes};
ghost use Rattle.std.specs.Io.KnownBytes.{Appends, Consumes};
ghost use Rattle.http_server.specs.Connection.{config_of, history};
ghost use Rattle.http_server.specs.History.{IsDone, new_history};
ghost use Rattle.cedar_service.specs.Loaded.{both_texts, IsLoadedOf};
ghost use Rattle.cedar_service.specs.Started.{IsNotStarted};
ghost use Rattle.cedar_service.specs.Ways.{ways_of, ways_view};
ghost use Rattle.cedar_serve.specs.Connections.{IsServedBy, IsServedFrom, IfServed, IfUnstarted};
ghost use Rattle.cedar_serve.specs.Metadata.{metadata_text};
ghost use Rattle.cedar_serve.specs.declared.serving.Stopped.TheVariants as stopped;

use crate::arguments::Options;
use crate::metadata::metadata_of;
use cedar_endpoints::Decisions;
use cedar_service::{Loaded, NotStarted, Ways, serve_decisions};
use http_server::{Config, Connection, State};
use std::alloc::{AllocError, Global};
use std::hash::RandomState;
use std::io;
use std::io::{Read, Write};

/// What decides, as texts, and what is told of it.
#[derive(Clone, Copy)]
pub struct Texts<'a> {
    /// The policies, in Cedar's text.
    pub policies: &'a str,
    /// The entities, in Cedar's JSON.
    pub entities: &'a str,
    /// Where the service is on the network, if that is to be told.
    pub url: Option<&'a str>,
    /// How many a page of a search has at most.
    pub page: usize,
    /// Whether other policies and entities are taken in place of these.
    pub allows_reload: bool,
    /// How requests are taken.
    pub ways: Ways<'a>,
}

/// What is served as the options say, over the texts of the files that they name and by the type of actions.
pub(crate) fn texts_of<'a>(
    options: &Options<'a>,
    policies: &'a str,
    entities: &'a str,
    action_type: &'a str,
) -> Texts<'a>
    ensures policies { result.policies.now ≡ policies.now }
    ensures entities { result.entities.now ≡ entities.now }
    ensures url { option_map (λ u. u.now) result.url ≡ option_map (λ u. u.now) options.now.url }
    ensures page { result.page ≡ options.now.page }
    ensures reload { result.allows_reload ≡ options.now.allows_reload }
    ensures ways { ways_view result.ways
        ≡ ways_of options.now.properties options.now.brought options.now.bounds action_type.now }
{
    Texts {
        policies,
        entities,
        url: options.url,
        page: options.page,
        allows_reload: options.allows_reload,
        ways: Ways {
            properties: options.properties,
            entities: options.brought,
            bounds: options.bounds,
            action_type,
        },
    }
}

/// Why a connection was not served to its end.
#[derive(Debug, Drop)]
pub enum Stopped {
    /// Of the texts no engine is made. Nothing was read or written.
    NotStarted(NotStarted),
    /// The reader or the writer failed.
    Broken(io::Error),
}

impl From<io::Error> for Stopped {
    ghost from_gives = { λ e result. result ≡ stopped.Broken e };

    fn from(error: io::Error) -> Stopped {
        Stopped::Broken(error)
    }
}

/// Reads, answers and writes until the connection is done, and answers how it ended. What is written is the answers
/// that are due to the requests read, in their order: where a request asks for a decision, that of the policies and the
/// entities that the texts say, or those that a request put in their place, if that is allowed. Where the texts are
/// wrong nothing is read and nothing written. `keys` keeps strangers from choosing header fields that collide.
pub fn serve_texts<R: Read, W: Write>(
    alloc: Global,
    keys: RandomState,
    config: Config,
    texts: Texts<'_>,
    reader: &mut R,
    writer: &mut W,
) -> Result<State, Stopped>
    ensures served { IfServed (λ h.
        IsServedFrom texts.entry.policies.now texts.entry.entities.now (option_map (λ u. u.now) texts.entry.url)
        texts.entry.page texts.entry.allows_reload (ways_view texts.entry.ways) config h
        × Consumes (R.remaining reader.old) (R.remaining reader.new) h.received
        × Appends (W.contents writer.old) (W.contents writer.new) h.sent) result }
    ensures refused { IfUnstarted (IsNotStarted texts.entry.policies.now texts.entry.entities.now) result }
    ensures unread { IfUnstarted (λ e. reader.new ≡ reader.old) result }
    ensures unwritten { IfUnstarted (λ e. writer.new ≡ writer.old) result }
{
    match service_of(alloc, texts) {
        Ok(service) => serve_with(alloc, keys, config, service, reader, writer),
        Err(reason) => Err(Stopped::NotStarted(reason)),
    }
}

/// The service of the engine that the texts make.
pub(crate) fn service_of(alloc: Global, texts: Texts<'_>) -> Result<Decisions<Loaded>, NotStarted>
    ensures engine { IfOk result (λ s.
        IsLoadedOf (both_texts texts.entry.policies.now texts.entry.entities.now (ways_view texts.entry.ways)) s.decider) }
    ensures metadata { IfOk result (λ s.
        option_map string_bytes s.metadata ≡ option_map metadata_text (option_map (λ u. u.now) texts.entry.url)) }
    ensures page { IfOk result (λ s. s.page ≡ texts.entry.page) }
    ensures reload { IfOk result (λ s. s.allows_reload ≡ texts.entry.allows_reload) }
    ensures evaluations { IfOk result (λ s. s.max_evaluations ≡ texts.entry.ways.bounds.evaluations) }
    ensures refused { IfErr result (IsNotStarted texts.entry.policies.now texts.entry.entities.now) }
{
    match Loaded::of_texts(alloc, texts.policies, texts.entities, texts.ways) {
        Ok(loaded) => with_metadata(
            alloc,
            loaded,
            texts.url,
            texts.page,
            texts.allows_reload,
            texts.ways.bounds.evaluations,
        ),
        Err(reason) => Err(reason),
    }
}

fn with_metadata(
    alloc: Global,
    loaded: Loaded,
    url: Option<&str>,
    page: usize,
    allows_reload: bool,
    max_evaluations: usize,
) -> Result<Decisions<Loaded>, NotStarted>
    ensures engine { IfOk result (λ s. s.decider ≡ loaded) }
    ensures metadata { IfOk result (λ s.
        option_map string_bytes s.metadata ≡ option_map metadata_text (option_map (λ u. u.now) url.entry)) }
    ensures page { IfOk result (λ s. s.page ≡ page) }
    ensures reload { IfOk result (λ s. s.allows_reload ≡ allows_reload) }
    ensures evaluations { IfOk result (λ s. s.max_evaluations ≡ max_evaluations) }
    ensures memory { IfErr result (λ e. e ≡ NotStarted.Memory) }
{
    match metadata_of(alloc, url) {
        Ok(metadata) => Ok(Decisions {
            alloc,
            decider: loaded,
            metadata,
            page,
            allows_reload,
            max_evaluations,
        }),
        Err(AllocError) => {
            drop(loaded);
            Err(NotStarted::Memory)
        }
    }
}

fn serve_with<R: Read, W: Write>(
    alloc: Global,
    keys: RandomState,
    config: Config,
    service: Decisions<Loaded>,
    reader: &mut R,
    writer: &mut W,
) -> Result<State, Stopped>
    ensures served { IfServed (λ h. IsServedBy service config h
        × Consumes (R.remaining reader.old) (R.remaining reader.new) h.received
        × Appends (W.contents writer.old) (W.contents writer.new) h.sent) result }
    ensures started { IfUnstarted (λ e. ⊥) result }
{
    let mut connection = Connection::new(alloc, keys, config);
    let mut service = service;
    let ended = serve_fresh(&mut service, &mut connection, reader, writer);
    let state = connection.state();
    drop(connection);
    drop(service);
    match ended {
        Ok(()) => Ok(state),
        Err(error) => Err(Stopped::Broken(error)),
    }
}

// The same over a connection on which nothing came yet.
fn serve_fresh<R: Read, W: Write>(
    service: &mut Decisions<Loaded>,
    connection: &mut Connection,
    reader: &mut R,
    writer: &mut W,
) -> io::Result<()>
    requires { history connection.now ≡ new_history }
    ensures served { IsServedBy service.old (config_of connection.old) (history connection.new) }
    ensures done { OnOk result (IsDone (history connection.new)) }
    ensures read { Consumes (R.remaining reader.old) (R.remaining reader.new) (history connection.new).received }
    ensures written { Appends (W.contents writer.old) (W.contents writer.new) (history connection.new).sent }
{
    serve_decisions(service, connection, reader, writer)
}
