//! One connection with a log, from the texts of policies and entities on.
ghost use Rattle.std.specs.Prelude.{◌≡◌, false, OnOk, option_map};
ghost use Rattle.std.specs.Io.KnownBytes.{Appends, Consumes};
ghost use Rattle.http_server.specs.Connection.{config_of, history};
ghost use Rattle.http_server.specs.History.{IsDone, new_history};
ghost use Rattle.cedar_service.specs.Started.{IsNotStarted};
ghost use Rattle.cedar_service.specs.Ways.{ways_view};
ghost use Rattle.cedar_serve.specs.Connections.{IfServed, IfUnstarted};
ghost use Rattle.cedar_serve.specs.Logged.{IsLoggedBy, IsLoggedFrom, IsOfMemory, IsOutOfMemory};

use crate::serving::{Stopped, Texts, service_of};
use cedar_endpoints::Decisions;
use cedar_log::{Log, Logged, Sink, serve_logged};
use cedar_service::Loaded;
use http_server::{Config, Connection, State};
use std::alloc::Global;
use std::hash::RandomState;
use std::io;
use std::io::{ErrorKind, Read, Write};

/// Serves as `serve_texts` does, and appends a line to the log for each decision before the answer with it is handed out.
/// Where it can't be appended whole, 500 is answered and no decision, and so from then on; so also to a decision for which
/// memory ran out before its line was made, and then the connection ends with that as its error. Gives the log back.
pub fn log_texts<R: Read, W: Write, L: Sink>(
    alloc: Global,
    keys: RandomState,
    config: Config,
    texts: Texts<'_>,
    log: L,
    reader: &mut R,
    writer: &mut W,
) -> (L, Result<State, Stopped>)
    ensures served { IfServed (λ h.
        IsLoggedFrom texts.entry.policies.now texts.entry.entities.now (option_map (λ u. u.now) texts.entry.url)
        texts.entry.page texts.entry.allows_reload (ways_view texts.entry.ways) config (IsOutOfMemory result.1)
        (L.contents log) (L.contents result.0) h
        × Consumes (R.remaining reader.old) (R.remaining reader.new) h.received
        × Appends (W.contents writer.old) (W.contents writer.new) h.sent) result.1 }
    ensures refused { IfUnstarted (IsNotStarted texts.entry.policies.now texts.entry.entities.now) result.1 }
    ensures unread { IfUnstarted (λ e. reader.new ≡ reader.old) result.1 }
    ensures unwritten { IfUnstarted (λ e. writer.new ≡ writer.old) result.1 }
    ensures unlogged { IfUnstarted (λ e. result.0 ≡ log) result.1 }
{
    match service_of(alloc, texts) {
        Ok(service) => log_with(alloc, keys, config, service, log, reader, writer),
        Err(reason) => (log, Err(Stopped::NotStarted(reason))),
    }
}

fn log_with<R: Read, W: Write, L: Sink>(
    alloc: Global,
    keys: RandomState,
    config: Config,
    service: Decisions<Loaded>,
    log: L,
    reader: &mut R,
    writer: &mut W,
) -> (L, Result<State, Stopped>)
    ensures served { IfServed (λ h.
        IsLoggedBy service config (IsOutOfMemory result.1) (L.contents log) (L.contents result.0) h
        × Consumes (R.remaining reader.old) (R.remaining reader.new) h.received
        × Appends (W.contents writer.old) (W.contents writer.new) h.sent) result.1 }
    ensures started { IfUnstarted (λ e. ⊥) result.1 }
{
    let mut connection = Connection::new(alloc, keys, config);
    let mut logged = Logged {
        alloc,
        service,
        log: Log::new(log),
        lacked_memory: false,
    };
    let ended = log_fresh(&mut logged, &mut connection, reader, writer);
    let state = connection.state();
    drop(connection);
    let log = log_of(logged);
    match ended {
        Ok(()) => (log, Ok(state)),
        Err(error) => (log, Err(Stopped::Broken(error))),
    }
}

fn log_of<L: Sink>(logged: Logged<Decisions<Loaded>, L>) -> L
    ensures { result ≡ logged.log.sink }
{
    let Logged { service, log, .. } = logged;
    drop(service);
    let Log { sink, .. } = log;
    sink
}

// The same over a connection on which nothing came yet, to a log of which nothing was lost. That memory ran out before a
// line was made is an error too.
fn log_fresh<R: Read, W: Write, L: Sink>(
    service: &mut Logged<Decisions<Loaded>, L>,
    connection: &mut Connection,
    reader: &mut R,
    writer: &mut W,
) -> io::Result<()>
    requires fresh { history connection.now ≡ new_history }
    requires whole { service.now.log.is_broken ≡ false }
    ensures served { IsLoggedBy service.old.service (config_of connection.old) (IsOfMemory result)
        (L.contents service.old.log.sink) (L.contents service.new.log.sink) (history connection.new) }
    ensures done { OnOk result (IsDone (history connection.new)) }
    ensures read { Consumes (R.remaining reader.old) (R.remaining reader.new) (history connection.new).received }
    ensures written { Appends (W.contents writer.old) (W.contents writer.new) (history connection.new).sent }
{
    let ended = serve_logged(service, connection, reader, writer);
    if service.lacked_memory {
        drop(ended);
        return Err(ErrorKind::OutOfMemory.into());
    }
    ended
}
