//! One connection of a service with a log.
ghost use Rattle.std.specs.Prelude.{◌≡◌, ℕ, List, ◌++◌, OnOk};
ghost use Rattle.std.specs.Io.KnownBytes.{Appends, Consumes};
ghost use Rattle.http_server.specs.Connection.{config_of, history};
ghost use Rattle.http_server.specs.Exchange.{Call};
ghost use Rattle.http_server.specs.History.{IsDone, IsServed};
ghost use Rattle.cedar_log.specs.Logs.{AreLogged};

use crate::logged::Logged;
use crate::sinks::Sink;
use http_server::{Connection, Service, serve};
use std::io;
use std::io::{Read, Write};

/// Reads, answers and writes until the connection is done. Each request is answered as by the service without a log, once
/// the lines of the decisions in the answer stand in the log; where they can't, by 500 and no decision. After what the log
/// had stand the lines of what was handed out, in the order of the requests, and at most a first part of lines that could
/// not be appended whole. What was written is these answers. An error is that of the reader or the writer.
pub fn serve_logged<S: Service + Drop, L: Sink, R: Read, W: Write>(
    service: &mut Logged<S, L>,
    connection: &mut Connection,
    reader: &mut R,
    writer: &mut W,
) -> io::Result<()>
    ensures logged { (calls : List Call) × AreLogged S.answers L.contents service.old calls service.new
        × ((history connection.new).calls ≡ (history connection.old).calls ++ calls) }
    ensures sent { ∥ IsServed (config_of connection.new) (history connection.new) ∥₁ }
    ensures config { config_of connection.new ≡ config_of connection.old }
    ensures done { OnOk result (IsDone (history connection.new)) }
    ensures read { (more : List ℕ)
        × Consumes (R.remaining reader.old) (R.remaining reader.new) more
        × ((history connection.new).received ≡ (history connection.old).received ++ more) }
    ensures written { (more : List ℕ)
        × Appends (W.contents writer.old) (W.contents writer.new) more
        × ((history connection.new).sent ≡ (history connection.old).sent ++ more) }
{
    serve(connection, service, reader, writer)
}
