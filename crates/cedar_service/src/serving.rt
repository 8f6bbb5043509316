//! One connection.
ghost use Rattle.std.specs.Prelude.{◌≡◌, ℕ, List, ◌++◌, OnOk};
ghost use Rattle.std.specs.Io.KnownBytes.{Appends, Consumes};
ghost use Rattle.http_server.specs.Connection.{config_of, history};
ghost use Rattle.http_server.specs.Exchange.{Call};
ghost use Rattle.http_server.specs.History.{IsDone, IsServed};
ghost use Rattle.cedar_service.specs.Loaded.{Texts, IsLoadedOf};
ghost use Rattle.cedar_service.specs.Serving.{AreAnswered};

use crate::loaded::Loaded;
use cedar_endpoints::Decisions;
use http_server::{Connection, serve};
use std::io;
use std::io::{Read, Write};

/// Reads, answers and writes until the connection is done: each request is answered by what is due to it alone, which
/// is the decision of the engine where it asks for one. The engine is that of the texts which were last taken. What was
/// written is these answers, in the order of the requests. An error is that of the reader or the writer.
pub fn serve_decisions<R: Read, W: Write>(
    service: &mut Decisions<Loaded>,
    connection: &mut Connection,
    reader: &mut R,
    writer: &mut W,
) -> io::Result<()>
    ensures answered { (calls : List Call)
        × ((ts : Texts) → IsLoadedOf ts service.old.decider → AreAnswered ts service.old calls service.new)
        × ((history connection.new).calls ≡ (history connection.old).calls ++ calls) }
    ensures sent { ∥ IsServed (config_of connection.new) (history connection.new) ∥₁ }
    ensures config { config_of connection.new ≡ config_of connection.old }
    ensures done { OnOk result (IsDone (history connection.new)) }
    ensures read { (more : List ℕ)
        × Consumes (R.remaining reader.old) (R.remaining reader.new) more
        × ((history connection.new).received ≡ (history connection.old).received ++ more) }
    ensures written { (more : List ℕ)
        × Appends (W.contents writer.old) (W.contents writer.new) more
        × ((history connection.new).sent ≡ (history connection.old).sent ++ more) }
{
    serve(connection, service, reader, writer)
}
