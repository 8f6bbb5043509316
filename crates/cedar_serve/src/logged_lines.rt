//! Cedar's own requests, a line each, with a log, from the texts of policies and entities on.
ghost use Rattle.std.specs.Prelude.{◌≡◌, OnOk};
ghost use Rattle.std.specs.Io.Buffered.{reader_remaining};
ghost use Rattle.cedar_logged_lines.specs.Lines.{AreAllLogged, AreSomeLogged};
ghost use Rattle.cedar_service.specs.Decided.{IsAuthorized};
ghost use Rattle.cedar_service.specs.Loaded.{both_texts, IsLoadedOf, engine_of, loaded_ways};
ghost use Rattle.cedar_service.specs.Serving.{loaded_version};
ghost use Rattle.cedar_service.specs.Started.{IsNotStarted};
ghost use Rattle.cedar_service.specs.Ways.{ways_view};
ghost use Rattle.cedar_serve.specs.Connections.{IfBroken, IfUnstarted};
ghost use Rattle.cedar_serve.specs.Logged.{AreLoggedFrom, AreSomeLoggedFrom};

use crate::serving::{Stopped, Texts};
use cedar_log::{Log, Sink};
use cedar_logged_lines::answer_logged_lines;
use cedar_service::Loaded;
use std::alloc::Global;
use std::io::{BufReader, Read, Write};

/// Answers as `answer_texts` does, and appends a line to the log for each decision before its answer is written. Where
/// that can't be appended whole, or the reader or the writer fails, the lines up to some line are answered and told, in
/// their order; of the next one at most a first part of its line stands in the log and nothing of its answer is written,
/// or its line stands there whole and at most a first part of its answer is written. Gives the log back.
pub fn log_answers<R: Read + Drop, W: Write, L: Sink>(
    alloc: Global,
    texts: Texts<'_>,
    log: L,
    reader: &mut BufReader<R, Global>,
    writer: &mut W,
) -> (L, Result<(), Stopped>)
    ensures answered { OnOk result.1 (AreLoggedFrom texts.entry.policies.now texts.entry.entities.now
        (ways_view texts.entry.ways) (reader_remaining R.remaining reader.old) (W.contents writer.old)
        (W.contents writer.new) (L.contents log) (L.contents result.0)) }
    ensures broken { IfBroken (AreSomeLoggedFrom texts.entry.policies.now texts.entry.entities.now
        (ways_view texts.entry.ways) (reader_remaining R.remaining reader.old) (W.contents writer.old)
        (W.contents writer.new) (L.contents log) (L.contents result.0)) result.1 }
    ensures refused { IfUnstarted (IsNotStarted texts.entry.policies.now texts.entry.entities.now) result.1 }
    ensures unread { IfUnstarted (λ e. reader.new ≡ reader.old) result.1 }
    ensures unwritten { IfUnstarted (λ e. writer.new ≡ writer.old) result.1 }
    ensures unlogged { IfUnstarted (λ e. result.0 ≡ log) result.1 }
{
    match Loaded::of_texts(alloc, texts.policies, texts.entities, texts.ways) {
        Ok(loaded) => log_loaded(alloc, loaded, log, reader, writer),
        Err(reason) => (log, Err(Stopped::NotStarted(reason))),
    }
}

fn log_loaded<R: Read + Drop, W: Write, L: Sink>(
    alloc: Global,
    loaded: Loaded,
    log: L,
    reader: &mut BufReader<R, Global>,
    writer: &mut W,
) -> (L, Result<(), Stopped>)
    ensures answered { OnOk result.1 (AreAllLogged (IsAuthorized (engine_of loaded) (loaded_ways loaded))
        (loaded_version loaded) (reader_remaining R.remaining reader.old) (W.contents writer.old) (W.contents writer.new)
        (L.contents log) (L.contents result.0)) }
    ensures broken { IfBroken (AreSomeLogged (IsAuthorized (engine_of loaded) (loaded_ways loaded))
        (loaded_version loaded) (reader_remaining R.remaining reader.old) (W.contents writer.old) (W.contents writer.new)
        (L.contents log) (L.contents result.0)) result.1 }
    ensures started { IfUnstarted (λ e. ⊥) result.1 }
{
    let mut log = Log::new(log);
    let answered = answer_logged_lines(alloc, &loaded, &mut log, reader, writer);
    drop(loaded);
    let Log { sink: log, .. } = log;
    match answered {
        Ok(()) => (log, Ok(())),
        Err(error) => (log, Err(Stopped::Broken(error))),
    }
}
