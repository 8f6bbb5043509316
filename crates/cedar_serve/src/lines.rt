//! Cedar's own requests, a line each, from the texts of policies and entities on.
ghost use Rattle.std.specs.Prelude.{◌≡◌, OnOk};
ghost use Rattle.std.specs.Io.Buffered.{reader_remaining};
ghost use Rattle.cedar_service.specs.Decided.{IsAuthorized};
ghost use Rattle.cedar_service.specs.Loaded.{both_texts, IsLoadedOf, engine_of, loaded_ways};
ghost use Rattle.cedar_service.specs.Started.{IsNotStarted};
ghost use Rattle.cedar_service.specs.Ways.{ways_view};
ghost use Rattle.cedar_endpoints.specs.Lines.{AreAllAnswered, AreSomeAnswered};
ghost use Rattle.cedar_serve.specs.Connections.{AreAnsweredFrom, AreSomeAnsweredFrom, IfBroken, IfUnstarted};
ghost use Rattle.cedar_serve.specs.declared.serving.Stopped.TheVariants as stopped;

use crate::serving::{Stopped, Texts};
use cedar_endpoints::answer_lines;
use cedar_service::Loaded;
use std::alloc::Global;
use std::io::{BufReader, Read, Write};

/// Reads lines to the end, and writes after each the response to the request that it is, of the policies over the
/// entities that the texts say, or what is wrong with it; and nothing else. Where the texts are wrong nothing is read
/// and nothing written. Where the reader or the writer fails, the lines up to some line are answered, in their order, and
/// of the answer to the next one at most a first part is written.
pub fn answer_texts<R: Read + Drop, W: Write>(
    alloc: Global,
    texts: Texts<'_>,
    reader: &mut BufReader<R, Global>,
    writer: &mut W,
) -> Result<(), Stopped>
    ensures answered { OnOk result (AreAnsweredFrom texts.entry.policies.now texts.entry.entities.now
        (ways_view texts.entry.ways) (reader_remaining R.remaining reader.old) (W.contents writer.old)
        (W.contents writer.new)) }
    ensures broken { IfBroken (AreSomeAnsweredFrom texts.entry.policies.now texts.entry.entities.now
        (ways_view texts.entry.ways) (reader_remaining R.remaining reader.old) (W.contents writer.old)
        (W.contents writer.new)) result }
    ensures refused { IfUnstarted (IsNotStarted texts.entry.policies.now texts.entry.entities.now) result }
    ensures unread { IfUnstarted (λ e. reader.new ≡ reader.old) result }
    ensures unwritten { IfUnstarted (λ e. writer.new ≡ writer.old) result }
{
    match Loaded::of_texts(alloc, texts.policies, texts.entities, texts.ways) {
        Ok(loaded) => {
            let answered = answer_with(alloc, &loaded, reader, writer);
            drop(loaded);
            answered
        }
        Err(reason) => Err(Stopped::NotStarted(reason)),
    }
}

fn answer_with<R: Read + Drop, W: Write>(
    alloc: Global,
    loaded: &Loaded,
    reader: &mut BufReader<R, Global>,
    writer: &mut W,
) -> Result<(), Stopped>
    ensures answered { OnOk result (AreAllAnswered (IsAuthorized (engine_of loaded.now) (loaded_ways loaded.now))
        (reader_remaining R.remaining reader.old) (W.contents writer.old) (W.contents writer.new)) }
    ensures broken { IfBroken (AreSomeAnswered (IsAuthorized (engine_of loaded.now) (loaded_ways loaded.now))
        (reader_remaining R.remaining reader.old) (W.contents writer.old) (W.contents writer.new)) result }
    ensures started { IfUnstarted (λ e. ⊥) result }
{
    match answer_lines(alloc, loaded, reader, writer) {
        Ok(()) => Ok(()),
        Err(error) => Err(Stopped::Broken(error)),
    }
}
