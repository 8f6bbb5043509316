//! Lines up to the end.
ghost use Rattle.std.specs.Prelude.{◌≡◌, IfOk, OnOk, OnErr, string_bytes};
ghost use Rattle.std.specs.Io.Buffered.{reader_remaining};
ghost use Rattle.std.specs.Io.KnownBytes.{Appends, Keeps};
ghost use Rattle.cedar_logged_lines.specs.Lines.{AreAllLogged, AreSomeLogged, IsCutShort, IsLoggedStep, IsHandedInPart};
ghost use Rattle.cedar_logged_lines.specs.Lines.{WritesAnswer, WritesPart};

use crate::answers::{Answer, answer_to};
use cedar_endpoints::Decider;
use cedar_log::{Log, Sink, append};
use cedar_writes::write_whole;
use std::alloc::Global;
use std::io;
use std::io::{BufRead, BufReader, ErrorKind, Read, Write};

/// Reads lines to the end, and writes after each the response to the request that it is, as `answer_lines` of
/// `cedar_endpoints` does; but before that the line of each decision is appended to the log. An error is that of the
/// reader or the writer, that something could not be appended to the log whole, or that memory ran out. Then the lines up
/// to some line are answered and told, in their order, and of the next one at most a first part of what is told of it
/// stands in the log, and nothing of its answer is written; or that stands there whole, and a first part is.
pub fn answer_logged_lines<D: Decider, R: Read + Drop, W: Write, L: Sink>(
    alloc: Global,
    decider: &D,
    log: &mut Log<L>,
    reader: &mut BufReader<R, Global>,
    writer: &mut W,
) -> io::Result<()>
    ensures all { OnOk result (AreAllLogged (D.authorizes decider.now) (D.version decider.now)
        (reader_remaining R.remaining reader.old) (W.contents writer.old) (W.contents writer.new)
        (L.contents log.old.sink) (L.contents log.new.sink)) }
    ensures some { OnErr result (AreSomeLogged (D.authorizes decider.now) (D.version decider.now)
        (reader_remaining R.remaining reader.old) (W.contents writer.old) (W.contents writer.new)
        (L.contents log.old.sink) (L.contents log.new.sink)) }
{
    'lines: for _ in 0..u64::MAX {
        match answer_line(alloc, decider, log, reader, writer) {
            Ok(more) => {
                if !more {
                    return writer.flush();
                }
            }
            Err(error) => return Err(error),
        }
    }
    Err(ErrorKind::TimedOut.into())
}

// Whether there was a line.
#[tactic(auto, using(crate::proofs::Lined::kept_cut))]
fn answer_line<D: Decider, R: Read + Drop, W: Write, L: Sink>(
    alloc: Global,
    decider: &D,
    log: &mut Log<L>,
    reader: &mut BufReader<R, Global>,
    writer: &mut W,
) -> io::Result<bool>
    ensures step { IfOk result (λ more. IsLoggedStep (D.authorizes decider.now) (D.version decider.now)
        (reader_remaining R.remaining reader.old) (W.contents writer.old) (L.contents log.old.sink) more
        (reader_remaining R.remaining reader.new) (W.contents writer.new) (L.contents log.new.sink)) }
    ensures cut { OnErr result (IsCutShort (D.authorizes decider.now) (D.version decider.now)
        (reader_remaining R.remaining reader.old) (W.contents writer.old) (W.contents writer.new)
        (L.contents log.old.sink) (L.contents log.new.sink)) }
{
    flush_before(reader.buffer(), writer)?;
    let mut line: Vec<u8> = Vec::new(alloc);
    let count = reader.read_until(b'\n', &mut line)?;
    if count == 0 {
        return Ok(false);
    }
    match write_answer(alloc, decider, log, line.as_slice(), writer) {
        Ok(()) => Ok(true),
        Err(error) => Err(error),
    }
}

// What is written goes out, unless a whole line is here already.
fn flush_before<W: Write>(buffered: &[u8], writer: &mut W) -> io::Result<()>
    ensures { Keeps (W.contents writer.old) (W.contents writer.new) }
{
    if buffered.contains(&b'\n') {
        Ok(())
    } else {
        writer.flush()
    }
}

fn write_answer<D: Decider, W: Write, L: Sink>(
    alloc: Global,
    decider: &D,
    log: &mut Log<L>,
    line: &[u8],
    writer: &mut W,
) -> io::Result<()>
    ensures whole { OnOk result (WritesAnswer (D.authorizes decider.now) (D.version decider.now) line.now
        (L.contents log.old.sink) (L.contents log.new.sink)
        (W.contents writer.old) (W.contents writer.new)) }
    ensures part { OnErr result (WritesPart (D.authorizes decider.now) (D.version decider.now) line.now
        (L.contents log.old.sink) (L.contents log.new.sink)
        (W.contents writer.old) (W.contents writer.new)) }
{
    match answer_to(alloc, decider, line) {
        Ok(answer) => hand_over(log, &answer, writer),
        Err(error) => Err(error),
    }
}

// What is told is appended before the answer is written.
fn hand_over<W: Write, L: Sink>(log: &mut Log<L>, answer: &Answer, writer: &mut W) -> io::Result<()>
    ensures told { OnOk result
        (Appends (L.contents log.old.sink) (L.contents log.new.sink) (string_bytes answer.now.told)) }
    ensures written { OnOk result
        (Appends (W.contents writer.old) (W.contents writer.new) (string_bytes answer.now.answer)) }
    ensures part { OnErr result (IsHandedInPart (string_bytes answer.now.told) (string_bytes answer.now.answer)
        (L.contents log.old.sink) (L.contents log.new.sink) (W.contents writer.old) (W.contents writer.new)) }
{
    if append(log, answer.told.as_str()) {
        write_whole(writer, answer.answer.as_bytes())
    } else {
        Err(ErrorKind::WriteZero.into())
    }
}
