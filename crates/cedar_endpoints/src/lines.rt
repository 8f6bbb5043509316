//! Cedar's own requests, a line each.
ghost use Rattle.std.specs.Prelude.{◌≡◌, ◌++◌, IfOk, OnOk, OnErr, codes, string_bytes};
ghost use Rattle.std.specs.Io.Buffered.{reader_remaining};
ghost use Rattle.std.specs.Io.KnownBytes.{Keeps};
ghost use Rattle.cedar_endpoints.specs.Lines.{AreAllAnswered, AreSomeAnswered, IsCutShort, IsLineStep, IsLineAnswer};
ghost use Rattle.cedar_endpoints.specs.Lines.{WritesAnswer, WritesPart};

use crate::authorized::authorize;
use crate::decider::Decider;
use crate::replies::Reply;
use cedar_writes::write_whole;
use std::alloc::{AllocError, Global};
use std::io;
use std::io::{BufRead, BufReader, ErrorKind, Read, Write};

/// Reads lines to the end, and writes after each the response to the request that it is, on one line, as
/// `/v1/authorize` answers it; or what is wrong with it, and then no decision. What is written is flushed before more
/// is waited for. An error is that of the reader or the writer, or that memory ran out: then the lines up to some line
/// are answered, in their order, and of the answer to the next one at most a first part is written.
pub fn answer_lines<D: Decider, R: Read + Drop, W: Write>(
    alloc: Global,
    decider: &D,
    reader: &mut BufReader<R, Global>,
    writer: &mut W,
) -> io::Result<()>
    ensures all { OnOk result (AreAllAnswered (D.authorizes decider.now) (reader_remaining R.remaining reader.old)
        (W.contents writer.old) (W.contents writer.new)) }
    ensures some { OnErr result (AreSomeAnswered (D.authorizes decider.now) (reader_remaining R.remaining reader.old)
        (W.contents writer.old) (W.contents writer.new)) }
{
    'lines: for _ in 0..u64::MAX {
        match answer_line(alloc, decider, reader, writer) {
            Ok(more) => {
                if !more {
                    return writer.flush();
                }
            }
            Err(error) => return Err(error),
        }
    }
    Err(ErrorKind::TimedOut.into())
}

// Whether there was a line.
#[tactic(auto, using(crate::proofs::Lined::kept_cut))]
fn answer_line<D: Decider, R: Read + Drop, W: Write>(
    alloc: Global,
    decider: &D,
    reader: &mut BufReader<R, Global>,
    writer: &mut W,
) -> io::Result<bool>
    ensures step { IfOk result (λ more. IsLineStep (D.authorizes decider.now) (reader_remaining R.remaining reader.old)
        (W.contents writer.old) more (reader_remaining R.remaining reader.new) (W.contents writer.new)) }
    ensures cut { OnErr result (IsCutShort (D.authorizes decider.now) (reader_remaining R.remaining reader.old)
        (W.contents writer.old) (W.contents writer.new)) }
{
    flush_before(reader.buffer(), writer)?;
    let mut line: Vec<u8> = Vec::new(alloc);
    let count = reader.read_until(b'\n', &mut line)?;
    if count == 0 {
        return Ok(false);
    }
    match write_answer(alloc, decider, line.as_slice(), writer) {
        Ok(()) => Ok(true),
        Err(error) => Err(error),
    }
}

// What is written goes out, unless a whole line is here already.
fn flush_before<W: Write>(buffered: &[u8], writer: &mut W) -> io::Result<()>
    ensures { Keeps (W.contents writer.old) (W.contents writer.new) }
{
    if buffered.contains(&b'\n') {
        Ok(())
    } else {
        writer.flush()
    }
}

fn write_answer<D: Decider, W: Write>(
    alloc: Global,
    decider: &D,
    line: &[u8],
    writer: &mut W,
) -> io::Result<()>
    ensures whole { OnOk result (WritesAnswer (D.authorizes decider.now) line.now (W.contents writer.old)
        (W.contents writer.new)) }
    ensures part { OnErr result (WritesPart (D.authorizes decider.now) line.now (W.contents writer.old)
        (W.contents writer.new)) }
{
    match line_answer(alloc, decider, line) {
        Ok(answer) => write_whole(writer, answer.as_bytes()),
        Err(AllocError) => Err(ErrorKind::OutOfMemory.into()),
    }
}

fn line_answer<D: Decider>(alloc: Global, decider: &D, line: &[u8]) -> Result<String, AllocError>
    ensures { IfOk result (λ s. IsLineAnswer (D.authorizes decider.now) line.now (string_bytes s)) }
{
    let reply = authorize(alloc, decider, line)?;
    ended(alloc, &reply)
}

fn ended(alloc: Global, reply: &Reply) -> Result<String, AllocError>
    ensures { IfOk result (λ s. string_bytes s ≡ string_bytes reply.now.body ++ codes "\n") }
{
    let body = reply.body.as_str();
    let end = "\n";
    format!(in alloc; "{body}{end}")
}
