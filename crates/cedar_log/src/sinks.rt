//! What lines are appended to.
ghost use Rattle.std.specs.Bool.{OnTrue};
ghost use Rattle.std.specs.Prelude.{ℕ, List, Option};
ghost use Rattle.std.specs.Io.KnownBytes.{Appends, Keeps};
ghost use Rattle.cedar_writes.specs.Parts.{AppendsPart};

use cedar_writes::write_whole;
use std::io::Write;

/// What takes lines one after another, and keeps what it has.
pub trait Sink: Drop {
    // What has left the program, where that is known.
    ghost contents: { Self → Option (List ℕ) };

    /// Appends the text. True once all of it has left the program; else at most a first part of it has.
    fn append(&mut self, text: &[u8]) -> bool
        ensures whole { OnTrue result (Appends (contents self.old) (contents self.new) text.now) }
        ensures part { AppendsPart (contents self.old) (contents self.new) text.now };
}

/// A writer that is flushed after each text.
#[derive(Drop)]
pub struct Flushed<W: Write + Drop> {
    pub writer: W,
}

/// What has left the program is what the writer holds: no clause of `Write` tells the two apart, so that `flush` is
/// called here, and nowhere else, is what a reader has to see.
impl<W: Write + Drop> Sink for Flushed<W> {
    ghost contents = { λ f. W.contents f.writer };

    fn append(&mut self, text: &[u8]) -> bool {
        match write_whole(&mut self.writer, text) {
            Ok(()) => is_flushed(&mut self.writer),
            Err(error) => {
                drop(error);
                false
            }
        }
    }
}

fn is_flushed<W: Write>(writer: &mut W) -> bool
    ensures { Keeps (W.contents writer.old) (W.contents writer.new) }
{
    match writer.flush() {
        Ok(()) => true,
        Err(error) => {
            drop(error);
            false
        }
    }
}
