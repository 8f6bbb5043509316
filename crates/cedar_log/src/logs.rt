//! A log, to which lines are appended.
ghost use Rattle.std.specs.Prelude.{◌≡◌, false};
ghost use Rattle.cedar_log.specs.Logs.{IsAppended};

use crate::sinks::Sink;

/// A log. Once something could not be appended to it whole, nothing more is: what follows would stand right after a part
/// of a line.
#[derive(Drop)]
pub struct Log<L: Sink> {
    /// To it the lines are appended. What it held stays.
    pub sink: L,
    /// Whether something could not be appended to it whole.
    pub is_broken: bool,
}

impl<L: Sink> Log<L> {
    /// A log of which nothing was lost.
    pub fn new(sink: L) -> Log<L>
        ensures sink { result.sink ≡ sink }
        ensures is_broken { result.is_broken ≡ false }
    {
        Log {
            sink,
            is_broken: false,
        }
    }
}

/// Appends the text, and answers whether all of it has left the program; if not, at most a first part of it has, and
/// nothing more is appended from then on.
pub fn append<L: Sink>(log: &mut Log<L>, text: &str) -> bool
    ensures { IsAppended L.contents text.now log.old log.new result }
{
    if log.is_broken {
        return false;
    }
    let is_whole = log.sink.append(text.as_bytes());
    log.is_broken = !is_whole;
    is_whole
}
