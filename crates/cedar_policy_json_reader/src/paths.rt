//! Where a part stands in a JSON value.
ghost use Rattle.std.specs.Prelude.{◌≡◌, ◌∷◌, IfOk};

use cedar_names::shared::write_quoted;
use cedar_text_lexer::words::is_word;
use std::alloc::AllocError;
use std::fmt;
use std::fmt::Display;
use std::rc::RcStr;

/// A step of the way from a JSON value to a part of it.
#[derive(Debug, Drop)]
pub enum PathStep {
    /// To the member of this key.
    Key(RcStr),
    /// To the element of this index. The first is 0.
    Index(usize),
}

/// The way from the whole JSON value to a part of it.
#[derive(Debug, Drop)]
pub struct JsonPath {
    /// The steps, from the whole value on.
    pub steps: Vec<PathStep>,
}

impl JsonPath {
    ghost use Rattle.cedar_policy_json_reader.specs.Paths.{path_view};

    // The same way, of the part that this step leads to.
    pub(crate) fn under(self, step: PathStep) -> Result<JsonPath, AllocError>
        ensures { IfOk result (λ p. path_view p ≡ step_view step ∷ path_view self) }
    {
        let mut steps = self.steps;
        match steps.insert(0, step) {
            Ok(()) => Ok(JsonPath { steps }),
            Err(_) => {
                drop(steps);
                Err(AllocError)
            }
        }
    }
}

/// `$` for the whole value, and for each step behind it `.key`, `["a key"]` where the key is no word, or `[0]`.
impl fmt::Display for JsonPath {
    ghost use Rattle.std.specs.Prelude.{Some};
    ghost use Rattle.cedar_policy_json_reader.specs.Paths.{path_view};

    ghost output = { λ p. Some (text.path_text (path_view p)) };

    fn fmt<W: fmt::Write>(&self, f: &mut fmt::Formatter<W>) -> fmt::Result {
        f.write_str("$")?;
        write_steps(self.steps.as_slice(), f)
    }
}

ghost use Rattle.std.specs.Prelude.{flat_map, map};
ghost use Rattle.std.specs.Fmt.{WritesOnOk};
ghost use Rattle.std.specs.Rc.{rc_str_bytes};
ghost use Rattle.cedar_policy_json_reader.specs.ErrorTexts as text;
ghost use Rattle.cedar_policy_json_reader.specs.Paths.{step_view};

fn write_steps<W: fmt::Write>(steps: &[PathStep], f: &mut fmt::Formatter<W>) -> fmt::Result
    ensures { WritesOnOk W.write_str_gives f.old result (flat_map text.step_text (map step_view steps.now)) f.new }
{
    'steps: for step in steps {
        write_step(step, f)?;
    }
    Ok(())
}

fn write_step<W: fmt::Write>(step: &PathStep, f: &mut fmt::Formatter<W>) -> fmt::Result
    ensures { WritesOnOk W.write_str_gives f.old result (text.step_text (step_view step.now)) f.new }
{
    match step {
        PathStep::Key(key) => write_key(key.as_str(), f),
        PathStep::Index(index) => write_index(*index, f),
    }
}

fn write_key<W: fmt::Write>(key: &str, f: &mut fmt::Formatter<W>) -> fmt::Result
    ensures { WritesOnOk W.write_str_gives f.old result (text.key_text key.now) f.new }
{
    if is_word(key) {
        f.write_str(".")?;
        f.write_str(key)
    } else {
        f.write_str("[")?;
        write_quoted(key, f)?;
        f.write_str("]")
    }
}

fn write_index<W: fmt::Write>(index: usize, f: &mut fmt::Formatter<W>) -> fmt::Result
    ensures { WritesOnOk W.write_str_gives f.old result (text.index_text index) f.new }
{
    f.write_str("[")?;
    index.fmt(f)?;
    f.write_str("]")
}
