//! What a call of a function does.
use super::built_in;
use super::stored::{ExtensionOutputValue, StoredFunction};
use cedar_errors::evaluator::err::EvaluationError;
use cedar_values::Value;
use std::alloc::Global;

// It calls what the caller stored, or it makes an unknown.
#[derive(Drop)]
pub(crate) enum Callee {
    Stored(StoredFunction),
    Unknown,
}

impl Callee {
    ghost use Rattle.std.specs.Prelude.{◌≡◌, length};
    ghost use Rattle.cedar_model.specs.Rules.{Meets};
    ghost use Rattle.cedar_values.specs.Sound.{whats};
    ghost use Rattle.cedar_extensions.specs.Answers.{returned_answer};
    ghost use Rattle.cedar_extensions.specs.Callees.{arity_of, CalleeAnswers};

    // What it answers to as many arguments as it takes.
    pub(crate) fn answer(
        &self,
        alloc: Global,
        args: &[Value],
    ) -> Result<ExtensionOutputValue, EvaluationError>
        requires { length args.now ≡ arity_of self.now }
        ensures { Meets (CalleeAnswers self.now (whats args.now)) (returned_answer result) }
    {
        match self {
            Callee::Stored(stored) => stored.answer(args),
            Callee::Unknown => built_in::ask(alloc, &args[0]),
        }
    }
}
