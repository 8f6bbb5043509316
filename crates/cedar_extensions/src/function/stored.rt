//! A function that a caller stores, beside what it keeps.
ghost use Rattle.std.specs.Prelude.{◌≡◌, length, true};
ghost use Rattle.cedar_extensions.specs.Outcomes.{TakesArity, AtMostOne, OnlyLawful, AtMostOne-prop, OnlyLawful-prop};
ghost use Rattle.cedar_extensions.specs.Outcomes.{is_lawful};

use cedar_errors::evaluator::err::EvaluationError;
use cedar_names::Unknown;
use cedar_values::Value;

/// What a stored function answers.
#[derive(Debug, Drop)]
pub enum ExtensionOutputValue {
    /// A value.
    Known(Value),
    /// An unknown.
    Unknown(Unknown),
}

/// A function that a caller makes.
pub type ExtensionFunctionObject = Box<
    dyn Fn(&[Value]) -> Result<ExtensionOutputValue, EvaluationError>,
>;

// A function that a caller stores: it takes so many arguments, to equal arguments it answers one outcome at most,
// besides running out of memory, and it answers neither the recursion limit nor `NonValue`, nor out of memory inside
// the error of a look-up.
#[derive(Drop)]
pub(crate) struct StoredFunction {
    func: ExtensionFunctionObject,
    arity: usize,
    ghost callable: { TakesArity (λ a. pre func a) arity },
    ghost functional: { AtMostOne arity (λ a r. post func a r) } by { AtMostOne-prop _ _ },
    ghost lawful: { OnlyLawful arity (λ a r. post func a r) } by { OnlyLawful-prop _ _ },
}

impl StoredFunction {
    pub(crate) fn new(func: ExtensionFunctionObject, arity: usize) -> StoredFunction
        requires callable { TakesArity (λ a. pre func a) arity }
        requires functional { AtMostOne arity (λ a r. post func a r) }
        requires lawful { OnlyLawful arity (λ a r. post func a r) }
        ensures func { result.func ≡ func }
        ensures arity { result.arity ≡ arity }
    {
        StoredFunction { func, arity }
    }

    // What the function answers to as many arguments as it takes.
    pub(crate) fn answer(&self, args: &[Value]) -> Result<ExtensionOutputValue, EvaluationError>
        requires { length args.now ≡ self.now.arity }
        ensures post { post self.now.func args.entry result }
        ensures lawful { is_lawful result ≡ true }
    {
        (self.func)(args)
    }
}
