//! The laws of what the functions of extensions may answer. Each function is a law, and does nothing.
ghost use Rattle.std.specs.Prelude.{◌≡◌, List, [], true};
ghost use Rattle.cedar_model.specs.Terms.{Text};
ghost use Rattle.cedar_model.specs.Values.{Represented};
ghost use Rattle.cedar_model.specs.Failures.{PartialValue, answers};
ghost use Rattle.cedar_model.specs.World.{Functions};
ghost use Rattle.cedar_model.specs.Agreement.{function_answer};
ghost use Rattle.cedar_model.specs.Alike.{AreFunctional};
ghost use Rattle.cedar_model.specs.laws.Levels.{FunctionsMeetNoLimit, FunctionsFindMemory};
ghost use Rattle.cedar_model.specs.Restricted.{IsSoundPart};
ghost use Rattle.cedar_model.specs.laws.Restricted.{HoldsUnknown};
ghost use Rattle.cedar_extensions.specs.Answers.{returned_answer};
ghost use Rattle.cedar_extensions.specs.Computations.{Computation, AllCompute, ComputeByName, AreBuiltIn};
ghost use Rattle.cedar_extensions.specs.Computations.{no_answers, built_in_answers, computed_answers, AgreesWith};
ghost use Rattle.cedar_extensions.specs.Computations.{AreFaithfulBy, AnswerStandard, MadeAreFaithfulBy};
ghost use Rattle.cedar_extensions.specs.Extensions.{has_standard, HasNone, calls_of, EachAnswer};
ghost use Rattle.cedar_extensions.specs.Outcomes.{Returned, outcome};

use crate::extensions::Extensions;
use cedar_standard_functions::laws::{functions_are_computed, functions_are_faithful};

/// What a function returned has the outcome that the model reads of its answer.
pub fn outcomes_are_those_of_the_model()
    ensures { (r : Returned) → outcome r ≡ function_answer (returned_answer r) }
{}

/// The functions of extensions answer alike to equal arguments, and never the recursion limit or out of memory. Each
/// value that they answer is sound, and each residual is restricted and holds an unknown.
pub fn stored_functions_are_lawful(extensions: &Extensions<'_>)
    ensures functional { AreFunctional (calls_of extensions.now) }
    ensures limit { FunctionsMeetNoLimit (calls_of extensions.now) }
    ensures memory { FunctionsFindMemory (calls_of extensions.now) }
    ensures sound { EachAnswer IsSoundPart (calls_of extensions.now) }
    ensures unknown { EachAnswer HoldsUnknown (calls_of extensions.now) }
{}

/// Where there is no function, `no_answers` agrees with what is there, as any functions of a world do.
pub fn no_functions_agree(extensions: &Extensions<'_>)
    ensures agree { HasNone extensions.now → AgreesWith extensions.now no_answers }
    ensures faithful { HasNone extensions.now → AreFaithfulBy extensions.now no_answers }
    ensures any { HasNone extensions.now → (ans : Functions) → AgreesWith extensions.now ans }
{}

/// Where each function is the built-in `unknown`, `built_in_answers` agrees with what is there.
pub fn built_in_functions_agree(extensions: &Extensions<'_>)
    ensures agree { AreBuiltIn extensions.now → AgreesWith extensions.now built_in_answers }
    ensures faithful { AreBuiltIn extensions.now → AreFaithfulBy extensions.now built_in_answers }
{}

/// Where each function that the caller made says what it computes, `computed_answers` agrees with what is there; and so
/// do all functions of a world that answer under each name what the function of that name computes.
pub fn computed_functions_agree(extensions: &Extensions<'_>)
    ensures agree { (cs : List Computation) → AllCompute extensions.now cs →
        AgreesWith extensions.now (computed_answers extensions.now cs) }
    ensures by_name { (ans : Functions) → ComputeByName extensions.now ans → AgreesWith extensions.now ans }
{
    functions_are_computed();
}

/// Where the standard extensions are there, functions of a world that answer what the standard functions compute have
/// faithful answers, if the functions that the caller made answer faithful values.
pub fn standard_functions_are_faithful(extensions: &Extensions<'_>)
    ensures { (ans : Functions) → has_standard extensions.now ≡ true → AnswerStandard ans →
        MadeAreFaithfulBy extensions.now ans → AreFaithfulBy extensions.now ans }
{
    functions_are_faithful();
}
