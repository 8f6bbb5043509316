//! The levels of the residual rules. Each function is a law, and does nothing.
ghost use Rattle.std.specs.Prelude.{List};
ghost use Rattle.cedar_model.specs.Terms.{Text};
ghost use Rattle.cedar_model.specs.Values.{Represented};
ghost use Rattle.cedar_model.specs.Failures.{Answer};
ghost use Rattle.cedar_model.specs.laws.Levels.{MoreLevelsKeepAnswers, LimitIsAlone, AllowedAnswersAreAlike};
ghost use Rattle.cedar_model.specs.laws.Levels.{AnswersTakeMoreLevels, AllowedIsByTheRules, LayersAreLevels};
ghost use Rattle.cedar_model.specs.laws.Levels.{LevelsHaveAnswers, ExpressionsHaveAnswers, NeedIsThreshold};
ghost use Rattle.cedar_model.specs.laws.Levels.{AgreedFunctionsAreFunctional, AnswersFindMemory};

/// Any stored functions: what they may answer to arguments. The laws hold for each type that has this.
pub trait AnyFunctions {
    ghost calls: { Self → Text → List Represented → Answer → Type 0 };
}

/// More levels keep an answer, and a level is a layer over the level below.
pub fn levels_keep_answers<F: AnyFunctions>(functions: &F)
    ensures more { MoreLevelsKeepAnswers (F.calls functions.now) }
    ensures layers { LayersAreLevels (F.calls functions.now) }
{}

/// At one level never both the limit and an answer, and all answers are alike: from stored functions that answer
/// alike to equal arguments.
pub fn levels_are_determined<F: AnyFunctions>(functions: &F)
    ensures limit { LimitIsAlone (F.calls functions.now) }
    ensures alike { AllowedAnswersAreAlike (F.calls functions.now) }
    ensures need { AnswersTakeMoreLevels (F.calls functions.now) }
{}

/// What is allowed is what the rules give over what is allowed, both ways.
pub fn allowed_is_by_the_rules<F: AnyFunctions>(functions: &F)
    ensures { AllowedIsByTheRules (F.calls functions.now) }
{}

/// At each level there is an answer, where the functions that exist answer to their own number of arguments.
pub fn levels_have_answers<F: AnyFunctions>(functions: &F)
    ensures { LevelsHaveAnswers (F.calls functions.now) }
{}

/// Each expression has an answer at some level, where these functions answer, and never by the recursion limit; with
/// deep resolution where stored residuals are restricted.
pub fn expressions_have_answers<F: AnyFunctions>(functions: &F)
    ensures { ExpressionsHaveAnswers (F.calls functions.now) }
{}

/// No expression answers out of memory, where no function does.
pub fn answers_find_memory<F: AnyFunctions>(functions: &F)
    ensures { AnswersFindMemory (F.calls functions.now) }
{}

/// Where the recursion limit is met, it is met with fewer levels too.
pub fn need_is_a_threshold<F: AnyFunctions>(functions: &F)
    ensures { NeedIsThreshold (F.calls functions.now) }
{}

/// Stored functions that agree with one answer to equal arguments answer alike.
pub fn agreed_functions_are_functional<F: AnyFunctions>(functions: &F)
    ensures { AgreedFunctionsAreFunctional (F.calls functions.now) }
{}
