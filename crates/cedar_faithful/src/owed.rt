//! What the headline takes of functions. Each function is a law, and does nothing.
ghost use Rattle.std.specs.Prelude.{◌≡◌, [], true};
ghost use Rattle.cedar_model.specs.Terms.{Text};
ghost use Rattle.cedar_model.specs.World as world;
ghost use Rattle.cedar_model.specs.Agreement.{FitsFunction};
ghost use Rattle.cedar_extensions.specs.Extensions.{extensions_in, has_standard, extensions_view, calls_of};
ghost use Rattle.cedar_extensions.specs.Computations.{AgreesWith, AreFaithfulBy};
ghost use Rattle.cedar_standard_functions.specs.Standard.{standard_answers};
ghost use Rattle.cedar_faithful.specs.Owed.{NothingIsOwedOf};

use cedar_extensions::Extensions;
use cedar_extensions::laws::{computed_functions_agree, standard_functions_are_faithful};
use cedar_standard_functions::laws::functions_are_computed;

/// Where functions of a world agree with those of the extensions and have faithful answers, the premises of the
/// headline (`headline` of `Authorizer::authorize_in_steps`) are met by a world that agrees with what is given, if the
/// values that are given are faithful. With the standard extensions alone, those of `Extensions::all_available`, no
/// premise on functions is left.
pub fn nothing_is_owed_of_functions(extensions: &Extensions<'_>)
    ensures agreed { (ans : world.Functions) → AgreesWith extensions.now ans → AreFaithfulBy extensions.now ans
        → NothingIsOwedOf (calls_of extensions.now) (extensions_view extensions.now) ans }
    ensures standard { extensions_in extensions.now ≡ [] → has_standard extensions.now ≡ true
        → NothingIsOwedOf (calls_of extensions.now) (extensions_view extensions.now) standard_answers }
{
    computed_functions_agree(extensions);
    standard_functions_are_faithful(extensions);
}

/// The standard functions ask for no unknown, so that each world fits them.
pub fn standard_functions_fit_each_world()
    ensures { (w : world.World) (f : Text) → FitsFunction standard_answers w f }
{
    functions_are_computed();
}
