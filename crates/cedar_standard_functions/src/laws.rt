//! Laws of the standard functions. Each function is a law, and does nothing.
ghost use Rattle.cedar_standard_functions.specs.Laws.{AreComputed, AskNothing, AreFaithful, AreLawful, AreFound};
ghost use Rattle.cedar_standard_functions.specs.Laws.{HaveTheirNames};

/// What each function answers is what it computes, and none asks for an unknown.
pub fn functions_are_computed()
    ensures computed { AreComputed }
    ensures nothing_asked { AskNothing }
{
    cedar_decimal_functions::laws::are_computed();
    cedar_ip_functions::laws::are_computed();
    cedar_datetime_functions::laws::are_computed();
    cedar_decimal_functions::laws::ask_nothing();
    cedar_ip_functions::laws::ask_nothing();
    cedar_datetime_functions::laws::ask_nothing();
}

/// What each function answers is faithful, over any extensions and functions that have all of them.
pub fn functions_are_faithful()
    ensures { AreFaithful }
{
    cedar_decimal_functions::laws::are_faithful();
    cedar_ip_functions::laws::are_faithful();
    cedar_datetime_functions::laws::are_faithful();
}

/// No function answers the recursion limit, or that memory ran out, and each value that one answers is sound and written
/// in at most three levels.
pub fn functions_are_lawful()
    ensures { AreLawful }
{}

/// Each function is found by its name, and by no other.
pub fn names_are_found()
    ensures found { AreFound }
    ensures named { HaveTheirNames }
{}
