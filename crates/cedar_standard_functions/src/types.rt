//! The types of the standard extensions.
ghost use Rattle.std.specs.Prelude.{◌≡◌};
ghost use Rattle.cedar_model.specs.Outcomes.{has_text};
ghost use Rattle.cedar_standard_functions.specs.Kinds.{overloaded, standard_types};

/// The names of the standard types whose values `<` and `<=` compare.
pub const OVERLOADED: [&str; 2] = ["datetime", "duration"];

/// Whether `<` and `<=` compare the values of the standard type of this name.
#[tactic(auto, unfolding(cedar_model::specs::Outcomes::has_text))]
pub fn is_overloaded(type_name: &str) -> bool
    ensures { result ≡ has_text type_name.now overloaded }
{
    type_name == "datetime" || type_name == "duration"
}

/// Whether a standard extension has the type of this name.
#[tactic(auto, unfolding(cedar_model::specs::Outcomes::has_text))]
pub fn is_standard_type(type_name: &str) -> bool
    ensures { result ≡ has_text type_name.now standard_types }
{
    type_name == "decimal"
        || type_name == "ipaddr"
        || type_name == "datetime"
        || type_name == "duration"
}
