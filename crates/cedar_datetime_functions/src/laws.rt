//! Laws of the functions of dates, times and durations. Each function is a law, and does nothing.
ghost use Rattle.cedar_extension_values.specs.Functions.{IsComputed, AsksNothing};
ghost use Rattle.cedar_datetime_functions.specs.Constructors.{datetime_answer, datetime_made};
ghost use Rattle.cedar_datetime_functions.specs.Constructors.{duration_answer, duration_made};
ghost use Rattle.cedar_datetime_functions.specs.Operations.{offset_answer, offset_made, to_date_answer, to_date_made};
ghost use Rattle.cedar_datetime_functions.specs.Operations.{duration_since_answer, duration_since_made};
ghost use Rattle.cedar_datetime_functions.specs.Operations.{to_time_answer, to_time_made};
ghost use Rattle.cedar_datetime_functions.specs.Laws.{AmountsAreComputed, AmountsAskNothing, AmountsAreFaithful};
ghost use Rattle.cedar_datetime_functions.specs.Laws.{FaithfulByDatetime, FaithfulByDuration, FaithfulByOffset};

use cedar_datetime::laws::{
    dates_and_times_make_up_datetimes, keys_are_read_back, written_durations_are_read,
};
use cedar_extension_values::laws::{
    constructors_are_faithful, functions_of_a_key, functions_of_two_keys,
    written_values_are_faithful,
};

/// What each function answers is what it computes: the value, or an error of that kind.
pub fn are_computed()
    ensures datetimes { IsComputed datetime_answer datetime_made }
    ensures durations { IsComputed duration_answer duration_made }
    ensures offset { IsComputed offset_answer offset_made }
    ensures duration_since { IsComputed duration_since_answer duration_since_made }
    ensures to_date { IsComputed to_date_answer to_date_made }
    ensures to_time { IsComputed to_time_answer to_time_made }
    ensures amounts { AmountsAreComputed }
{
    constructors_are_faithful();
    functions_of_a_key();
    functions_of_two_keys();
}

/// None of the functions asks for an unknown.
pub fn ask_nothing()
    ensures datetimes { AsksNothing datetime_made }
    ensures durations { AsksNothing duration_made }
    ensures offset { AsksNothing offset_made }
    ensures duration_since { AsksNothing duration_since_made }
    ensures to_date { AsksNothing to_date_made }
    ensures to_time { AsksNothing to_time_made }
    ensures amounts { AmountsAskNothing }
{
    constructors_are_faithful();
    functions_of_a_key();
    functions_of_two_keys();
}

/// What each function answers is faithful, over any extensions and functions that have, with its definition, each
/// function by which the answer is written: `datetime`, `duration`, or these and `offset`.
pub fn are_faithful()
    ensures datetimes { FaithfulByDatetime datetime_answer }
    ensures durations { FaithfulByDuration duration_answer }
    ensures offset { FaithfulByOffset offset_answer }
    ensures duration_since { FaithfulByDuration duration_since_answer }
    ensures to_date { FaithfulByOffset to_date_answer }
    ensures to_time { FaithfulByDuration to_time_answer }
    ensures amounts { AmountsAreFaithful }
{
    constructors_are_faithful();
    functions_of_a_key();
    functions_of_two_keys();
    written_values_are_faithful();
    dates_and_times_make_up_datetimes();
    keys_are_read_back();
    written_durations_are_read();
}
