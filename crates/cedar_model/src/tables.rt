//! Worked examples for the tables of type errors, of residuals and of operators' errors. Each function is a set of
//! examples, and does nothing.
ghost use Rattle.cedar_model.specs.examples.Tables.{GuardExpectsBool, NotExpectsBool, AndLeftExpectsBool, AndRightExpectsBool};
ghost use Rattle.cedar_model.specs.examples.Tables.{OrLeftExpectsBool, OrRightExpectsBool, NegExpectsLong, AddExpectsLongLeft};
ghost use Rattle.cedar_model.specs.examples.Tables.{SubExpectsLongRight, MulExpectsLongLeft, LessEqBesideLong};
ghost use Rattle.cedar_model.specs.examples.Tables.{ExtensionBesideLong, OverloadedLeft, OverloadedRight, OtherExtensions};
ghost use Rattle.cedar_model.specs.examples.Tables.{ContainsExpectsSet, ContainsAnyLeftFirst, ContainsAnyRight};
ghost use Rattle.cedar_model.specs.examples.Tables.{IsEmptyExpectsSet, GetTagExpectsEntity, HasTagExpectsEntity};
ghost use Rattle.cedar_model.specs.examples.Tables.{IsExpectsEntity, GetTagExpectsText, HasTagExpectsText, AttributeOfLong};
ghost use Rattle.cedar_model.specs.examples.Tables.{HasOfLong, PolicyExpectsBool, UnaryKept, FalseOrKept, ResidualBesideValue};
ghost use Rattle.cedar_model.specs.examples.Tables.{ResidualBesideResidual, TagOfMissingPartial, HasTagOfMissingPartial};
ghost use Rattle.cedar_model.specs.examples.Tables.{AttributeOfMissingPartial, HasOfMissingPartial, AttributeOfResidual};
ghost use Rattle.cedar_model.specs.examples.Tables.{KeyNotInOtherRecord, PathOfResidual, RecordWithUnknown, FunctionAsks};
ghost use Rattle.cedar_model.specs.examples.Tables.{TagOfMissing, FiveNamesShown, OtherKindShown, KeyMissing, SubOverflows};
ghost use Rattle.cedar_model.specs.examples.Tables.{MulOverflows, FunctionFails, ExtensionsCompared, ExtensionsComparedBack};

/// Examples: the table of type errors.
pub fn type_errors_are_shown()
    ensures guard_expects_bool { GuardExpectsBool }
    ensures not_expects_bool { NotExpectsBool }
    ensures and_left_expects_bool { AndLeftExpectsBool }
    ensures and_right_expects_bool { AndRightExpectsBool }
    ensures or_left_expects_bool { OrLeftExpectsBool }
    ensures or_right_expects_bool { OrRightExpectsBool }
    ensures neg_expects_long { NegExpectsLong }
    ensures add_expects_long_left { AddExpectsLongLeft }
    ensures sub_expects_long_right { SubExpectsLongRight }
    ensures mul_expects_long_left { MulExpectsLongLeft }
    ensures less_eq_beside_long { LessEqBesideLong }
    ensures extension_beside_long { ExtensionBesideLong }
    ensures overloaded_left { OverloadedLeft }
    ensures overloaded_right { OverloadedRight }
    ensures other_extensions { OtherExtensions }
    ensures contains_expects_set { ContainsExpectsSet }
    ensures contains_any_left_first { ContainsAnyLeftFirst }
    ensures contains_any_right { ContainsAnyRight }
    ensures is_empty_expects_set { IsEmptyExpectsSet }
    ensures get_tag_expects_entity { GetTagExpectsEntity }
    ensures has_tag_expects_entity { HasTagExpectsEntity }
    ensures is_expects_entity { IsExpectsEntity }
    ensures get_tag_expects_text { GetTagExpectsText }
    ensures has_tag_expects_text { HasTagExpectsText }
    ensures attribute_of_long { AttributeOfLong }
    ensures has_of_long { HasOfLong }
    ensures policy_expects_bool { PolicyExpectsBool }
{}

/// Examples: the table of residuals.
pub fn residuals_are_shown()
    ensures unary_kept { UnaryKept }
    ensures false_or_kept { FalseOrKept }
    ensures residual_beside_value { ResidualBesideValue }
    ensures residual_beside_residual { ResidualBesideResidual }
    ensures tag_of_missing_partial { TagOfMissingPartial }
    ensures has_tag_of_missing_partial { HasTagOfMissingPartial }
    ensures attribute_of_missing_partial { AttributeOfMissingPartial }
    ensures has_of_missing_partial { HasOfMissingPartial }
    ensures attribute_of_residual { AttributeOfResidual }
    ensures key_not_in_other_record { KeyNotInOtherRecord }
    ensures path_of_residual { PathOfResidual }
    ensures record_with_unknown { RecordWithUnknown }
    ensures function_asks { FunctionAsks }
{}

/// Examples: errors of operators and of functions, with their fields.
pub fn errors_are_shown()
    ensures tag_of_missing { TagOfMissing }
    ensures five_names_shown { FiveNamesShown }
    ensures other_kind_shown { OtherKindShown }
    ensures key_missing { KeyMissing }
    ensures sub_overflows { SubOverflows }
    ensures mul_overflows { MulOverflows }
    ensures function_fails { FunctionFails }
    ensures extensions_compared { ExtensionsCompared }
    ensures extensions_compared_back { ExtensionsComparedBack }
{}
