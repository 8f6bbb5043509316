//! Worked examples: what expressions mean, and what the residual rules allow. Each function is a set of examples,
//! and does nothing.
ghost use Rattle.cedar_model.specs.examples.Meanings.{MeansOverflowAbove, MeansOverflowBelow, MeansLeastLong};
ghost use Rattle.cedar_model.specs.examples.Meanings.{MeansFirstErrorByKey, MeansLeftErrorFirst, MeansOperandsBeforeTypes};
ghost use Rattle.cedar_model.specs.examples.Meanings.{MeansMissingHas, MeansMissingAttributeOf, MeansAttribute};
ghost use Rattle.cedar_model.specs.examples.Meanings.{MeansAttributeMissing, MeansKeyMissing, MeansTagMissing, MeansInAncestor};
ghost use Rattle.cedar_model.specs.examples.Meanings.{MeansInItself, MeansInMixedSet, MeansPathStops, MeansPathOfLong};
ghost use Rattle.cedar_model.specs.examples.Meanings.{MeansSlotNotReached, MeansSlotUnlinked, MeansUnknown, MeansSetOnce};
ghost use Rattle.cedar_model.specs.examples.Meanings.{MeansArgumentErrsFirst, MeansNoSuchFunction, MeansTooFewArguments};
ghost use Rattle.cedar_model.specs.examples.Meanings.{MeansFunction, MeansIs};
ghost use Rattle.cedar_model.specs.examples.Needs.{NotsNeedThree, BestEffortHandsUp, ProjectionNeedsThree, ErringAreSkipped};
ghost use Rattle.cedar_model.specs.examples.Needs.{ForbidDenies, NothingDenies};
ghost use Rattle.cedar_model.specs.examples.Answers.{LikeMatches, LikeFails, LikeOfLong, OverflowAbove, OverflowBelow};
ghost use Rattle.cedar_model.specs.examples.Answers.{FirstErrorByKey, LeftErrorFirst, LessBesideLong, LessOfTexts};
ghost use Rattle.cedar_model.specs.examples.Answers.{ContainsAllOfLong, SetOnce, EmptySet, KnownPrincipal, SlotNotReached};
ghost use Rattle.cedar_model.specs.examples.Answers.{SlotUnlinked, MissingAttributeOf, MissingHas, AttributeMissing, TagMissing};
ghost use Rattle.cedar_model.specs.examples.Answers.{TagAsStored, HasTag, AttributeThroughMap, AttributeAsStored, InAncestor};
ghost use Rattle.cedar_model.specs.examples.Answers.{InMissingConcrete, InItself, InMissingPartial, InAnyRight, InALong};
ghost use Rattle.cedar_model.specs.examples.Answers.{InMixedSet, InFromALong, PathMetByResidual, PathLastIsPresence};
ghost use Rattle.cedar_model.specs.examples.Answers.{PathMissingPartial, PathStops, PathOfLong, MappedWithType};
ghost use Rattle.cedar_model.specs.examples.Answers.{MappedWithOtherType, KeptBesideTrue, FalseBesideUnknown, OrKeeps};
ghost use Rattle.cedar_model.specs.examples.Answers.{BestEffortKeeps, BestEffortSimplifies, GuardKeeps, ValueBesideResidual};
ghost use Rattle.cedar_model.specs.examples.Answers.{RightErrorShows, ApartByAnnotation, KeptByAnnotation, KeptWithoutAnnotation};
ghost use Rattle.cedar_model.specs.examples.Answers.{UnknownsApart, IsByAnnotation, IsTestKept, Projected, ProjectedThroughMap};
ghost use Rattle.cedar_model.specs.examples.Answers.{NotProjected, KeyNotThere, HasInProjectable, HasKept, SetWithUnknown};
ghost use Rattle.cedar_model.specs.examples.Answers.{LikeKept, ArgumentErrsFirst, NoSuchFunction, UnknownArgument};
ghost use Rattle.cedar_model.specs.examples.Answers.{TooManyArguments, TooFewArguments, FunctionAnswers};

/// Examples: values and operators.
pub fn operators_answer()
    ensures overflow_above { OverflowAbove }
    ensures overflow_below { OverflowBelow }
    ensures first_error_by_key { FirstErrorByKey }
    ensures left_error_first { LeftErrorFirst }
    ensures less_beside_long { LessBesideLong }
    ensures less_of_texts { LessOfTexts }
    ensures contains_all_of_long { ContainsAllOfLong }
    ensures set_once { SetOnce }
    ensures empty_set { EmptySet }
{}

/// Examples: variables, slots and the store.
pub fn stores_answer()
    ensures known_principal { KnownPrincipal }
    ensures slot_not_reached { SlotNotReached }
    ensures slot_unlinked { SlotUnlinked }
    ensures missing_attribute_of { MissingAttributeOf }
    ensures missing_has { MissingHas }
    ensures attribute_missing { AttributeMissing }
    ensures tag_missing { TagMissing }
    ensures tag_as_stored { TagAsStored }
    ensures has_tag { HasTag }
    ensures attribute_through_map { AttributeThroughMap }
    ensures attribute_as_stored { AttributeAsStored }
    ensures in_ancestor { InAncestor }
    ensures in_missing_concrete { InMissingConcrete }
    ensures in_itself { InItself }
    ensures in_missing_partial { InMissingPartial }
    ensures in_any_right { InAnyRight }
    ensures in_a_long { InALong }
    ensures in_mixed_set { InMixedSet }
    ensures in_from_a_long { InFromALong }
{}

/// Examples: extended has.
pub fn paths_answer()
    ensures path_met_by_residual { PathMetByResidual }
    ensures path_last_is_presence { PathLastIsPresence }
    ensures path_missing_partial { PathMissingPartial }
    ensures path_stops { PathStops }
    ensures path_of_long { PathOfLong }
{}

/// Examples: unknowns.
pub fn unknowns_answer()
    ensures mapped_with_type { MappedWithType }
    ensures mapped_with_other_type { MappedWithOtherType }
    ensures kept_beside_true { KeptBesideTrue }
    ensures false_beside_unknown { FalseBesideUnknown }
    ensures or_keeps { OrKeeps }
    ensures best_effort_keeps { BestEffortKeeps }
    ensures best_effort_simplifies { BestEffortSimplifies }
    ensures guard_keeps { GuardKeeps }
    ensures value_beside_residual { ValueBesideResidual }
    ensures right_error_shows { RightErrorShows }
    ensures apart_by_annotation { ApartByAnnotation }
    ensures kept_by_annotation { KeptByAnnotation }
    ensures kept_without_annotation { KeptWithoutAnnotation }
    ensures unknowns_apart { UnknownsApart }
    ensures is_by_annotation { IsByAnnotation }
    ensures is_kept { IsTestKept }
{}

/// Examples: records, sets and like with unknown parts.
pub fn parts_answer()
    ensures projected { Projected }
    ensures projected_through_map { ProjectedThroughMap }
    ensures not_projected { NotProjected }
    ensures key_not_there { KeyNotThere }
    ensures has_in_projectable { HasInProjectable }
    ensures has_kept { HasKept }
    ensures set_with_unknown { SetWithUnknown }
    ensures like_kept { LikeKept }
{}

/// Examples: calls.
pub fn calls_answer()
    ensures argument_errs_first { ArgumentErrsFirst }
    ensures no_such_function { NoSuchFunction }
    ensures unknown_argument { UnknownArgument }
    ensures too_many_arguments { TooManyArguments }
    ensures too_few_arguments { TooFewArguments }
    ensures function_answers { FunctionAnswers }
{}

/// Examples: what expressions mean.
pub fn expressions_mean()
    ensures means_overflow_above { MeansOverflowAbove }
    ensures means_overflow_below { MeansOverflowBelow }
    ensures means_least_long { MeansLeastLong }
    ensures means_first_error_by_key { MeansFirstErrorByKey }
    ensures means_left_error_first { MeansLeftErrorFirst }
    ensures means_operands_before_types { MeansOperandsBeforeTypes }
    ensures means_missing_has { MeansMissingHas }
    ensures means_missing_attribute_of { MeansMissingAttributeOf }
    ensures means_attribute { MeansAttribute }
    ensures means_attribute_missing { MeansAttributeMissing }
    ensures means_key_missing { MeansKeyMissing }
    ensures means_tag_missing { MeansTagMissing }
    ensures means_in_ancestor { MeansInAncestor }
    ensures means_in_itself { MeansInItself }
    ensures means_in_mixed_set { MeansInMixedSet }
    ensures means_path_stops { MeansPathStops }
    ensures means_path_of_long { MeansPathOfLong }
    ensures means_slot_not_reached { MeansSlotNotReached }
    ensures means_slot_unlinked { MeansSlotUnlinked }
    ensures means_unknown { MeansUnknown }
    ensures means_set_once { MeansSetOnce }
    ensures means_argument_errs_first { MeansArgumentErrsFirst }
    ensures means_no_such_function { MeansNoSuchFunction }
    ensures means_too_few_arguments { MeansTooFewArguments }
    ensures means_function { MeansFunction }
    ensures means_is { MeansIs }
{}

/// Examples: needs.
pub fn needs_are_levels()
    ensures nots { NotsNeedThree }
    ensures best_effort { BestEffortHandsUp }
    ensures projection { ProjectionNeedsThree }
{}

/// Examples: decisions and reasons.
pub fn policies_decide()
    ensures skipped { ErringAreSkipped }
    ensures forbid { ForbidDenies }
    ensures nothing { NothingDenies }
{}

/// Examples: `like`.
pub fn patterns_answer()
    ensures matches { LikeMatches }
    ensures fails { LikeFails }
    ensures long { LikeOfLong }
{}
