//! Stored residuals. Each function is a law or a set of examples, and does nothing.
ghost use Rattle.cedar_model.specs.laws.Resolutions.{ResolutionsAgree};
ghost use Rattle.cedar_model.specs.Resolutions.{AttributeResolves, AttributeStays, AttributeErrs, TagResolves};
ghost use Rattle.cedar_model.specs.Resolutions.{PresenceReadsNone, PathWalksOn, PathKeeps, PathErrs, LastIsPresence};
ghost use Rattle.cedar_model.specs.Resolutions.{MissingStays, StoredNeedThree, ShallowNeedsTwo, UnknownResolves};
ghost use Rattle.cedar_model.specs.Resolutions.{WalkMeetsLong, WalkMeetsEntity, LastNeedsTwo};
ghost use Rattle.cedar_model.specs.Resolutions.{SelfReadingNeverAnswers, StoredResidualsGrow, UnsoundContextsGrow};

use crate::levels::AnyFunctions;

/// Where the store holds values alone, an expression may answer the same with each resolution, at each level.
pub fn resolutions_agree<F: AnyFunctions>(functions: &F)
    ensures { ResolutionsAgree (F.calls functions.now) }
{}

/// Examples: a stored residual that an attribute or a tag reads answers itself, or with deep resolution what it is
/// evaluated to: a value, a residual or an error.
pub fn attributes_resolve()
    ensures attribute { AttributeResolves }
    ensures attribute_stays { AttributeStays }
    ensures attribute_errs { AttributeErrs }
    ensures tag { TagResolves }
    ensures unknown { UnknownResolves }
    ensures presence { PresenceReadsNone }
    ensures missing { MissingStays }
{}

/// Examples: of a stored residual that an extended `has` reads a value is walked on, a residual keeps the attributes
/// after it, and an error is answered; the last attribute is a presence check.
pub fn paths_resolve()
    ensures walks_on { PathWalksOn }
    ensures keeps { PathKeeps }
    ensures errs { PathErrs }
    ensures last { LastIsPresence }
    ensures long { WalkMeetsLong }
    ensures entity { WalkMeetsEntity }
{}

/// Examples: the levels that stored residuals need, why they are restricted, why the depth bound has twice the bound
/// with deep resolution, and why values that are put into a context are sound.
pub fn resolutions_need_levels()
    ensures three { StoredNeedThree }
    ensures two { ShallowNeedsTwo }
    ensures last_two { LastNeedsTwo }
    ensures looping { SelfReadingNeverAnswers }
    ensures grown { StoredResidualsGrow }
    ensures unsound { UnsoundContextsGrow }
{}
