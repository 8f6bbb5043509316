//! What is written reads back. Each function is a law, and does nothing.
ghost use Rattle.std.specs.Prelude.{map};
ghost use Rattle.cedar_names.specs.Leaves.{variable_view};
ghost use Rattle.cedar_expressions.specs.View.{view};
ghost use Rattle.cedar_layers.specs.Policies.{annotations_view, policy_view};
ghost use Rattle.cedar_layers.specs.PolicySets.{policies_view};
ghost use Rattle.cedar_policy_json_writer.specs.Links.{link_view};
ghost use Rattle.cedar_policy_json_laws.specs.Back.{ExpressionReadsBack, AnnotationsReadBack};
ghost use Rattle.cedar_policy_json_laws.specs.Conditions.{AnyPolicyReadsBack, ConditionsMeanTheSame};
ghost use Rattle.cedar_policy_json_laws.specs.Policies.{ScopeReadsBack, LinkedScopeReadsBack, PolicyReadsBack};
ghost use Rattle.cedar_policy_json_laws.specs.Policies.{LinkedPolicyReadsBack, TemplateReadsBack};
ghost use Rattle.cedar_policy_json_laws.specs.PolicySets.{PolicySetReadsBack};
ghost use Rattle.cedar_policy_json_laws.specs.Samples.{TemplateIsReadable, PolicyIsReadable, SetIsReadable};
ghost use Rattle.cedar_policy_json_laws.specs.Samples.{ConditionsAreReadable};

use cedar_expressions::Expr;
use cedar_layers::policies::{Annotations, Policy, PolicySet};
use cedar_names::Var;
use cedar_policy_json_writer::TemplateLink;

/// What is written of an expression reads back as itself, within so many levels as it has, where it can be read: each
/// function that it calls is known, takes so many arguments, and has no operator's name; types have the names of types;
/// longs are of 64 bits, characters of patterns are characters, and the keys of records are in order; and no slot is in
/// it, so that it does not matter which are linked.
pub fn expressions_read_back(expr: &Expr)
    ensures { ExpressionReadsBack (view expr.now) }
{}

/// What is written of annotations reads back as themselves, where their keys are words in the order of their bytes.
pub fn annotations_read_back(annotations: &Annotations)
    ensures { AnnotationsReadBack (annotations_view annotations.now) }
{}

/// What is written of a constraint on this variable that stands in a scope reads back as itself, where types have the
/// names of types: `true`, and for the variable `v` and an entity `E` `v == E` and `v in E`, beside the action
/// `v in [E, ..]`, and beside the principal and the resource `v is T` and `v is T && v in E`. In a template the
/// variable's own slot may stand instead of `E`; where a slot is linked to an entity, it reads back as that
/// entity.
pub fn scopes_read_back(var: Var, constraint: &Expr)
    ensures itself { ScopeReadsBack (variable_view var) (view constraint.now) }
    ensures linked { LinkedScopeReadsBack (variable_view var) (view constraint.now) }
{}

/// What is written of a policy of which no slot is linked reads back as the policy, where it is read under its id: the
/// same effect, annotations, constraints and condition, where the constraints stand in the scope and each part reads
/// back. A condition that is `true` is not written, and reads back too. A policy that is linked reads back as the one
/// with the entities instead of the slots.
pub fn policies_read_back(policy: &Policy)
    ensures itself { PolicyReadsBack (policy_view policy.now) }
    ensures linked { LinkedPolicyReadsBack (policy_view policy.now) }
{}

/// What is written of a policy with a constraint that no scope has, as code may make one, reads back as the policy with
/// that constraint, and each behind it, as a condition before its own (`with_conditions`), where each part reads back.
/// Where no slot is linked, its condition has in each world the meaning of the one that was written: the same boolean,
/// or the same error.
pub fn constraints_read_back_as_conditions(policy: &Policy)
    ensures conditions { AnyPolicyReadsBack (policy_view policy.now) }
    ensures meaning { ConditionsMeanTheSame (policy_view policy.now) }
{}

/// What is written of a template reads back as the template, where it is read under its id and each part reads back,
/// whatever entities the policy has for its slots.
pub fn templates_read_back(template: &Policy)
    ensures { TemplateReadsBack (policy_view template.now) }
{}

/// What is written of policies, templates and links reads back as these, with the policies that the links make of the
/// templates behind the others, where each part reads back, none of the policies and templates is linked, the links
/// make policies of these templates, and no id is a duplicate.
pub fn policy_sets_read_back(policies: &PolicySet, templates: &[Policy], links: &[TemplateLink])
    ensures { PolicySetReadsBack (policies_view policies.now) (map policy_view templates.now)
        (map link_view links.now) }
{}

/// A template, a policy that is linked of it, a set of a policy, the template and the link, and a policy with a
/// constraint that no scope has, of which each part reads back: the premises can be met.
pub fn sample_policies_are_readable()
    ensures template { TemplateIsReadable }
    ensures policy { PolicyIsReadable }
    ensures set { SetIsReadable }
    ensures conditions { ConditionsAreReadable }
{}
