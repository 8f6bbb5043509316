//! The line of one decision.
ghost use Rattle.std.specs.Prelude.{◌≡◌, IfOk, option_map, codes, string_bytes};
ghost use Rattle.json.specs.Tree.{HasNumbers};
ghost use Rattle.json.specs.Value.{value_view};
ghost use Rattle.cedar_log.specs.Lines.{HaveNumbers, properties_text, entity_text, action_text, context_text};
ghost use Rattle.cedar_log.specs.Lines.{part, optional_text, who_text, what_text, request_text, stamp_text, decision_line};
ghost use Rattle.cedar_log.specs.Lines.{other_line};

use crate::parts::{given, part, within};
use crate::texts::{found_text, optional_quoted, optional_text, quoted, value_text};
use json::Value;
use std::alloc::{AllocError, Global};

/// A request, and the answer to it, of which both are JSON. Refuses only if out of memory.
pub(crate) fn decision_line(
    alloc: Global,
    stamp: &str,
    request: &str,
    answer: &str,
) -> Result<String, AllocError>
    ensures { IfOk result (λ s. string_bytes s ≡ decision_line stamp.now request.now answer.now) }
{
    let open = "{\"request\":";
    let answered = ",\"answer\":";
    let close = "}\n";
    format!(in alloc; "{open}{request}{answered}{answer}{stamp}{close}")
}

/// What was asked at this path, and the answer to it, of which both are JSON. Refuses only if out of memory.
pub(crate) fn other_line(
    alloc: Global,
    stamp: &str,
    path: &str,
    asked: &str,
    answer: &str,
) -> Result<String, AllocError>
    ensures { IfOk result (λ s. string_bytes s ≡ other_line stamp.now path.now asked.now answer.now) }
{
    let path = quoted(alloc, path)?;
    let open = "{\"path\":";
    let body = ",\"asked\":";
    let answered = ",\"answer\":";
    let close = "}\n";
    format!(in alloc; "{open}{path}{body}{asked}{answered}{answer}{stamp}{close}")
}

/// What each line names beside the decision. Refuses only if out of memory.
pub(crate) fn stamp_text(
    alloc: Global,
    version: Option<&str>,
    id: Option<&str>,
) -> Result<String, AllocError>
    ensures { IfOk result (λ s. string_bytes s ≡
        stamp_text (option_map (λ t. t.now) version.entry) (option_map (λ t. t.now) id.entry)) }
{
    let version = optional_quoted(alloc, ",\"version\":", version)?;
    let id = optional_quoted(alloc, ",\"requestId\":", id)?;
    format!(in alloc; "{version}{id}")
}

// ---- the request that an evaluation is

/// What is asked, as Cedar's own request. Refuses only if out of memory.
pub(crate) fn request_text<'v, 'a>(
    alloc: Global,
    item: Option<&'v Value<'a>>,
    whole: &'v Value<'a>,
) -> Result<String, AllocError>
    requires item { HaveNumbers (option_map (λ v. value_view v.now) item) }
    requires whole { HasNumbers (value_view whole.now) }
    ensures { IfOk result (λ s. string_bytes s ≡
        request_text (option_map (λ v. value_view v.now) item.entry) (value_view whole.now)) }
{
    let who = who_text(alloc, item, whole)?;
    let what = what_text(alloc, item, whole)?;
    format!(in alloc; "{who}{what}")
}

fn who_text<'v, 'a>(
    alloc: Global,
    item: Option<&'v Value<'a>>,
    whole: &'v Value<'a>,
) -> Result<String, AllocError>
    requires item { HaveNumbers (option_map (λ v. value_view v.now) item) }
    requires whole { HasNumbers (value_view whole.now) }
    ensures { IfOk result (λ s. string_bytes s ≡
        who_text (option_map (λ v. value_view v.now) item.entry) (value_view whole.now)) }
{
    let principal = entity_in(alloc, item, whole, "subject")?;
    let action = action_in(alloc, item, whole)?;
    let open = "{\"principal\":";
    let done = ",\"action\":";
    format!(in alloc; "{open}{principal}{done}{action}")
}

fn what_text<'v, 'a>(
    alloc: Global,
    item: Option<&'v Value<'a>>,
    whole: &'v Value<'a>,
) -> Result<String, AllocError>
    requires item { HaveNumbers (option_map (λ v. value_view v.now) item) }
    requires whole { HasNumbers (value_view whole.now) }
    ensures { IfOk result (λ s. string_bytes s ≡
        what_text (option_map (λ v. value_view v.now) item.entry) (value_view whole.now)) }
{
    let resource = entity_in(alloc, item, whole, "resource")?;
    let context = context_in(alloc, item, whole)?;
    let entities = entities_in(alloc, item, whole)?;
    let used = ",\"resource\":";
    let within = ",\"context\":";
    let close = "}";
    format!(in alloc; "{used}{resource}{within}{context}{entities}{close}")
}

fn entity_in<'v, 'a>(
    alloc: Global,
    item: Option<&'v Value<'a>>,
    whole: &'v Value<'a>,
    name: &str,
) -> Result<String, AllocError>
    requires item { HaveNumbers (option_map (λ v. value_view v.now) item) }
    requires whole { HasNumbers (value_view whole.now) }
    ensures { IfOk result (λ s. string_bytes s ≡
        entity_text (part name.now (option_map (λ v. value_view v.now) item.entry) (value_view whole.now))) }
{
    entity_text(alloc, part(item, whole, name))
}

fn action_in<'v, 'a>(
    alloc: Global,
    item: Option<&'v Value<'a>>,
    whole: &'v Value<'a>,
) -> Result<String, AllocError>
    requires item { HaveNumbers (option_map (λ v. value_view v.now) item) }
    requires whole { HasNumbers (value_view whole.now) }
    ensures { IfOk result (λ s. string_bytes s ≡ action_text
        (part (codes "action") (option_map (λ v. value_view v.now) item.entry) (value_view whole.now))) }
{
    action_text(alloc, part(item, whole, "action"))
}

fn context_in<'v, 'a>(
    alloc: Global,
    item: Option<&'v Value<'a>>,
    whole: &'v Value<'a>,
) -> Result<String, AllocError>
    requires item { HaveNumbers (option_map (λ v. value_view v.now) item) }
    requires whole { HasNumbers (value_view whole.now) }
    ensures { IfOk result (λ s. string_bytes s ≡ context_text
        (part (codes "context") (option_map (λ v. value_view v.now) item.entry) (value_view whole.now))) }
{
    context_text(alloc, part(item, whole, "context"))
}

fn entities_in<'v, 'a>(
    alloc: Global,
    item: Option<&'v Value<'a>>,
    whole: &'v Value<'a>,
) -> Result<String, AllocError>
    requires item { HaveNumbers (option_map (λ v. value_view v.now) item) }
    requires whole { HasNumbers (value_view whole.now) }
    ensures { IfOk result (λ s. string_bytes s ≡ optional_text (codes ",\"entities\":")
        (part (codes "entities") (option_map (λ v. value_view v.now) item.entry) (value_view whole.now))) }
{
    optional_text(alloc, ",\"entities\":", part(item, whole, "entities"))
}

fn entity_text(alloc: Global, entity: Option<&Value<'_>>) -> Result<String, AllocError>
    requires { HaveNumbers (option_map (λ v. value_view v.now) entity) }
    ensures { IfOk result (λ s. string_bytes s ≡ entity_text (option_map (λ v. value_view v.now) entity.entry)) }
{
    let type_name = found_text(alloc, within(entity, "type"))?;
    let id = found_text(alloc, within(entity, "id"))?;
    let properties = properties_text(alloc, entity)?;
    let open = "{\"type\":";
    let between = ",\"id\":";
    let close = "}";
    format!(in alloc; "{open}{type_name}{between}{id}{properties}{close}")
}

fn action_text(alloc: Global, action: Option<&Value<'_>>) -> Result<String, AllocError>
    requires { HaveNumbers (option_map (λ v. value_view v.now) action) }
    ensures { IfOk result (λ s. string_bytes s ≡ action_text (option_map (λ v. value_view v.now) action.entry)) }
{
    let name = found_text(alloc, within(action, "name"))?;
    let properties = properties_text(alloc, action)?;
    let open = "{\"type\":\"Action\",\"id\":";
    let close = "}";
    format!(in alloc; "{open}{name}{properties}{close}")
}

fn properties_text(alloc: Global, entity: Option<&Value<'_>>) -> Result<String, AllocError>
    requires { HaveNumbers (option_map (λ v. value_view v.now) entity) }
    ensures { IfOk result (λ s.
        string_bytes s ≡ properties_text (option_map (λ v. value_view v.now) entity.entry)) }
{
    optional_text(
        alloc,
        ",\"properties\":",
        given(within(entity, "properties")),
    )
}

fn context_text(alloc: Global, context: Option<&Value<'_>>) -> Result<String, AllocError>
    requires { HaveNumbers (option_map (λ v. value_view v.now) context) }
    ensures { IfOk result (λ s. string_bytes s ≡ context_text (option_map (λ v. value_view v.now) context.entry)) }
{
    match context {
        Some(context) => value_text(alloc, context),
        None => String::from_str(alloc, "{}"),
    }
}
