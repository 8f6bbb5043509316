//! How policies are called.
ghost use Rattle.std.specs.Prelude.{◌≡◌, IfOk, string_bytes, option_copied};
ghost use Rattle.cedar_layers.specs.Policies.{policy_view, policy_id_text};
ghost use Rattle.cedar_explain_printer.specs.Names.{annotated, policy_name};

use cedar_layers::policies::{Policy, PolicyID};
use std::alloc::{AllocError, Global};

// How the policy is called: by its annotation `id` or, where it has none, by its id.
pub(crate) fn policy_name(alloc: Global, policy: &Policy) -> Result<String, AllocError>
    ensures { IfOk result (λ t. string_bytes t ≡ policy_name (policy_view policy.now)) }
{
    match annotated_id(policy) {
        Some(name) => String::from_str(alloc, name),
        None => id_text(alloc, policy.id()),
    }
}

fn id_text(alloc: Global, id: &PolicyID) -> Result<String, AllocError>
    ensures { IfOk result (λ t. string_bytes t ≡ policy_id_text id.now) }
{
    id.to_string(alloc)
}

// The policy's annotation `id`, if it has one.
fn annotated_id(policy: &Policy) -> Option<&str>
    ensures { option_copied result ≡ annotated (policy_view policy.now) }
{
    match policy.annotations_rc().0.get("id") {
        Some(name) => Some(name.as_str()),
        None => None,
    }
}
