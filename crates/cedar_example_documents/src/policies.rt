//! The fifty policies.
use crate::stop::Stop;
use cedar_policy_core::ast::PolicySet;
use cedar_policy_core::extensions::Extensions;
use cedar_policy_core::parser::err::ReadError;
use cedar_policy_core::parser::{Functions, ParseError, parse_policies};
use std::alloc::Global;

/// How many levels deep policies are read; conditions are evaluated one level deeper.
pub const LEVELS: usize = 100;

/// Of `view` and `edit` SQL says every condition; of `print` not each permit, of `share` not each forbid.
const TEXT: &str = r#"
permit(principal, action == Action::"view", resource) when { resource.owner == principal };
permit(principal, action in Action::"read", resource) when { resource.public && resource.size < 100 };
permit(principal in Group::"staff", action in Action::"read", resource) when { resource.size < 200 };
permit(principal in Group::"staff", action == Action::"view", resource)
  when { !(resource.size < 900 && resource.public) };
permit(principal, action == Action::"view", resource)
  when { resource has status && resource.status == "open" && resource.size >= 700 };
permit(principal in Group::"guests", action == Action::"view", resource)
  when { resource.status == "it's late" || resource.size <= 40 };
permit(principal in Group::"staff", action in Action::"read", resource)
  when { resource has about && resource.about has level && resource.about.level < 2 };
permit(principal == User::"bob", action == Action::"view", resource)
  when { if resource.public then resource.size < 300 else resource.title == "say \"hi\"" };
permit(principal, action == Action::"view", resource == Document::"d'10");
permit(principal == User::"o'hara", action == Action::"view", resource)
  when { resource.about.region == "côte d'azur" };
permit(principal == User::"alice", action == Action::"view", resource)
  unless { resource.public || resource.about.level < 5 };
permit(principal == User::"carol", action == Action::"view", resource)
  when { !(resource.about.level > 3 && resource.status == "closed") && resource.title == "it's" };
permit(principal, action in [Action::"view", Action::"print"], resource is Document)
  when { resource.title == "plan" && resource.size == 17 };
permit(principal, action == Action::"view", resource) when { resource.owner == User::"o'hara" && resource.public };
permit(principal == User::"bob", action == Action::"view", resource) when { resource.title < 3 };
forbid(principal, action in Action::"read", resource)
  when { resource has status && resource.status == "secret" && resource.owner != principal };
forbid(principal in Group::"guests", action == Action::"view", resource) when { resource.about.level > 7 };
forbid(principal, action == Action::"view", resource) when { !(resource.public || resource.size < 950) };
forbid(principal == User::"bob", action in Action::"read", resource)
  unless { resource.public && resource.about.region != "us" };
forbid(principal == User::"carol", action == Action::"view", resource)
  when { 400 < resource.size && resource.size < 420 };
permit(principal, action == Action::"edit", resource) when { resource.owner == principal };
permit(principal in Group::"staff", action in Action::"write", resource)
  when { resource.status == "open" && resource.size < 500 };
permit(principal in Group::"staff", action == Action::"edit", resource)
  when { !(resource.public && resource.size > 100) };
permit(principal == User::"alice", action == Action::"edit", resource) when { resource.about.region == "eu" };
permit(principal == User::"bob", action == Action::"edit", resource) when { resource has size && resource.size > 800 };
permit(principal == User::"o'hara", action == Action::"edit", resource) when { resource.title == "draft ''2" };
permit(principal in Group::"guests", action == Action::"edit", resource)
  when { if resource has about then resource.about.level == 0 else resource.public };
permit(principal, action == Action::"edit", resource) when { context has ticket };
forbid(principal, action in Action::"write", resource) when { resource.status == "closed" };
forbid(principal in Group::"guests", action in Action::"write", resource)
  when { resource.public == true && resource.owner != principal };
forbid(principal, action == Action::"edit", resource) unless { resource.size < 980 };
forbid(principal in Group::"staff", action == Action::"edit", resource)
  when { !(resource.about.level < 8 || resource.status == "open") };
permit(principal, action == Action::"print", resource) when { resource.title like "draft*" };
permit(principal in Group::"guests", action == Action::"print", resource)
  when { resource.reviewers.contains(principal) };
permit(principal in Group::"staff", action == Action::"print", resource in Folder::"desk");
permit(principal, action == Action::"print", resource) when { resource.owner == principal };
permit(principal == User::"alice", action == Action::"print", resource)
  when { resource.title like "*it's*" && resource.size < 600 };
permit(principal == User::"bob", action == Action::"print", resource) when { resource.size + 1 < 50 };
permit(principal == User::"o'hara", action == Action::"print", resource) when { resource.hasTag("shown") };
forbid(principal in Group::"guests", action == Action::"print", resource) when { resource.size > 850 };
forbid(principal, action == Action::"print", resource) when { resource.about.level == 9 };
permit(principal, action == Action::"share", resource) when { resource.owner == principal };
permit(principal in Group::"staff", action == Action::"share", resource) when { resource.public };
permit(principal == User::"bob", action == Action::"share", resource in Folder::"inbox");
permit(principal == User::"alice", action == Action::"share", resource) when { resource.reviewers.isEmpty() };
permit(principal == User::"carol", action in Action::"write", resource) when { resource.owner.name == "bob" };
forbid(principal, action == Action::"share", resource in Folder::"archive");
forbid(principal in Group::"guests", action == Action::"share", resource)
  when { resource.owner in Group::"staff" && !resource.public };
forbid(principal in Group::"staff", action == Action::"share", resource)
  when { resource.status == "secret" || resource.title like "*'*" };
forbid(principal, action == Action::"share", resource) when { !(resource.size < 700 && resource.about.level < 7) };
"#;

/// The policies.
pub fn policies(alloc: Global, extensions: &Extensions<'_>) -> Result<PolicySet, Stop> {
    let functions = Functions::of(alloc, extensions)?;
    match parse_policies(alloc, TEXT, LEVELS, &functions) {
        Ok(parsed) => Ok(parsed.policies),
        Err(errors) => Err(refusal(&errors.first)),
    }
}

fn refusal(error: &ParseError) -> Stop {
    match error {
        ParseError::Read(ReadError::Memory) => Stop::Memory,
        _ => Stop::Policies,
    }
}
