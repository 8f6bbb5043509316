//! What holds of Cedar's JSON of policies, as `cedar_policy_json_writer` writes it and `cedar_policy_json_reader` reads
//! it.
//!
//! - `laws`: functions that do nothing, of which each is a law by its contract.
//! - `specs/Back.antt`: which expressions can be read (`IsReadable`), and that they and annotations read back
//!   (`ExpressionReadsBack`, `AnnotationsReadBack`).
//! - `specs/Policies.antt`: the same of scopes, policies and templates (`ScopeReadsBack`, `PolicyReadsBack`,
//!   `TemplateReadsBack`); `specs/PolicySets.antt`: of sets (`PolicySetReadsBack`); `specs/Conditions.antt`: of
//!   policies with a constraint that no scope has (`AnyPolicyReadsBack`, `ConditionsMeanTheSame`).
//! - `specs/Samples.antt`: policies and a set that can be read.
//!
//! The promise: an expression that is written reads back as itself, within as many levels as it has, where the
//! functions that it calls are known and go by no operator's name, where names of types are names, longs of 64 bits,
//! characters of patterns characters, and the keys of records in order, and where no slot stands in it; and annotations
//! do, where their keys are words in the order of their bytes. A policy or a template that is written reads back as
//! itself, under its id, where its three constraints stand in the scope and each part reads back; a policy that is
//! linked, with the entities instead of its slots; and a set of them, where no id is a duplicate, with the policies
//! that its links make. A constraint that no scope has is written as a condition, and reads back in the policy's
//! condition, which then means the same.
#![tactic(auto)]

pub mod laws;
