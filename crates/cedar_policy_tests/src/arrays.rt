//! Tests, one after another.
ghost use Rattle.std.specs.Prelude.{◌≡◌, ◌++◌, ◌∷◌, [], map, IfOk, IfSome, OnOk, option_map};
ghost use Rattle.json.specs.Tree.{HasNumbers};
ghost use Rattle.json.specs.Value.{value_view, items_view};
ghost use Rattle.cedar_policy_tests.specs.Said as specs;
ghost use Rattle.cedar_policy_tests.specs.Views.{test_view, tests_view};
ghost use Rattle.cedar_policy_tests.specs.Written.{AreWritable};

use crate::reading::{PolicyTest, test_in};
use crate::values::items_in;
use json::Value;
use std::alloc::{AllocError, Global};

/// The tests of which the value is an array, in order. None, where it is no array, or an item of it is no test. Their
/// requests and entities can be written, where the value can. Refuses only if out of memory.
pub fn tests_in<'v, 'a>(
    alloc: Global,
    value: &'v Value<'a>,
) -> Result<Option<Vec<PolicyTest<'v, 'a>>>, AllocError>
    ensures said { IfOk result (λ o. option_map tests_view o ≡ specs.tests_in (value_view value.now)) }
    ensures writable { IfOk result
        (λ o. IfSome o (λ v. HasNumbers (value_view value.now) → AreWritable (tests_view v))) }
{
    match items_in(value) {
        Some(items) => tests_of(alloc, items),
        None => Ok(None),
    }
}

fn tests_of<'v, 'a>(
    alloc: Global,
    items: &'v Vec<Value<'a>>,
) -> Result<Option<Vec<PolicyTest<'v, 'a>>>, AllocError>
    ensures { IfOk result (λ o. option_map tests_view o ≡ specs.item_tests (items_view items.now.items)) }
{
    let mut tests: Vec<PolicyTest<'v, 'a>> = Vec::new(alloc);
    'items: for item in items {
        match test_in(item) {
            Some(test) => put(test, &mut tests)?,
            None => return Ok(None),
        }
    }
    Ok(Some(tests))
}

fn put<'v, 'a>(
    test: PolicyTest<'v, 'a>,
    tests: &mut Vec<PolicyTest<'v, 'a>>,
) -> Result<(), AllocError>
    ensures { OnOk result (tests_view tests.new ≡ tests_view tests.old ++ test_view test.entry ∷ []) }
{
    match tests.push(test) {
        Ok(()) => Ok(()),
        Err(_) => Err(AllocError),
    }
}
