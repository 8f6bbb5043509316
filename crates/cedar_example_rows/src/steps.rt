//! The values that steps give to unknowns.
use crate::entities::literal;
use cedar_layers::expressions::Value;
use std::alloc::{AllocError, Global};
use std::collections::HashMap;
use std::rc::RcStr;

/// The unknown of this name is true, or false.
pub fn truth_of(
    alloc: Global,
    name: &str,
    is_true: bool,
) -> Result<HashMap<RcStr, Value>, AllocError> {
    let mut map: HashMap<RcStr, Value> = HashMap::new(alloc);
    put(alloc, &mut map, name, Value::from(is_true))?;
    Ok(map)
}

/// The unknown of this name is this number.
pub fn number_of(
    alloc: Global,
    name: &str,
    number: i64,
) -> Result<HashMap<RcStr, Value>, AllocError> {
    let mut map: HashMap<RcStr, Value> = HashMap::new(alloc);
    put(alloc, &mut map, name, Value::from(number))?;
    Ok(map)
}

/// The resource is `NS::"b"`.
pub fn resource_is_b(alloc: Global) -> Result<HashMap<RcStr, Value>, AllocError> {
    let mut map: HashMap<RcStr, Value> = HashMap::new(alloc);
    let b = Value::from(literal(alloc, "NS", "b")?);
    put(alloc, &mut map, "resource", b)?;
    Ok(map)
}

/// `c` is true, and `d` is 10.
pub fn c_and_d(alloc: Global) -> Result<HashMap<RcStr, Value>, AllocError> {
    let mut map = truth_of(alloc, "c", true)?;
    put(alloc, &mut map, "d", Value::from(10))?;
    Ok(map)
}

/// The principal is `E::"e"`, and `u` is 1.
pub fn principal_and_u(alloc: Global) -> Result<HashMap<RcStr, Value>, AllocError> {
    let mut map = number_of(alloc, "u", 1)?;
    let e = Value::from(literal(alloc, "E", "e")?);
    put(alloc, &mut map, "principal", e)?;
    Ok(map)
}

// Puts the value into the map, under this name.
fn put<V: Drop>(
    alloc: Global,
    map: &mut HashMap<RcStr, V>,
    name: &str,
    value: V,
) -> Result<(), AllocError> {
    map.insert(RcStr::from_str(alloc, name)?, value)?;
    Ok(())
}
