//! Values of the standard extensions, as they are written.
ghost use Rattle.std.specs.Prelude.{◌≡◌, [], ◌∷◌, codes, None, IfOk, true, false};
ghost use Rattle.std.specs.Rc.{rc_str_bytes};
ghost use Rattle.cedar_model.specs.Terms.{call};
ghost use Rattle.cedar_model.specs.Values.{extension_represented};
ghost use Rattle.cedar_model.specs.Shapes.{are_restricted, have_unknown};
ghost use Rattle.cedar_expressions.specs.View.{view, terms_view};
ghost use Rattle.cedar_extension_values.specs.Written.{text_alone, constructed, offset_from_epoch, epoch};

use crate::errors::parse_name;
use cedar_expressions::Expr;
use cedar_names::Literal;
use cedar_values::{ExtensionValue, Representation, Value, ValueKind};
use std::alloc::{AllocError, Global};
use std::rc::{Rc, RcStr};

/// The value of this extension type and key, written as the call `function("text")`, at no place. The only error is
/// out of memory.
pub fn construct_value(
    alloc: Global,
    type_name: &str,
    key: &[u8],
    function: &str,
    text: &RcStr,
) -> Result<Value, AllocError>
    ensures what { IfOk result (λ v.
        v.what ≡ constructed type_name.now key.now function.now (rc_str_bytes text.now)) }
    ensures inside { IfOk result (λ v. v.inside ≡ []) }
    ensures place { IfOk result (λ v. v.loc ≡ None) }
{
    let args = text_alone(alloc, text)?;
    extension_value(alloc, type_name, key, function, args)
}

/// The datetime of this key, written as the call `datetime("1970-01-01").offset(duration("text"))`, at no place. The
/// only error is out of memory.
pub fn offset_from_epoch(alloc: Global, key: &[u8], text: &RcStr) -> Result<Value, AllocError>
    ensures what { IfOk result (λ v. v.what ≡ offset_from_epoch key.now (rc_str_bytes text.now)) }
    ensures inside { IfOk result (λ v. v.inside ≡ []) }
    ensures place { IfOk result (λ v. v.loc ≡ None) }
{
    let epoch = RcStr::from_str(alloc, "1970-01-01")?;
    let mut args = Vec::new(alloc);
    args.push(call_on(alloc, "datetime", &epoch)?)?;
    args.push(call_on(alloc, "duration", text)?)?;
    extension_value(alloc, "datetime", key, "offset", args)
}

// The call `function("text")`.
fn call_on(alloc: Global, function: &str, text: &RcStr) -> Result<Expr, AllocError>
    ensures { IfOk result (λ e. view e ≡ call function.now (text_alone (rc_str_bytes text.now))) }
{
    let args = text_alone(alloc, text)?;
    Expr::call_extension_fn(alloc, parse_name(alloc, function)?, args)
}

// The text as an argument, alone.
fn text_alone(alloc: Global, text: &RcStr) -> Result<Vec<Expr>, AllocError>
    ensures { IfOk result (λ args. terms_view args.items ≡ text_alone (rc_str_bytes text.now)) }
{
    let mut args = Vec::new(alloc);
    args.push(Expr::val(Literal::String(text.clone()?)))?;
    Ok(args)
}

// The value of this type and key, written as the call of the function on these arguments.
fn extension_value(
    alloc: Global,
    type_name: &str,
    key: &[u8],
    function: &str,
    args: Vec<Expr>,
) -> Result<Value, AllocError>
    requires restricted { are_restricted (terms_view args.items) ≡ true }
    requires known { have_unknown (terms_view args.items) ≡ false }
    ensures what { IfOk result (λ v.
        v.what ≡ extension_represented type_name.now key.now function.now (terms_view args.items)) }
    ensures inside { IfOk result (λ v. v.inside ≡ []) }
    ensures place { IfOk result (λ v. v.loc ≡ None) }
{
    let representation = Representation::new(parse_name(alloc, function)?, Rc::new(alloc, args)?);
    let typename = parse_name(alloc, type_name)?;
    let key = Vec::from_slice(alloc, key)?;
    let value = Rc::new(
        alloc,
        ExtensionValue {
            typename,
            representation,
            key,
        },
    )?;
    Ok(Value::new(ValueKind::ExtensionValue(value), None))
}
