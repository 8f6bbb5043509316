//! The annotations of a policy.
ghost use Rattle.std.specs.Prelude.{◌≡◌, ◌<◌, ◌∷◌, ◌++◌, [], List, Some, length, IfOk, IfErr};
ghost use Rattle.std.specs.Rc.{rc_str_bytes};
ghost use Rattle.cedar_text_lexer.specs.Values.{Stands};
ghost use Rattle.cedar_text_lexer.specs.Sequence as Tokens;
ghost use Rattle.cedar_text_syntax.specs.declared.policies.Annotation as declared;
ghost use Rattle.cedar_text_parser.specs.Reading.{IsWithin};
ghost use Rattle.cedar_text_parser.specs.PolicyReading.{AreAnnotated, IsValueAt};

use crate::source::Source;
use cedar_layers::policies::Annotations;
use cedar_text_lexer::errors::{Expected, ReadError};
use cedar_text_lexer::tokens::{Kind, Token};
use cedar_text_lexer::values;
use cedar_text_syntax::expected_at;
use cedar_text_syntax::policies::Annotation;
use std::alloc::Global;
use std::collections::BTreeMap;
use std::rc::RcStr;

/// The annotations that these tokens write.
pub(crate) fn annotations(
    alloc: Global,
    source: &Source,
    written: &[Annotation],
) -> Result<Annotations, ReadError>
    ensures ok { IfOk result (λ a. AreAnnotated source.now written.now a.0.entries) }
    ensures placed { IfErr result (IsWithin source.now.text) }
{
    let mut map: BTreeMap<RcStr, RcStr> = BTreeMap::new(alloc);
    for index in 0..written.len() {
        annotate(alloc, source, &mut map, written[index])?;
    }
    Ok(Annotations(map))
}

// Puts one annotation more into the map.
fn annotate(
    alloc: Global,
    source: &Source,
    map: &mut BTreeMap<RcStr, RcStr>,
    annotation: Annotation,
) -> Result<(), ReadError>
    ensures ok { (xs : List declared.Annotation) → IfOk result (λ _.
        AreAnnotated source.now xs map.old.entries →
        AreAnnotated source.now (xs ++ annotation ∷ []) map.new.entries) }
    ensures placed { IfErr result (IsWithin source.now.text) }
{
    let token = token_there(source, annotation.key)?;
    let key = RcStr::from_str(alloc, values::word(source.text(), token))?;
    if map.contains_key(&key) {
        return Err(ReadError::expected(Expected::NewKey, token));
    }
    let value = value(alloc, source, annotation.value)?;
    drop(map.insert(key, value)?);
    Ok(())
}

// The value of an annotation.
fn value(alloc: Global, source: &Source, written: Option<usize>) -> Result<RcStr, ReadError>
    ensures ok { IfOk result (λ v. IsValueAt source.now written (rc_str_bytes v)) }
    ensures placed { IfErr result (IsWithin source.now.text) }
{
    match written {
        Some(index) => value_at(alloc, source, index),
        None => Ok(RcStr::from_str(alloc, "")?),
    }
}

fn value_at(alloc: Global, source: &Source, index: usize) -> Result<RcStr, ReadError>
    ensures ok { IfOk result (λ v. IsValueAt source.now (Some index) (rc_str_bytes v)) }
    ensures placed { IfErr result (IsWithin source.now.text) }
{
    let token = token_there(source, index)?;
    match token.kind {
        Kind::Text => {
            let value = values::text_value(alloc, source.text(), token)?;
            Ok(RcStr::from_string(value)?)
        }
        _ => Err(ReadError::expected(Expected::Text, token)),
    }
}

// The token of this number.
fn token_there(source: &Source, index: usize) -> Result<Token, ReadError>
    ensures is { IfOk result (λ t. t ≡ Tokens.token_at source.now.tokens index) }
    ensures stands { IfOk result (λ t. Stands source.now.text t) }
    ensures within { IfOk result (λ t. index < length source.now.tokens) }
    ensures placed { IfErr result (IsWithin source.now.text) }
{
    if index < source.len() {
        Ok(source.token_at(index))
    } else {
        Err(expected_at(source.tokens(), index, Expected::Steps))
    }
}
