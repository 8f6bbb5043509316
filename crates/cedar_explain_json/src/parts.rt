#![tactic(auto, using(cedar_json_writer::proofs::Trees::trees))]
//! The parts that decide a policy, as JSON.
ghost use Rattle.std.specs.Prelude.{◌≡◌, ◌≢◌, true, false, map, IfOk, OnOk};
ghost use Rattle.cedar_model.specs.Failures.{fails, out_of_memory};
ghost use Rattle.cedar_errors.specs.Answers.{value_answer};
ghost use Rattle.cedar_expressions.specs.View.{view};
ghost use Rattle.cedar_layers.specs.Policies.{slots_view};
ghost use Rattle.cedar_json_writer.specs.Trees.{json_view, members_seen};
ghost use Rattle.cedar_places.specs.Texts.{text_in};
ghost use Rattle.cedar_explain.specs.Reached.{IsReached};
ghost use Rattle.cedar_explain_json.specs.Operands.{terms_seen};
ghost use Rattle.cedar_explain_json.specs.Documents.{IsPartJson, IsOperandJson, operand_json};
ghost use Rattle.cedar_explain_json.specs.Documents.{AddsPart, AddsOperands, AddsOperand, IsArrayOfParts, IsArrayOfOperands};

use crate::members::{put_expression, put_place};
use crate::operands::operands_of;
use crate::words::{put_answer, put_part_outcome};
use cedar_errors::evaluator::err::EvaluationError;
use cedar_evaluator::evaluator::Evaluator;
use cedar_explain::Part;
use cedar_json_writer::{JsonValue, put_item, put_member};
use cedar_layers::expressions::{Expr, SlotEnv, Value};
use cedar_places::Places;
use std::alloc::{AllocError, Global};
use std::rc::RcStr;

// An array of the parts, in their order.
pub(crate) fn parts_to_json(
    alloc: Global,
    places: &Places<'_>,
    evaluator: &Evaluator<'_, '_>,
    slots: &SlotEnv,
    parts: &[Part],
    has_values: bool,
) -> Result<JsonValue, AllocError>
    ensures { IfOk result (λ j. IsArrayOfParts (text_in places.now) has_values
        (IsReached evaluator.now (slots_view slots.now)) parts.now (json_view j)) }
{
    let mut items: Vec<JsonValue> = Vec::new(alloc);
    'parts: for part in parts {
        add_part(
            alloc, places, evaluator, slots, part, has_values, &mut items,
        )?;
    }
    Ok(JsonValue::Array(items))
}

fn add_part(
    alloc: Global,
    places: &Places<'_>,
    evaluator: &Evaluator<'_, '_>,
    slots: &SlotEnv,
    part: &Part,
    has_values: bool,
    items: &mut Vec<JsonValue>,
) -> Result<(), AllocError>
    ensures { OnOk result (AddsPart (text_in places.now) has_values (IsReached evaluator.now (slots_view slots.now))
        part.now (map json_view items.old.items) (map json_view items.new.items)) }
{
    let item = part_to_json(alloc, places, evaluator, slots, part, has_values)?;
    put_item(item, items)?;
    Ok(())
}

fn part_to_json(
    alloc: Global,
    places: &Places<'_>,
    evaluator: &Evaluator<'_, '_>,
    slots: &SlotEnv,
    part: &Part,
    has_values: bool,
) -> Result<JsonValue, AllocError>
    ensures { IfOk result (λ j. IsPartJson (text_in places.now) has_values
        (IsReached evaluator.now (slots_view slots.now)) part.now (json_view j)) }
{
    let mut members: Vec<(RcStr, JsonValue)> = Vec::new(alloc);
    put_place(alloc, places, part.place().copied(), &mut members)?;
    put_expression(alloc, part.expression(), &mut members)?;
    put_part_outcome(alloc, part, has_values, &mut members)?;
    put_operands(
        alloc,
        evaluator,
        slots,
        part.expression(),
        has_values,
        &mut members,
    )?;
    Ok(JsonValue::Object(members))
}

// ---- operands

// Puts the operands of the part, and what each came to, at `operands`, unless values are left out.
fn put_operands(
    alloc: Global,
    evaluator: &Evaluator<'_, '_>,
    slots: &SlotEnv,
    part: &Expr,
    has_values: bool,
    members: &mut Vec<(RcStr, JsonValue)>,
) -> Result<(), AllocError>
    ensures { OnOk result (AddsOperands has_values (IsReached evaluator.now (slots_view slots.now)) (view part.now)
        (members_seen members.old.items) (members_seen members.new.items)) }
{
    if has_values {
        put_array(alloc, evaluator, slots, part, members)
    } else {
        Ok(())
    }
}

fn put_array(
    alloc: Global,
    evaluator: &Evaluator<'_, '_>,
    slots: &SlotEnv,
    part: &Expr,
    members: &mut Vec<(RcStr, JsonValue)>,
) -> Result<(), AllocError>
    ensures { OnOk result (AddsOperands true (IsReached evaluator.now (slots_view slots.now)) (view part.now)
        (members_seen members.old.items) (members_seen members.new.items)) }
{
    let operands = operands_of(alloc, part)?;
    let array = operands_to_json(alloc, evaluator, slots, &operands)?;
    put_member(alloc, "operands", array, members)?;
    Ok(())
}

fn operands_to_json(
    alloc: Global,
    evaluator: &Evaluator<'_, '_>,
    slots: &SlotEnv,
    operands: &[&Expr],
) -> Result<JsonValue, AllocError>
    ensures { IfOk result (λ j. IsArrayOfOperands (IsReached evaluator.now (slots_view slots.now))
        (terms_seen operands.now) (json_view j)) }
{
    let mut items: Vec<JsonValue> = Vec::new(alloc);
    'operands: for operand in operands {
        add_operand(alloc, evaluator, slots, operand, &mut items)?;
    }
    Ok(JsonValue::Array(items))
}

fn add_operand(
    alloc: Global,
    evaluator: &Evaluator<'_, '_>,
    slots: &SlotEnv,
    operand: &Expr,
    items: &mut Vec<JsonValue>,
) -> Result<(), AllocError>
    ensures { OnOk result (AddsOperand (IsReached evaluator.now (slots_view slots.now)) (view operand.now)
        (map json_view items.old.items) (map json_view items.new.items)) }
{
    let item = operand_to_json(alloc, evaluator, slots, operand)?;
    put_item(item, items)?;
    Ok(())
}

// The operand as Cedar's text, and what the evaluator answers for it by itself.
fn operand_to_json(
    alloc: Global,
    evaluator: &Evaluator<'_, '_>,
    slots: &SlotEnv,
    operand: &Expr,
) -> Result<JsonValue, AllocError>
    ensures { IfOk result (λ j. IsOperandJson (IsReached evaluator.now (slots_view slots.now)) (view operand.now)
        (json_view j)) }
{
    let answer = evaluator.interpret(alloc, operand, slots);
    let item = answered_to_json(alloc, operand, &answer);
    drop(answer);
    item
}

fn answered_to_json(
    alloc: Global,
    operand: &Expr,
    answer: &Result<Value, EvaluationError>,
) -> Result<JsonValue, AllocError>
    ensures written { IfOk result
        (λ j. json_view j ≡ operand_json (view operand.now) (value_answer answer.now)) }
    ensures memory { IfOk result (λ j. value_answer answer.now ≢ fails out_of_memory) }
{
    if is_out_of_memory(answer) {
        return Err(AllocError);
    }
    let mut members: Vec<(RcStr, JsonValue)> = Vec::new(alloc);
    put_expression(alloc, operand, &mut members)?;
    put_answer(alloc, answer, &mut members)?;
    Ok(JsonValue::Object(members))
}

// Whether memory ran out in the evaluation.
fn is_out_of_memory(answer: &Result<Value, EvaluationError>) -> bool
    ensures { result ≡ false → value_answer answer.now ≢ fails out_of_memory }
{
    match answer {
        Ok(_) => false,
        Err(error) => error.is_out_of_memory(),
    }
}
