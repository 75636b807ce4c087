//! The value of one formula, over the values of the cells that it reads.
ghost use Rattle.std.specs.Prelude.{◌≡◌, ◌++◌, ◌∷◌, [], OnOk, IfOk, unwrap_or, neg_ℤ, option_map};
ghost use Rattle.std.specs.Ordering.{nat_cmp};
ghost use Rattle.std.specs.BTreeMap.{get};
ghost use Rattle.std.specs.List.{fold};
ghost use Rattle.grid_formulas.specs.Places.{places_of, text_at};
ghost use Rattle.grid_formulas.specs.Reading.{is_formula};
ghost use Rattle.grid_formulas.specs.Sheets.{kept_value, kept_values, stored, values_over};
ghost use Rattle.grid_formulas.specs.Values.{after_step, as_number, fitted, operated, number_or_fault, operation_of, popped, sum_of, top, value_of_formula, with_cell, with_operation, with_right};

use crate::cells::{Node, text_at};
use crate::number::plain_value;
use crate::reader::is_formula;
use crate::{Span, Step, Value};
use grid_sheet::Grid;
use std::alloc::{AllocError, Global};
use std::collections::BTreeMap;

/// The value of the cell at a place. Values in `after` hide those in `nodes`.
pub fn value_at(
    grid: &Grid,
    nodes: &BTreeMap<usize, Node>,
    after: &BTreeMap<usize, Value>,
    place: usize,
) -> Value
    ensures { result ≡ values_over grid.now (get nat_cmp nodes.now) (get nat_cmp after.now) place }
{
    let text = text_at(grid, place);
    if !is_formula(text) {
        return plain_value(text);
    }
    match after.get(&place) {
        Some(value) => *value,
        None => kept_value(nodes, place),
    }
}

/// The value of the cell at a place, as it is kept.
pub fn value_now(grid: &Grid, nodes: &BTreeMap<usize, Node>, place: usize) -> Value
    ensures { result ≡ stored (text_at grid.now) (kept_values (get nat_cmp nodes.now)) place }
{
    let text = text_at(grid, place);
    if !is_formula(text) {
        return plain_value(text);
    }
    kept_value(nodes, place)
}

/// The value that is kept of the formula cell at a place.
pub fn kept_value(nodes: &BTreeMap<usize, Node>, place: usize) -> Value
    ensures { result ≡ kept_value (get nat_cmp nodes.now) place }
{
    match nodes.get(&place) {
        Some(node) => node.value,
        None => Value::Cycle,
    }
}

fn number_or_fault(number: Option<i128>) -> Value
    ensures { result ≡ number_or_fault number }
{
    match number {
        None => Value::NumberFault,
        Some(number) => Value::Number(number),
    }
}

fn exact(operation: &Step, a: i128, b: i128) -> Value
    ensures { result ≡ fitted (operation_of operation.now a b) }
{
    match operation {
        Step::Product => number_or_fault(a.checked_mul(b)),
        Step::Minus => number_or_fault(a.checked_sub(b)),
        _ => number_or_fault(a.checked_add(b)),
    }
}

fn operated(operation: &Step, a: Value, b: Value) -> Value
    ensures { result ≡ operated (operation_of operation.now) a b }
{
    match a {
        Value::Number(left) => match b {
            Value::Number(right) => exact(operation, left, right),
            fault => fault,
        },
        fault => fault,
    }
}

fn negative(a: Value) -> Value
    ensures { result ≡ with_right neg_ℤ a }
{
    match a {
        Value::Number(number) => number_or_fault(number.checked_neg()),
        fault => fault,
    }
}

fn as_number(value: Value) -> Value
    ensures { result ≡ as_number value }
{
    match value {
        Value::Empty => Value::Number(0),
        Value::Text => Value::KindFault,
        other => other,
    }
}

fn with_cell(total: Value, cell: Value) -> Value
    ensures { result ≡ with_cell total cell }
{
    match cell {
        Value::Empty | Value::Text => total,
        other => operated(&Step::Plus, total, other),
    }
}

fn sum_of(
    grid: &Grid,
    nodes: &BTreeMap<usize, Node>,
    after: &BTreeMap<usize, Value>,
    span: &Span,
) -> Value
    ensures { result ≡ sum_of (values_over grid.now (get nat_cmp nodes.now) (get nat_cmp after.now)) (places_of span.now) }
{
    let mut total = Value::Number(0);
    'cells: for n in 0..span.size {
        total = with_cell(total, value_at(grid, nodes, after, span.nth(n)));
    }
    total
}

// The last of the stack, which a formula's step always has.
fn pop(stack: &mut Vec<Value>) -> Value
    ensures top { result ≡ top stack.old.items }
    ensures rest { stack.new.items ≡ popped stack.old.items }
{
    match stack.pop() {
        None => Value::Empty,
        Some(value) => value,
    }
}

fn operate(stack: &mut Vec<Value>, operation: &Step) -> Result<(), AllocError>
    ensures { OnOk result (stack.new.items ≡ with_operation (operation_of operation.now) stack.old.items) }
{
    let right = pop(stack);
    let left = pop(stack);
    stack.push(operated(operation, left, right))?;
    Ok(())
}

fn negate(stack: &mut Vec<Value>) -> Result<(), AllocError>
    ensures { OnOk result (stack.new.items ≡ popped stack.old.items ++ with_right neg_ℤ (top stack.old.items) ∷ []) }
{
    let operand = pop(stack);
    stack.push(negative(operand))?;
    Ok(())
}

fn take_step(
    grid: &Grid,
    nodes: &BTreeMap<usize, Node>,
    after: &BTreeMap<usize, Value>,
    stack: &mut Vec<Value>,
    step: &Step,
) -> Result<(), AllocError>
    ensures { OnOk result (stack.new.items ≡ after_step (values_over grid.now (get nat_cmp nodes.now) (get nat_cmp after.now)) stack.old.items step.now) }
{
    let value = match step {
        Step::Digits(number) => Value::Number(*number),
        Step::Cell(place) => as_number(value_at(grid, nodes, after, *place as usize)),
        Step::Sum(span) => sum_of(grid, nodes, after, span),
        Step::Negative => return negate(stack),
        operation => return operate(stack, operation),
    };
    stack.push(value)?;
    Ok(())
}

fn value_of_steps(
    alloc: Global,
    grid: &Grid,
    nodes: &BTreeMap<usize, Node>,
    after: &BTreeMap<usize, Value>,
    steps: &[Step],
) -> Result<Value, AllocError>
    ensures { IfOk result (λ v. v ≡ top (fold (after_step (values_over grid.now (get nat_cmp nodes.now) (get nat_cmp after.now))) [] steps.now)) }
{
    let mut stack = Vec::new(alloc);
    'steps: for step in steps {
        take_step(grid, nodes, after, &mut stack, step)?;
    }
    Ok(pop(&mut stack))
}

/// The value of a formula.
#[tactic(auto, unfolding(crate::specs::Values::value_of_formula))]
pub fn value_of_formula(
    alloc: Global,
    grid: &Grid,
    nodes: &BTreeMap<usize, Node>,
    after: &BTreeMap<usize, Value>,
    formula: &Option<Vec<Step>>,
) -> Result<Value, AllocError>
    ensures { IfOk result (λ v. v ≡ value_of_formula (values_over grid.now (get nat_cmp nodes.now) (get nat_cmp after.now)) (option_map (λ steps. steps.items) formula.now)) }
{
    match formula {
        None => Ok(Value::NameFault),
        Some(steps) => value_of_steps(alloc, grid, nodes, after, steps),
    }
}
