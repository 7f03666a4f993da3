//! The form of one node of an expression.
ghost use Rattle.std.specs.Prelude.{◌≡◌, map, option_map};
ghost use Rattle.serde_json.specs.View.{view};
ghost use Rattle.prim_table.specs.declared.tables.PrimId.TheVariants as prim;
ghost use Rattle.expr_text.specs.Forms.{applied, args_of, call_of, column_of, form_of, form_view, name_in, number_of, primitive_of, text_of};

use crate::fields::has_only;
use json_fields::list_of;
use prim_table::{PrimId, find};
use serde_json::Value;

/// The most bytes of a text.
const MAX_TEXT: usize = 255;

/// One node of an expression, with the arguments of a call.
pub enum Form<'v> {
    Col(u8),
    Int(i64),
    Text(&'v str),
    One(u8, &'v Value),
    Two(u8, &'v Value, &'v Value),
    Three(u8, &'v Value, &'v Value, &'v Value),
}

/// The form of an object that has the fields of one form and no other.
#[tactic(auto, unfolding(crate::specs::Forms::form_of))]
pub fn node(value: &Value) -> Option<Form<'_>>
    ensures { option_map form_view result ≡ form_of (view value.now) }
{
    let members = value.as_object()?;
    if has_only(members, &["col"]) {
        column(value)
    } else if has_only(members, &["int"]) {
        number(value)
    } else if has_only(members, &["text"]) {
        text(value)
    } else if has_only(members, &["call", "args"]) {
        call(value)
    } else {
        None
    }
}

fn column(value: &Value) -> Option<Form<'_>>
    ensures { option_map form_view result ≡ column_of (view value.now) }
{
    match value.get("col").and_then(Value::as_u64) {
        Some(column) if column <= 255 => Some(Form::Col(column as u8)),
        _ => None,
    }
}

fn number(value: &Value) -> Option<Form<'_>>
    ensures { option_map form_view result ≡ number_of (view value.now) }
{
    match value.get("int").and_then(Value::as_i64) {
        Some(number) => Some(Form::Int(number)),
        None => None,
    }
}

fn text(value: &Value) -> Option<Form<'_>>
    ensures { option_map form_view result ≡ text_of (view value.now) }
{
    match value.get("text").and_then(Value::as_str) {
        Some(text) if text.len() <= MAX_TEXT => Some(Form::Text(text)),
        _ => None,
    }
}

fn call(value: &Value) -> Option<Form<'_>>
    ensures { option_map form_view result ≡ call_of (view value.now) }
{
    let primitive = primitive(value)?;
    applied(primitive, args(value)?)
}

// The primitive that a call names.
#[tactic(auto, unfolding(crate::specs::Forms::primitive_of))]
fn primitive(value: &Value) -> Option<PrimId>
    ensures { result ≡ primitive_of (view value.now) }
{
    match name(value) {
        Some(name) => find(name.as_bytes()),
        None => None,
    }
}

fn name(value: &Value) -> Option<&str>
    ensures { option_map (λ text. text.now) result ≡ name_in (view value.now) }
{
    value.get("call").and_then(Value::as_str)
}

// The arguments of a call.
#[tactic(auto, unfolding(crate::specs::Forms::args_of))]
fn args(value: &Value) -> Option<&[Value]>
    ensures { option_map (λ list. map view list.now) result ≡ args_of (view value.now) }
{
    value.get("args").and_then(list_of)
}

// The primitive with as many arguments as it takes.
fn applied(primitive: PrimId, args: &[Value]) -> Option<Form<'_>>
    ensures { option_map form_view result ≡ applied primitive (map view args.now) }
{
    match primitive {
        PrimId::One(at) => applied_to_one(at, args),
        PrimId::Two(at) => applied_to_two(at, args),
        PrimId::Three(at) => applied_to_three(at, args),
    }
}

fn applied_to_one(at: u8, args: &[Value]) -> Option<Form<'_>>
    ensures { option_map form_view result ≡ applied (prim.One at) (map view args.now) }
{
    match args {
        [a] => Some(Form::One(at, a)),
        _ => None,
    }
}

fn applied_to_two(at: u8, args: &[Value]) -> Option<Form<'_>>
    ensures { option_map form_view result ≡ applied (prim.Two at) (map view args.now) }
{
    match args {
        [a, b] => Some(Form::Two(at, a, b)),
        _ => None,
    }
}

fn applied_to_three(at: u8, args: &[Value]) -> Option<Form<'_>>
    ensures { option_map form_view result ≡ applied (prim.Three at) (map view args.now) }
{
    match args {
        [a, b, c] => Some(Form::Three(at, a, b, c)),
        _ => None,
    }
}
