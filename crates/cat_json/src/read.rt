//! Reading values of JSON.

ghost use Rattle.std.specs.Prelude.{◌≡◌, IfErr, IfOk, Option, option_map};
ghost use Rattle.serde_json.specs.Data.{Data};
ghost use Rattle.serde_json.specs.Read.{read};
ghost use Rattle.serde_json.specs.Find.{get};
ghost use Rattle.serde_json.specs.View.{view, items_view, members_view};
ghost use Rattle.cat_json.specs.Reading.{Gives, GivesView, GivesValue, json_of, body_as, present, absent, required, optional, defaulted, items_as, list_as, members_as, map_as, Ascends};

use crate::fault::JsonFault;
use cat_codes::ascending::Ascending;
use cat_codes::seq::Seq;
use cat_codes::text::Text;
use serde_json::{Map, Value};
use std::alloc::Global;

/// How values are read from JSON. A type of this crate or below is its own form; a form of a type
/// from elsewhere is a unit struct.
pub trait ReadForm {
    /// The type of the values.
    type Of: Drop;

    ghost reads: { Data → Option Self.Of };

    /// The value that the data stands for.
    fn from_json(alloc: Global, value: &Value) -> Result<Self::Of, JsonFault>
        ensures { Gives result (reads (view value.now)) };
}

fn parse_text(alloc: Global, text: &str) -> Result<Value, JsonFault>
    ensures { GivesValue result (read text.now) }
{
    match Value::from_str(alloc, text) {
        Ok(value) => Ok(value),
        Err(error) if error.is_memory() => Err(JsonFault::NoMemory),
        Err(_) => Err(JsonFault::Bad),
    }
}

#[tactic(auto, using(crate::proofs::Utf8::utf8))]
fn parse(alloc: Global, bytes: &[u8]) -> Result<Value, JsonFault>
    ensures { GivesValue result (json_of bytes.now) }
{
    match str::from_utf8(bytes) {
        Ok(text) => parse_text(alloc, text),
        Err(_) => Err(JsonFault::Bad),
    }
}

/// The value that bytes of JSON stand for: UTF-8, with at most 127 levels of arrays and objects.
pub fn from_bytes<F: ReadForm>(alloc: Global, bytes: &[u8]) -> Result<F::Of, JsonFault>
    ensures { Gives result (body_as F.reads bytes.now) }
{
    let value = parse(alloc, bytes)?;
    F::from_json(alloc, &value)
}

/// A member that must be there, read by a form.
pub fn required<F: ReadForm>(alloc: Global, value: &Value, name: &str) -> Result<F::Of, JsonFault>
    ensures { Gives result (required F.reads name.now (view value.now)) }
{
    match value.get(name) {
        Some(found) => F::from_json(alloc, found),
        None => Err(JsonFault::Bad),
    }
}

/// A member that must be there, as it stands. It wants no memory.
pub fn member<'a>(value: &'a Value, name: &str) -> Result<&'a Value, JsonFault>
    ensures view { GivesView result (get name.now (view value.now)) }
    ensures fault { IfErr result (λ e. e ≡ JsonFault.Bad) }
{
    match value.get(name) {
        Some(found) => Ok(found),
        None => Err(JsonFault::Bad),
    }
}

/// A member as it stands, unless it is absent or null.
pub fn present<'a>(value: &'a Value, name: &str) -> Option<&'a Value>
    ensures { option_map (λ v. view v.now) result ≡ present (get name.now (view value.now)) }
{
    match value.get(name) {
        None => None,
        Some(Value::Null) => None,
        Some(found) => Some(found),
    }
}

/// A member that must be absent or null. It wants no memory.
pub fn absent(value: &Value, name: &str) -> Result<(), JsonFault>
    ensures test { Gives result (absent name.now (view value.now)) }
    ensures fault { IfErr result (λ e. e ≡ JsonFault.Bad) }
{
    match present(value, name) {
        None => Ok(()),
        Some(_) => Err(JsonFault::Bad),
    }
}

/// A member that is read by a form unless it is absent or null.
pub fn optional<F: ReadForm>(
    alloc: Global,
    value: &Value,
    name: &str,
) -> Result<Option<F::Of>, JsonFault>
    ensures { Gives result (optional F.reads name.now (view value.now)) }
{
    match present(value, name) {
        Some(found) => Ok(Some(F::from_json(alloc, found)?)),
        None => Ok(None),
    }
}

/// A member that is read by a form, and stands for the default where it is absent or null.
pub fn defaulted<F: ReadForm>(
    alloc: Global,
    value: &Value,
    name: &str,
    default: F::Of,
) -> Result<F::Of, JsonFault>
    ensures { Gives result (defaulted F.reads default name.now (view value.now)) }
{
    Ok(optional::<F>(alloc, value, name)?.unwrap_or(default))
}

fn items<F: ReadForm>(alloc: Global, values: &[Value]) -> Result<Seq<F::Of>, JsonFault>
    ensures { Gives result (items_as F.reads (items_view values.now)) }
{
    let mut items = Seq::new(alloc);
    for value in values {
        let item = F::from_json(alloc, value)?;
        items.push(item)?;
    }
    Ok(items)
}

/// An array, each of whose items the form reads.
impl<F: ReadForm> ReadForm for Seq<F> {
    type Of = Seq<F::Of>;

    ghost reads = { list_as F.reads };

    fn from_json(alloc: Global, value: &Value) -> Result<Seq<F::Of>, JsonFault> {
        match value.as_array() {
            Some(values) => items::<F>(alloc, values),
            None => Err(JsonFault::Bad),
        }
    }
}

/// The members in the order of their names, each read by the form.
fn pairs<F: ReadForm>(
    alloc: Global,
    members: &Map<String, Value>,
) -> Result<Seq<(Text, F::Of)>, JsonFault>
    ensures value { Gives result (members_as F.reads (members_view members.now.entries)) }
    ensures ascending { IfOk result Ascends }
{
    let mut pairs = Seq::new(alloc);
    for (name, found) in members.iter() {
        let value = F::from_json(alloc, found)?;
        pairs.push((Text::from_str(alloc, name.as_str())?, value))?;
    }
    Ok(pairs)
}

fn map<F: ReadForm>(
    alloc: Global,
    members: &Map<String, Value>,
) -> Result<Ascending<Text, F::Of>, JsonFault>
    ensures { Gives result (members_as F.reads (members_view members.now.entries)) }
{
    match Ascending::from_seq(pairs::<F>(alloc, members)?) {
        Some(map) => Ok(map),
        // the names of an object ascend
        None => unreachable!(),
    }
}

/// An object, each of whose members the form reads.
impl<F: ReadForm> ReadForm for Ascending<Text, F> {
    type Of = Ascending<Text, F::Of>;

    ghost reads = { map_as F.reads };

    fn from_json(alloc: Global, value: &Value) -> Result<Ascending<Text, F::Of>, JsonFault> {
        match value.as_object() {
            Some(members) => map::<F>(alloc, members),
            None => Err(JsonFault::Bad),
        }
    }
}
