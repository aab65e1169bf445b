//! Writing values of JSON.

ghost use Rattle.std.specs.Prelude.{◌≡◌, IfOk, option_map, false, string_bytes};
ghost use Rattle.serde_json.specs.Data.{Data, string, object, no_members};
ghost use Rattle.serde_json.specs.View.{view};
ghost use Rattle.serde_json.specs.Written.{has_float, compact_text};
ghost use Rattle.cat_json.specs.Writing.{◌+>◌, ◌+?>◌, held, list_data, map_data, no_float_list, no_float_map};

use cat_codes::ascending::Ascending;
use cat_codes::fault::NoMemory;
use cat_codes::seq::Seq;
use cat_codes::text::Text;
use serde_json::{Map, Value};
use std::alloc::Global;

/// How values are written as JSON. A type of this crate or below is its own form; a form of a type
/// from elsewhere is a unit struct.
pub trait WriteForm {
    /// The type of the values.
    type Of;

    ghost writes: { Self.Of → Data };

    /// The data of a value.
    fn to_json(alloc: Global, value: &Self::Of) -> Result<Value, NoMemory>
        ensures { IfOk result (λ v. view v ≡ writes value.now) };

    // so that the text is a function of the data
    ghost no_float: { (x : Self.Of) → has_float (writes x) ≡ false };
}

/// The compact text of a value: no blanks, and members in the order of their names' bytes.
pub fn to_text<F: WriteForm>(alloc: Global, value: &F::Of) -> Result<String, NoMemory>
    ensures { IfOk result (λ text. string_bytes text ≡ compact_text (F.writes value.now)) }
{
    let form = F::to_json(alloc, value)?;
    Ok(form.to_string(alloc)?)
}

/// An object that is being made, member by member. A member takes the place of one of its name.
#[derive(Drop)]
pub struct Object {
    /// The members so far.
    pub members: Map<String, Value>,
    /// What members are made in.
    pub alloc: Global,
}

impl Object {
    /// No members.
    pub fn new(alloc: Global) -> Object
        ensures { held result ≡ no_members }
    {
        Object {
            members: Map::new(alloc),
            alloc,
        }
    }

    /// One more member, written by a form.
    pub fn with<F: WriteForm>(self, name: &str, value: &F::Of) -> Result<Object, NoMemory>
        ensures { IfOk result (λ o. held o ≡ held self +> (name.now, F.writes value.now)) }
    {
        let value = F::to_json(self.alloc, value)?;
        self.with_value(name, value)
    }

    /// One more member where there is a value.
    pub fn with_some<F: WriteForm>(
        self,
        name: &str,
        value: &Option<F::Of>,
    ) -> Result<Object, NoMemory>
        ensures { IfOk result
            (λ o. held o ≡ held self +?> (name.now, option_map F.writes value.now)) }
    {
        match value {
            Some(value) => self.with::<F>(name, value),
            None => Ok(self),
        }
    }

    /// One more member that is a text.
    pub fn with_str(self, name: &str, text: &str) -> Result<Object, NoMemory>
        ensures { IfOk result (λ o. held o ≡ held self +> (name.now, string text.now)) }
    {
        let text = Value::String(String::from_str(self.alloc, text)?);
        self.with_value(name, text)
    }

    /// One more member, as it stands.
    pub fn with_value(self, name: &str, value: Value) -> Result<Object, NoMemory>
        ensures { IfOk result (λ o. held o ≡ held self +> (name.now, view value)) }
    {
        let Object { mut members, alloc } = self;
        serde_json::put(&mut members, alloc, name, value)?;
        Ok(Object { members, alloc })
    }

    /// The object.
    pub fn into_value(self) -> Value
        ensures { view result ≡ object (held self) }
    {
        let Object { members, .. } = self;
        Value::Object(members)
    }
}

/// An array of the items' data.
pub fn list<F: WriteForm>(alloc: Global, items: &[F::Of]) -> Result<Value, NoMemory>
    ensures { IfOk result (λ v. view v ≡ list_data F.writes items.now) }
{
    let mut list = Vec::new(alloc);
    for item in items {
        list.push(F::to_json(alloc, item)?)?;
    }
    Ok(Value::Array(list))
}

/// An array, each of whose items the form writes.
impl<F: WriteForm> WriteForm for Seq<F> {
    type Of = Seq<F::Of>;

    ghost writes = { list_data F.writes };

    ghost no_float = { no_float_list F.writes F.no_float };

    fn to_json(alloc: Global, value: &Seq<F::Of>) -> Result<Value, NoMemory> {
        list::<F>(alloc, value.as_slice())
    }
}

fn map<F: WriteForm>(alloc: Global, pairs: &[(Text, F::Of)]) -> Result<Value, NoMemory>
    ensures { IfOk result (λ v. view v ≡ map_data F.writes pairs.now) }
{
    let mut members = Map::new(alloc);
    for (name, value) in pairs {
        serde_json::put(
            &mut members,
            alloc,
            name.as_str(),
            F::to_json(alloc, value)?,
        )?;
    }
    Ok(Value::Object(members))
}

/// An object with a member for each pair, written by the form.
impl<F: WriteForm> WriteForm for Ascending<Text, F> {
    type Of = Ascending<Text, F::Of>;

    ghost writes = { map_data F.writes };

    ghost no_float = { no_float_map F.writes F.no_float };

    fn to_json(alloc: Global, value: &Ascending<Text, F::Of>) -> Result<Value, NoMemory> {
        map::<F>(alloc, value.as_slice())
    }
}
