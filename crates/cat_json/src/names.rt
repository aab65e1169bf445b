//! Forms of hashes, ids and keys.

ghost use Rattle.std.specs.Prelude.{refl};
ghost use Rattle.cat_json.specs.Names.{key_as, hash_as, id_as, BecomesFault, hash_data, id_data, key_data, no_float_key};

use crate::fault::JsonFault;
use crate::read::{ReadForm, required};
use crate::write::{Object, WriteForm, list};
use cat_codes::fault::NoMemory;
use cat_codes::seq::Seq;
use cat_codes::text::Text;
use cat_names::hash::{ContentId, Hash};
use cat_names::key::{ContentKey, Element};
use cat_names::key_fault::KeyFault;
use serde_json::Value;
use std::alloc::Global;
use uuid::Uuid;

/// 64 hexadecimal digits of either case; written in lower case.
impl ReadForm for Hash {
    type Of = Hash;

    ghost reads = { hash_as };

    fn from_json(_alloc: Global, value: &Value) -> Result<Hash, JsonFault> {
        match value.as_str().and_then(Hash::parse) {
            Some(hash) => Ok(hash),
            None => Err(JsonFault::Bad),
        }
    }
}

impl WriteForm for Hash {
    type Of = Hash;

    ghost writes = { hash_data };

    ghost no_float = { λ _. refl };

    fn to_json(alloc: Global, value: &Hash) -> Result<Value, NoMemory> {
        Ok(Value::String(hex::encode(alloc, value.bytes.as_slice())?))
    }
}

/// A text that `uuid` reads; written in hyphenated lower case.
impl ReadForm for ContentId {
    type Of = ContentId;

    ghost reads = { id_as };

    fn from_json(_alloc: Global, value: &Value) -> Result<ContentId, JsonFault> {
        match value.as_str().and_then(ContentId::parse) {
            Some(id) => Ok(id),
            None => Err(JsonFault::Bad),
        }
    }
}

impl WriteForm for ContentId {
    type Of = ContentId;

    ghost writes = { id_data };

    ghost no_float = { λ _. refl };

    fn to_json(alloc: Global, value: &ContentId) -> Result<Value, NoMemory> {
        let mut buffer = Uuid::encode_buffer();
        let text = Uuid::from_bytes(value.bytes)
            .hyphenated()
            .encode_lower(&mut buffer);
        Ok(Value::String(String::from_str(alloc, text)?))
    }
}

impl From<KeyFault> for JsonFault {
    ghost from_gives = { BecomesFault };

    fn from(e: KeyFault) -> JsonFault {
        match e {
            KeyFault::NoMemory => JsonFault::NoMemory,
            _ => JsonFault::Bad,
        }
    }
}

/// An object whose member `elements` is an array of texts.
impl ReadForm for ContentKey {
    type Of = ContentKey;

    ghost reads = { key_as };

    fn from_json(alloc: Global, value: &Value) -> Result<ContentKey, JsonFault> {
        let elements = required::<Seq<Text>>(alloc, value, "elements")?;
        Ok(ContentKey::new(alloc, elements)?)
    }
}

impl WriteForm for Element {
    type Of = Element;

    ghost use Rattle.serde_json.specs.Data.{string};

    ghost writes = { string };

    ghost no_float = { λ _. refl };

    fn to_json(alloc: Global, value: &Element) -> Result<Value, NoMemory> {
        Ok(Value::String(String::from_str(alloc, value.as_str())?))
    }
}

impl WriteForm for ContentKey {
    type Of = ContentKey;

    ghost writes = { key_data };

    ghost no_float = { no_float_key };

    fn to_json(alloc: Global, value: &ContentKey) -> Result<Value, NoMemory> {
        let elements = list::<Element>(alloc, value.elements())?;
        Ok(
            Object::new(alloc)
                .with_value("elements", elements)?
                .into_value(),
        )
    }
}
