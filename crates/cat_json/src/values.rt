//! Forms of texts, booleans and numbers.

ghost use Rattle.std.specs.Prelude.{refl};
ghost use Rattle.serde_json.specs.Data.{string, boolean};
ghost use Rattle.serde_json.specs.Find.{as_str, as_bool};
ghost use Rattle.cat_json.specs.Numbers.{natural, small_natural, integer, small_integer, natural_data, integer_data, no_float_integer};

use crate::fault::JsonFault;
use crate::read::ReadForm;
use crate::write::WriteForm;
use cat_codes::fault::NoMemory;
use cat_codes::text::Text;
use serde_json::Value;
use std::alloc::Global;

impl ReadForm for Text {
    type Of = Text;

    ghost reads = { as_str };

    fn from_json(alloc: Global, value: &Value) -> Result<Text, JsonFault> {
        match value.as_str() {
            Some(text) => Ok(Text::from_str(alloc, text)?),
            None => Err(JsonFault::Bad),
        }
    }
}

impl WriteForm for Text {
    type Of = Text;

    ghost writes = { string };

    ghost no_float = { λ _. refl };

    fn to_json(alloc: Global, value: &Text) -> Result<Value, NoMemory> {
        Ok(Value::String(String::from_str(alloc, value.as_str())?))
    }
}

impl ReadForm for bool {
    type Of = bool;

    ghost reads = { as_bool };

    fn from_json(_alloc: Global, value: &Value) -> Result<bool, JsonFault> {
        match value.as_bool() {
            Some(is) => Ok(is),
            None => Err(JsonFault::Bad),
        }
    }
}

impl WriteForm for bool {
    type Of = bool;

    ghost writes = { boolean };

    ghost no_float = { λ _. refl };

    fn to_json(_alloc: Global, value: &bool) -> Result<Value, NoMemory> {
        Ok(Value::Bool(*value))
    }
}

impl ReadForm for u64 {
    type Of = u64;

    ghost reads = { natural };

    fn from_json(_alloc: Global, value: &Value) -> Result<u64, JsonFault> {
        match value.as_u64() {
            Some(n) => Ok(n),
            None => Err(JsonFault::Bad),
        }
    }
}

impl WriteForm for u64 {
    type Of = u64;

    ghost writes = { natural_data };

    ghost no_float = { λ _. refl };

    fn to_json(_alloc: Global, value: &u64) -> Result<Value, NoMemory> {
        Ok(Value::from(*value))
    }
}

impl ReadForm for u32 {
    type Of = u32;

    ghost reads = { small_natural };

    fn from_json(alloc: Global, value: &Value) -> Result<u32, JsonFault> {
        let n = u64::from_json(alloc, value)?;
        if n > 4_294_967_295 {
            return Err(JsonFault::Bad);
        }
        Ok(n as u32)
    }
}

impl WriteForm for u32 {
    type Of = u32;

    ghost writes = { natural_data };

    ghost no_float = { λ _. refl };

    fn to_json(_alloc: Global, value: &u32) -> Result<Value, NoMemory> {
        Ok(Value::from(*value))
    }
}

impl ReadForm for i64 {
    type Of = i64;

    ghost reads = { integer };

    fn from_json(_alloc: Global, value: &Value) -> Result<i64, JsonFault> {
        match value.as_i64() {
            Some(n) => Ok(n),
            None => Err(JsonFault::Bad),
        }
    }
}

impl WriteForm for i64 {
    type Of = i64;

    ghost writes = { integer_data };

    ghost no_float = { no_float_integer };

    fn to_json(_alloc: Global, value: &i64) -> Result<Value, NoMemory> {
        Ok(Value::from(*value))
    }
}

impl ReadForm for i32 {
    type Of = i32;

    ghost reads = { small_integer };

    fn from_json(alloc: Global, value: &Value) -> Result<i32, JsonFault> {
        let n = i64::from_json(alloc, value)?;
        if n < -2_147_483_648 || 2_147_483_647 < n {
            return Err(JsonFault::Bad);
        }
        Ok(n as i32)
    }
}

impl WriteForm for i32 {
    type Of = i32;

    ghost writes = { integer_data };

    ghost no_float = { no_float_integer };

    fn to_json(_alloc: Global, value: &i32) -> Result<Value, NoMemory> {
        Ok(Value::from(*value))
    }
}
