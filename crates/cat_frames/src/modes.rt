//! Modes of merges and transplants, as fields.

ghost use Rattle.std.specs.Prelude.{◌≡◌, ◌++◌, None, OnOk};
ghost use Rattle.std.specs.List.{AllByRecursion, flat_map};
ghost use Rattle.cat_codes.specs.Read.{Reads};
ghost use Rattle.cat_codes.specs.Code.{follows, last_key, pairs_at};
ghost use Rattle.cat_names.specs.Fields.{key_cmp, key_code};
ghost use Rattle.cat_frames.specs.Sources.{behaviour_number, behaviour_of, behaviour_code, modes_code};

use cat_codes::ascending::Ascending;
use cat_codes::fault::{FieldFault, NoMemory};
use cat_codes::field::Field;
use cat_codes::reader::Reader;
use cat_codes::writer::Writer;
use cat_model::merging::{Behaviour, Modes};
use cat_names::key::ContentKey;
use std::alloc::Global;

fn behaviour_number(behaviour: Behaviour) -> u8
    ensures { result ≡ behaviour_number behaviour }
{
    match behaviour {
        Behaviour::Normal => 0,
        Behaviour::Force => 1,
        Behaviour::Drop => 2,
    }
}

fn behaviour_of(number: u8) -> Option<Behaviour>
    ensures { result ≡ behaviour_of number }
{
    match number {
        0 => Some(Behaviour::Normal),
        1 => Some(Behaviour::Force),
        2 => Some(Behaviour::Drop),
        _ => None,
    }
}

#[tactic(auto, unfolding(crate::specs::Sources::behaviour_code))]
fn read_behaviour(from: &mut Reader<'_>) -> Result<Behaviour, FieldFault>
    ensures { Reads result from.new ((behaviour_code).at from.old) }
{
    let number = from.u8()?;
    match behaviour_of(number) {
        None => Err(FieldFault::Range),
        Some(behaviour) => Ok(behaviour),
    }
}

#[tactic(auto, unfolding(crate::specs::Sources::behaviour_code))]
fn write_behaviour(out: &mut Writer, behaviour: Behaviour) -> Result<(), NoMemory>
    ensures spelled { OnOk result (out.new ≡ out.old ++ (behaviour_code).spell behaviour) }
    ensures fits { OnOk result ((behaviour_code).Fits behaviour) }
{
    out.u8(behaviour_number(behaviour))
}

/// Whether the key comes after those of the pairs.
fn comes_next(pairs: &[(ContentKey, Behaviour)], key: &ContentKey) -> bool
    ensures { result ≡ follows key_cmp (last_key pairs.now) key.now }
{
    match pairs {
        [] => true,
        [.., (last, _)] => last.cmp(key).is_lt(),
    }
}

/// So many keys with their behaviours, each key above the one before.
fn read_keys(
    from: &mut Reader<'_>,
    alloc: Global,
    count: u32,
) -> Result<Ascending<ContentKey, Behaviour>, FieldFault>
    ensures { Reads result from.new (pairs_at key_cmp key_code behaviour_code None count from.old) }
{
    let mut keys = Ascending::new(alloc);
    for _ in 0..count {
        let key = ContentKey::read(from, alloc)?;
        if !comes_next(keys.as_slice(), &key) {
            return Err(FieldFault::Range);
        }
        let behaviour = read_behaviour(from)?;
        // The key comes next, so that only memory can be wanting.
        let Ok(()) = keys.push(key, behaviour) else {
            return Err(FieldFault::NoMemory);
        };
    }
    Ok(keys)
}

fn write_keys(out: &mut Writer, keys: &[(ContentKey, Behaviour)]) -> Result<(), NoMemory>
    ensures spelled { OnOk result
        (out.new
        ≡ out.old ++ flat_map (λ x. (key_code).spell x.0 ++ (behaviour_code).spell x.1) keys.now) }
    ensures fits { OnOk result
        (AllByRecursion (λ x. (key_code).Fits x.0 × (behaviour_code).Fits x.1) keys.now) }
{
    for (key, behaviour) in keys {
        key.write(out)?;
        write_behaviour(out, *behaviour)?;
    }
    Ok(())
}

/// The behaviour of all other keys, and those of keys.
#[tactic(auto, unfolding(crate::specs::Sources::modes_code, cat_codes::specs::Code::ascending))]
pub(crate) fn read_modes(from: &mut Reader<'_>, alloc: Global) -> Result<Modes, FieldFault>
    ensures { Reads result from.new ((modes_code).at from.old) }
{
    let default = read_behaviour(from)?;
    let count = from.u32()?;
    let keys = read_keys(from, alloc, count)?;
    Ok(Modes { default, keys })
}

#[tactic(auto, unfolding(crate::specs::Sources::modes_code, cat_codes::specs::Code::ascending))]
pub(crate) fn write_modes(out: &mut Writer, modes: &Modes) -> Result<(), NoMemory>
    ensures spelled { OnOk result (out.new ≡ out.old ++ (modes_code).spell modes.now) }
    ensures fits { OnOk result ((modes_code).Fits modes.now) }
{
    modes.keys.known();
    let keys = modes.keys.as_slice();
    write_behaviour(out, modes.default)?;
    out.u32(keys.len() as u32)?;
    write_keys(out, keys)?;
    Ok(())
}
