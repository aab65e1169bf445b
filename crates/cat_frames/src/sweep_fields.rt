//! Sweeps as fields.

ghost use Rattle.std.specs.Prelude.{◌≡◌, ◌++◌, IfOk, IsTrue, None, OnOk};
ghost use Rattle.std.specs.List.{AllByRecursion, flat_map};
ghost use Rattle.cat_codes.specs.Code.{follows, items_at, keys_at, last_of};
ghost use Rattle.cat_codes.specs.Read.{Reads};
ghost use Rattle.cat_model.specs.declared.cutoff.Pattern.TheVariants.{Front};
ghost use Rattle.cat_names.specs.Fields.{hash_code};
ghost use Rattle.cat_frames.specs.Sweeps.{are_logged, count_code, cutoff_code, cutoff_is_logged, hash_cmp, hashes_ascend, hashes_code, pattern_code, pattern_text, resolved_code, resolved_is_logged, rule_code, sweep_code, sweep_is_logged};

use cat_codes::fault::{FieldFault, NoMemory};
use cat_codes::field::Field;
use cat_codes::reader::Reader;
use cat_codes::seq::Seq;
use cat_codes::text::Text;
use cat_codes::writer::Writer;
use cat_model::cutoff::{Cutoff, Pattern, Resolved};
use cat_model::moment::Moment;
use cat_model::sweep::Sweep;
use cat_names::hash::Hash;
use cat_names::name_fault::NameFault;
use std::alloc::Global;

/// A number of commits, and Range for 0.
fn read_count(from: &mut Reader<'_>) -> Result<u32, FieldFault>
    ensures { Reads result from.new ((count_code).at from.old) }
{
    let count = from.u32()?;
    if count == 0 {
        return Err(FieldFault::Range);
    }
    Ok(count)
}

/// 0 for all, 1 and how many commits, or 2 and since when.
#[tactic(auto, unfolding(crate::specs::Sweeps::cutoff_code))]
fn read_cutoff(from: &mut Reader<'_>, alloc: Global) -> Result<Cutoff, FieldFault>
    ensures { Reads result from.new ((cutoff_code).at from.old) }
{
    match from.u8()? {
        0 => Ok(Cutoff::All),
        1 => Ok(Cutoff::Commits(read_count(from)?)),
        2 => Ok(Cutoff::Since(Moment::read(from, alloc)?)),
        _ => Err(FieldFault::Range),
    }
}

#[tactic(auto, unfolding(crate::specs::Sweeps::cutoff_code))]
fn write_cutoff(out: &mut Writer, cutoff: Cutoff) -> Result<(), NoMemory>
    requires { IsTrue (cutoff_is_logged cutoff) }
    ensures spelled { OnOk result (out.new ≡ out.old ++ (cutoff_code).spell cutoff) }
    ensures fits { OnOk result ((cutoff_code).Fits cutoff) }
{
    match cutoff {
        Cutoff::All => out.u8(0),
        Cutoff::Commits(count) => {
            out.u8(1)?;
            out.u32(count)
        }
        Cutoff::Since(moment) => {
            out.u8(2)?;
            moment.write(out)
        }
    }
}

/// A text that is a pattern, and else Range.
#[tactic(auto, unfolding(crate::specs::Sweeps::pattern_code))]
fn read_pattern(from: &mut Reader<'_>, alloc: Global) -> Result<Pattern, FieldFault>
    ensures { Reads result from.new ((pattern_code).at from.old) }
{
    let text = from.text(alloc)?;
    match Pattern::parse(alloc, text.as_str()) {
        Ok(pattern) => Ok(pattern),
        Err(NameFault::Bad) => Err(FieldFault::Range),
        Err(NameFault::NoMemory) => Err(FieldFault::NoMemory),
    }
}

/// The text of a front: it, and `*`.
fn front_text(alloc: Global, front: &str) -> Result<Text, NoMemory>
    ensures { IfOk result (λ text. text ≡ pattern_text (Front front.now)) }
{
    let mut text = String::from_str(alloc, front)?;
    text.push_str("*")?;
    Ok(Text::from_string(text)?)
}

#[tactic(auto, using(crate::proofs::Patterns::name_back, crate::proofs::Patterns::front_back), unfolding(crate::specs::Sweeps::pattern_code))]
fn write_pattern(alloc: Global, out: &mut Writer, pattern: &Pattern) -> Result<(), NoMemory>
    ensures spelled { OnOk result (out.new ≡ out.old ++ (pattern_code).spell pattern.now) }
    ensures fits { OnOk result ((pattern_code).Fits pattern.now) }
{
    match pattern {
        Pattern::Name(name) => {
            name.known();
            let text = Text::from_str(alloc, name.as_str())?;
            text.write(out)
        }
        Pattern::Front(front) => {
            front.known();
            let text = front_text(alloc, front.as_str())?;
            text.write(out)
        }
    }
}

fn read_rule(from: &mut Reader<'_>, alloc: Global) -> Result<(Pattern, Cutoff), FieldFault>
    ensures { Reads result from.new ((rule_code).at from.old) }
{
    let pattern = read_pattern(from, alloc)?;
    let cutoff = read_cutoff(from, alloc)?;
    Ok((pattern, cutoff))
}

/// So many patterns with their cutoffs.
fn read_rules(
    from: &mut Reader<'_>,
    alloc: Global,
    count: u32,
) -> Result<Seq<(Pattern, Cutoff)>, FieldFault>
    ensures { Reads result from.new (items_at rule_code count from.old) }
{
    let mut rules = Seq::new(alloc);
    for _ in 0..count {
        let rule = read_rule(from, alloc)?;
        rules.push(rule)?;
    }
    Ok(rules)
}

fn write_rules(alloc: Global, out: &mut Writer, rules: &[(Pattern, Cutoff)]) -> Result<(), NoMemory>
    requires { IsTrue (are_logged rules.now) }
    ensures spelled { OnOk result (out.new ≡ out.old ++ flat_map (rule_code).spell rules.now) }
    ensures fits { OnOk result (AllByRecursion (rule_code).Fits rules.now) }
{
    for (pattern, cutoff) in rules {
        write_pattern(alloc, out, pattern)?;
        write_cutoff(out, *cutoff)?;
    }
    Ok(())
}

/// The default cutoff, and those of patterns.
#[tactic(auto, unfolding(crate::specs::Sweeps::resolved_code, cat_codes::specs::Code::list))]
fn read_policy(from: &mut Reader<'_>, alloc: Global) -> Result<Resolved, FieldFault>
    ensures { Reads result from.new ((resolved_code).at from.old) }
{
    let default = read_cutoff(from, alloc)?;
    let count = from.u32()?;
    let cutoffs = read_rules(from, alloc, count)?;
    Ok(Resolved { default, cutoffs })
}

#[tactic(auto, using(crate::proofs::Logged::logged_default, crate::proofs::Logged::logged_rules), unfolding(crate::specs::Sweeps::resolved_code, cat_codes::specs::Code::list))]
fn write_policy(alloc: Global, out: &mut Writer, policy: &Resolved) -> Result<(), NoMemory>
    requires { IsTrue (resolved_is_logged policy.now) }
    ensures spelled { OnOk result (out.new ≡ out.old ++ (resolved_code).spell policy.now) }
    ensures fits { OnOk result ((resolved_code).Fits policy.now) }
{
    policy.cutoffs.known();
    let rules = policy.cutoffs.as_slice();
    write_cutoff(out, policy.default)?;
    out.u32(rules.len() as u32)?;
    write_rules(alloc, out, rules)?;
    Ok(())
}

/// Whether the hash comes after the others.
fn comes_next(hashes: &[Hash], hash: &Hash) -> bool
    ensures { result ≡ follows hash_cmp (last_of hashes.now) hash.now }
{
    match hashes {
        [] => true,
        [.., last] => last.cmp(hash).is_lt(),
    }
}

/// So many hashes, each above the one before.
fn hashes_above(from: &mut Reader<'_>, alloc: Global, count: u32) -> Result<Seq<Hash>, FieldFault>
    ensures { Reads result from.new (keys_at hash_cmp hash_code None count from.old) }
{
    let mut hashes = Seq::new(alloc);
    for _ in 0..count {
        let hash = Hash::read(from, alloc)?;
        if !comes_next(hashes.as_slice(), &hash) {
            return Err(FieldFault::Range);
        }
        hashes.push(hash)?;
    }
    Ok(hashes)
}

/// Hashes that ascend and are distinct, and else Range.
#[tactic(auto, unfolding(cat_codes::specs::Code::ascending_keys))]
fn read_hashes(from: &mut Reader<'_>, alloc: Global) -> Result<Seq<Hash>, FieldFault>
    ensures { Reads result from.new ((hashes_code).at from.old) }
{
    let count = from.u32()?;
    hashes_above(from, alloc, count)
}

#[tactic(auto, unfolding(cat_codes::specs::Code::ascending_keys, cat_codes::specs::Code::list))]
fn write_hashes(out: &mut Writer, hashes: &Seq<Hash>) -> Result<(), NoMemory>
    requires { IsTrue (hashes_ascend hashes.now) }
    ensures spelled { OnOk result (out.new ≡ out.old ++ (hashes_code).spell hashes.now) }
    ensures fits { OnOk result ((hashes_code).Fits hashes.now) }
{
    hashes.write(out)
}

/// The place of the opening, the policy, and the hashes of commits and contents.
#[tactic(auto, unfolding(crate::specs::Sweeps::sweep_code))]
pub(crate) fn read_sweep(from: &mut Reader<'_>, alloc: Global) -> Result<Sweep, FieldFault>
    ensures { Reads result from.new ((sweep_code).at from.old) }
{
    let opened = from.u32()?;
    let policy = read_policy(from, alloc)?;
    let commits = read_hashes(from, alloc)?;
    let contents = read_hashes(from, alloc)?;
    Ok(Sweep {
        opened,
        policy,
        commits,
        contents,
    })
}

#[tactic(auto, using(crate::proofs::Logged::logged_policy, crate::proofs::Logged::logged_commits, crate::proofs::Logged::logged_contents), unfolding(crate::specs::Sweeps::sweep_code))]
pub(crate) fn write_sweep(alloc: Global, out: &mut Writer, sweep: &Sweep) -> Result<(), NoMemory>
    requires { IsTrue (sweep_is_logged sweep.now) }
    ensures spelled { OnOk result (out.new ≡ out.old ++ (sweep_code).spell sweep.now) }
    ensures fits { OnOk result ((sweep_code).Fits sweep.now) }
{
    out.u32(sweep.opened)?;
    write_policy(alloc, out, &sweep.policy)?;
    write_hashes(out, &sweep.commits)?;
    write_hashes(out, &sweep.contents)?;
    Ok(())
}
