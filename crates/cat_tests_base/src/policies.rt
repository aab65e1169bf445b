//! Policies of collection, from words and from JSON.

use cat_json::read::from_bytes;
use cat_model::cutoff::{Cutoff, Resolved};
use cat_model::moment::Moment;
use cat_names::ref_name::RefName;
use cat_policy::{Policy, PolicyForm};
use std::alloc::Global;
use std::test::Fail;

/// How many commits are kept for a name, where its cutoff is a number of commits.
fn commits(alloc: Global, policy: &Resolved, name: &str) -> Result<Option<u32>, Fail> {
    let name = RefName::parse(alloc, name)?;
    match policy.cutoff_for(&name) {
        Cutoff::Commits(count) => Ok(Some(*count)),
        _ => Ok(None),
    }
}

/// The instant of the cutoff of a name, where it is one.
fn since(alloc: Global, policy: &Resolved, name: &str) -> Result<Option<u64>, Fail> {
    let name = RefName::parse(alloc, name)?;
    match policy.cutoff_for(&name) {
        Cutoff::Since(moment) => Ok(Some(moment.micros())),
        _ => Ok(None),
    }
}

/// What a policy is five microseconds past the end of the first day.
fn resolved(alloc: Global, policy: &Policy) -> Result<Resolved, Fail> {
    Ok(policy.resolve(alloc, Moment::from_micros(86_400_000_005))?)
}

/// A day back, but for `main` and for names that begin with `dev/`.
fn of_words(alloc: Global) -> Result<bool, Fail> {
    let rules = ["main=2", "dev/*=NONE"];
    let policy = Policy::parse(alloc, "P1D", rules.as_slice())?;
    let policy = resolved(alloc, &policy)?;
    let main = commits(alloc, &policy, "main")?;
    let other = since(alloc, &policy, "mainly")?;
    let commits = commits(alloc, &policy, "dev/a")?;
    let since = since(alloc, &policy, "dev/a")?;
    Ok(main == Some(2) && other == Some(5) && commits.is_none() && since.is_none())
}

/// Two days back, which is before the first moment, but for `main`.
fn of_json(alloc: Global) -> Result<bool, Fail> {
    let bytes =
        b"{\"defaultCutoff\":\"P2D\",\"cutoffs\":[{\"pattern\":\"main\",\"cutoff\":\"7\"}]}";
    let policy = from_bytes::<PolicyForm>(alloc, bytes)?;
    let policy = resolved(alloc, &policy)?;
    let main = commits(alloc, &policy, "main")?;
    let other = since(alloc, &policy, "dev/a")?;
    Ok(main == Some(7) && other == Some(0))
}

/// Whether the words are no policy.
fn is_none(alloc: Global, default: &str, rule: &str) -> bool {
    Policy::parse(alloc, default, [rule].as_slice()).is_err()
}

#[test]
fn policies_come_from_words_and_from_json(rt: HostRuntime) -> Result<(), Fail> {
    let alloc = rt.alloc();
    let words = of_words(alloc)?;
    let json = of_json(alloc)?;
    assert!(rt; words && json);
    assert!(rt; is_none(alloc, "P1M", "main=2") && is_none(alloc, "0", "main=2"));
    assert!(rt; is_none(alloc, "1", "main") && !is_none(alloc, "1", "main=2"));
    Ok(())
}
