//! Policies.

ghost use Rattle.std.specs.Prelude.{◌≡◌, IfOk, map};
ghost use Rattle.serde_json.specs.View.{view};
ghost use Rattle.cat_json.specs.Reading.{Gives};
ghost use Rattle.cat_model.specs.Cutoffs.{pattern_of};
ghost use Rattle.cat_policy.specs.Policies.{HasCounts, HasFew, all_of, pattern_as, policy_as, policy_of, policy_with, resolved, rule_as, rule_of};

use crate::given::GivenCutoff;
use cat_codes::fault::NoMemory;
use cat_codes::seq::Seq;
use cat_json::fault::JsonFault;
use cat_json::read::{ReadForm, defaulted, required};
use cat_model::cutoff::{Cutoff, Pattern, Resolved};
use cat_model::moment::Moment;
use cat_names::name_fault::NameFault;
use serde_json::Value;
use std::alloc::Global;

/// A policy has at most so many patterns.
const MOST_PATTERNS: usize = 1000;

/// How much of each reference's chain a collection keeps, as it is asked for.
#[derive(Drop)]
pub struct Policy {
    /// For a reference that no pattern matches.
    pub default: GivenCutoff,
    /// The first pattern that matches counts.
    pub cutoffs: Seq<(Pattern, GivenCutoff)>,
}

fn pattern_in(alloc: Global, text: &str) -> Result<Pattern, JsonFault>
    ensures { Gives result (pattern_of text.now) }
{
    match Pattern::parse(alloc, text) {
        Ok(pattern) => Ok(pattern),
        Err(NameFault::Bad) => Err(JsonFault::Bad),
        Err(NameFault::NoMemory) => Err(JsonFault::NoMemory),
    }
}

// `PATTERN=CUTOFF`, cut at the first sign.
#[tactic(auto, unfolding(crate::specs::Policies::rule_of))]
fn rule_in(alloc: Global, text: &str) -> Result<(Pattern, GivenCutoff), JsonFault>
    ensures { Gives result (rule_of text.now) }
{
    let Some((pattern, cutoff)) = text.split_once('=') else {
        return Err(JsonFault::Bad);
    };
    let pattern = pattern_in(alloc, pattern)?;
    match GivenCutoff::parse(cutoff) {
        Some(cutoff) => Ok((pattern, cutoff)),
        None => Err(JsonFault::Bad),
    }
}

fn rules_in(alloc: Global, texts: &[&str]) -> Result<Seq<(Pattern, GivenCutoff)>, JsonFault>
    ensures { Gives result (all_of rule_of (map (λ text. text.now) texts.now)) }
{
    let mut rules = Seq::new(alloc);
    for text in texts {
        let rule = rule_in(alloc, *text)?;
        rules.push(rule)?;
    }
    Ok(rules)
}

fn policy_with(
    default: GivenCutoff,
    cutoffs: Seq<(Pattern, GivenCutoff)>,
) -> Result<Policy, JsonFault>
    ensures { Gives result (policy_with default cutoffs) }
{
    if cutoffs.len() > MOST_PATTERNS {
        return Err(JsonFault::Bad);
    }
    Ok(Policy { default, cutoffs })
}

/// The form of patterns: a string that is one.
struct PatternForm;

impl ReadForm for PatternForm {
    type Of = Pattern;

    ghost reads = { pattern_as };

    fn from_json(alloc: Global, value: &Value) -> Result<Pattern, JsonFault> {
        match value.as_str() {
            Some(text) => pattern_in(alloc, text),
            None => Err(JsonFault::Bad),
        }
    }
}

/// The form of a pattern with its cutoff: an object with the strings `pattern` and `cutoff`.
struct RuleForm;

impl ReadForm for RuleForm {
    type Of = (Pattern, GivenCutoff);

    ghost reads = { rule_as };

    fn from_json(alloc: Global, value: &Value) -> Result<(Pattern, GivenCutoff), JsonFault> {
        let pattern = required::<PatternForm>(alloc, value, "pattern")?;
        let cutoff = required::<GivenCutoff>(alloc, value, "cutoff")?;
        Ok((pattern, cutoff))
    }
}

fn policy_of_words(alloc: Global, default: &str, rules: &[&str]) -> Result<Policy, JsonFault>
    ensures { Gives result (policy_of default.now (map (λ rule. rule.now) rules.now)) }
{
    match GivenCutoff::parse(default) {
        Some(default) => {
            let cutoffs = rules_in(alloc, rules)?;
            policy_with(default, cutoffs)
        }
        None => Err(JsonFault::Bad),
    }
}

#[tactic(auto, unfolding(crate::specs::Policies::policy_as))]
fn policy_of_json(alloc: Global, value: &Value) -> Result<Policy, JsonFault>
    ensures { Gives result (policy_as (view value.now)) }
{
    if value.as_object().is_none() {
        return Err(JsonFault::Bad);
    }
    let all = GivenCutoff::Fixed(Cutoff::All);
    let default = defaulted::<GivenCutoff>(alloc, value, "defaultCutoff", all)?;
    let none = Seq::new(alloc);
    let cutoffs = defaulted::<Seq<RuleForm>>(alloc, value, "cutoffs", none)?;
    policy_with(default, cutoffs)
}

impl Policy {
    /// The policy of the words of a command line: the default cutoff, and any number of
    /// `PATTERN=CUTOFF`, each cut at its first sign. `Bad` where a pattern or a cutoff has no
    /// reading, and for more than 1,000 patterns.
    #[tactic(auto, using(crate::proofs::Fit::words_few, crate::proofs::Fit::words_count))]
    pub fn parse(alloc: Global, default: &str, rules: &[&str]) -> Result<Policy, JsonFault>
        ensures reading { Gives result (policy_of default.now (map (λ rule. rule.now) rules.now)) }
        ensures few { IfOk result HasFew }
        ensures counts { IfOk result HasCounts }
    {
        policy_of_words(alloc, default, rules)
    }

    /// The policy of a JSON object. `defaultCutoff` is a cutoff, and `NONE` where it is absent or
    /// null; `cutoffs` is an array of objects with the strings `pattern` and `cutoff`, and empty
    /// where it is absent or null. `Bad` for anything else, and for more than 1,000 patterns.
    #[tactic(auto, using(crate::proofs::Fit::json_few, crate::proofs::Fit::json_count))]
    pub fn from_json(alloc: Global, value: &Value) -> Result<Policy, JsonFault>
        ensures reading { Gives result (policy_as (view value.now)) }
        ensures few { IfOk result HasFew }
        ensures counts { IfOk result HasCounts }
    {
        policy_of_json(alloc, value)
    }

    /// What is kept at a moment.
    pub fn resolve(&self, alloc: Global, moment: Moment) -> Result<Resolved, NoMemory>
        ensures { IfOk result (λ policy. policy ≡ resolved moment self.now) }
    {
        let given = self.cutoffs.as_slice();
        let mut cutoffs = Seq::new(alloc);
        for (pattern, cutoff) in given {
            let pattern = pattern.clone()?;
            cutoffs.push((pattern, cutoff.at(moment)))?;
        }
        let default = self.default.at(moment);
        Ok(Resolved { default, cutoffs })
    }
}

/// The form of policies.
pub struct PolicyForm;

impl ReadForm for PolicyForm {
    type Of = Policy;

    ghost reads = { policy_as };

    fn from_json(alloc: Global, value: &Value) -> Result<Policy, JsonFault> {
        Policy::from_json(alloc, value)
    }
}
