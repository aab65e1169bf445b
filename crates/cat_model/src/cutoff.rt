//! What a collection keeps.

ghost use Rattle.std.specs.Prelude.{◌≡◌, ◌↔◌, ◌++◌, ℕ, List, IfOk, IsTrue};
ghost use Rattle.cat_names.specs.RefNames.{is_reference_name};
ghost use Rattle.cat_model.specs.Chain.{Commits};
ghost use Rattle.cat_model.specs.Cutoffs.{Gives, cutoff_for, is_older, keeps, kept, kept_from, matches, pattern_of, reaches};
ghost use Rattle.cat_model.specs.Fronts.{front_of, is_front};

use crate::moment::Moment;
use cat_codes::seq::Seq;
use cat_codes::text::Text;
use cat_names::name_fault::NameFault;
use cat_names::ref_name::RefName;
use std::alloc::{AllocError, Global};
use std::marker::Model;

/// How much of a chain of commits is kept. Its head always is.
#[derive(Clone, Copy)]
pub enum Cutoff {
    /// All of it.
    All,
    /// So many commits from the head.
    Commits(u32),
    /// The head, and the commits after it before the first of these that is older than the moment.
    Since(Moment),
}

// Whether a commit of this time is older than the moment.
fn is_older(moment: Moment, time: Moment) -> bool
    ensures { result ≡ is_older moment time }
{
    time.micros() < moment.micros()
}

impl Cutoff {
    // Whether a commit that isn't the head is kept, where those before it are.
    fn reaches(&self, index: u64, time: Moment) -> bool
        ensures { result ≡ reaches self.now index time }
    {
        match self {
            Cutoff::All => true,
            Cutoff::Commits(count) => index < u64::from(*count),
            Cutoff::Since(moment) => !is_older(*moment, time),
        }
    }

    /// Whether a commit is kept by its index in a chain and its time, where those before it are.
    /// The head has the index 0.
    pub fn keeps(&self, index: u64, time: Moment) -> bool
        ensures { result ≡ keeps self.now index time }
    {
        index == 0 || self.reaches(index, time)
    }

    /// What is kept of each chain: the commits before the first that isn't.
    pub fn known(&self)
        ensures { (commits : Commits) → kept self.now commits ≡ kept_from self.now 0 commits }
    {
        let _ = self;
    }
}

/// What names of references begin with.
#[derive(Drop)]
pub struct Front {
    text: Text,
}

impl Model for Front {
    ghost use Rattle.std.specs.Prelude.{ℕ, List, IsTrue};
    ghost use Rattle.cat_model.specs.Fronts.{is_front};

    ghost Value = { List ℕ };

    ghost view = { λ f. f.text };

    ghost invariant = { λ f. IsTrue (is_front f.text) };
}

fn is_name(alloc: Global, text: &str) -> Result<bool, AllocError>
    ensures { IfOk result (λ is. is ≡ is_reference_name text.now) }
{
    match RefName::parse(alloc, text) {
        Ok(_) => Ok(true),
        Err(NameFault::Bad) => Ok(false),
        Err(NameFault::NoMemory) => Err(AllocError),
    }
}

// Whether a name begins so.
fn is_front(alloc: Global, text: &str) -> Result<bool, AllocError>
    ensures { IfOk result (λ is. is ≡ is_front text.now) }
{
    if is_name(alloc, text)? {
        return Ok(true);
    }
    let mut longer = String::from_str(alloc, text)?;
    longer.push_str("a")?;
    is_name(alloc, longer.as_str())
}

/// A text is a front exactly where some name begins with it.
pub fn fronts_begin_names()
    ensures { (text : List ℕ)
        → IsTrue (is_front text) ↔ ((rest : List ℕ) × IsTrue (is_reference_name (text ++ rest))) }
{}

impl Front {
    /// The front that the text is.
    pub fn parse(alloc: Global, text: &str) -> Result<Front, NameFault>
        ensures { Gives result (front_of text.now) }
    {
        let begins_names = is_front(alloc, text)?;
        if !begins_names {
            return Err(NameFault::Bad);
        }
        Ok(Front {
            text: Text::from_str(alloc, text)?,
        })
    }

    /// What holds of each front.
    pub fn known(&self)
        ensures { IsTrue (is_front self.now) }
    {
        let _ = &self.text;
    }

    /// The front as a text.
    pub fn as_str(&self) -> &str
        ensures { result.now ≡ self.now }
    {
        self.text.as_str()
    }
}

impl Clone for Front {
    ghost is_clone = { λ a b. b ≡ a };

    fn clone(&self) -> Result<Front, AllocError> {
        Ok(Front {
            text: self.text.clone()?,
        })
    }
}

/// Which references a cutoff is for.
#[derive(Drop)]
pub enum Pattern {
    /// The one of this name.
    Name(RefName),
    /// Those whose names begin so.
    Front(Front),
}

impl Pattern {
    /// The pattern that a text is: the name of a reference, or what names begin with and `*`.
    #[tactic(auto, unfolding(crate::specs::Cutoffs::pattern_of))]
    pub fn parse(alloc: Global, text: &str) -> Result<Pattern, NameFault>
        ensures { Gives result (pattern_of text.now) }
    {
        match text.split_once('*') {
            None => {
                let name = RefName::parse(alloc, text)?;
                Ok(Pattern::Name(name))
            }
            Some((front, rest)) => {
                if !rest.is_empty() {
                    return Err(NameFault::Bad);
                }
                let front = Front::parse(alloc, front)?;
                Ok(Pattern::Front(front))
            }
        }
    }

    /// Whether it is for the reference of this name.
    pub fn matches(&self, name: &RefName) -> bool
        ensures { result ≡ matches self.now name.now }
    {
        match self {
            Pattern::Name(own) => own.as_str() == name.as_str(),
            Pattern::Front(front) => name
                .as_str()
                .as_bytes()
                .starts_with(front.as_str().as_bytes()),
        }
    }
}

impl Clone for Pattern {
    ghost is_clone = { λ a b. b ≡ a };

    fn clone(&self) -> Result<Pattern, AllocError> {
        match self {
            Pattern::Name(name) => Ok(Pattern::Name(name.clone()?)),
            Pattern::Front(front) => Ok(Pattern::Front(front.clone()?)),
        }
    }
}

/// How much of each reference's chain a collection keeps.
#[derive(Drop)]
pub struct Resolved {
    /// For a reference that no pattern matches.
    pub default: Cutoff,
    /// The first pattern that matches counts.
    pub cutoffs: Seq<(Pattern, Cutoff)>,
}

impl Resolved {
    /// The cutoff of the reference of this name.
    pub fn cutoff_for(&self, name: &RefName) -> &Cutoff
        ensures { result.now ≡ cutoff_for self.now name.now }
    {
        let cutoffs = self.cutoffs.as_slice();
        for (pattern, cutoff) in cutoffs {
            if pattern.matches(name) {
                return cutoff;
            }
        }
        &self.default
    }
}
