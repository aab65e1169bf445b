//! Parameters of a query.

ghost use Rattle.std.specs.Prelude.{◌≡◌, ℕ, List, Option};
ghost use Rattle.cat_names.specs.Hashes.{hash_of};
ghost use Rattle.cat_rest.specs.Faults.{GivesQuery, BecomesBadQuery, NameBecomesBad, KeyBecomesBad, TokenBecomesBad};
ghost use Rattle.cat_rest.specs.Paths.{name_of, key_in};
ghost use Rattle.cat_rest.specs.Queries.{required, optional, kind_of, fetch_of, references_token, entries_token, history_token};
ghost use Rattle.cat_rest.specs.declared.parameter.QueryFault.TheVariants.{NoMemory};

use cat_codes::fault;
use cat_model::reference::Kind;
use cat_model::refusal::{Reason, Refusal, Refused};
use cat_names::hash::Hash;
use cat_names::key::ContentKey;
use cat_names::key_fault::KeyFault;
use cat_names::name_fault::NameFault;
use cat_names::ref_name::RefName;
use cat_pages::token::{Token, TokenFault};
use cat_queries::first;
use std::alloc::{AllocFailed, Global};
use thiserror::Error;

/// Why a query has no reading.
#[derive(Clone, Copy, Debug, PartialEq, Eq, Error)]
pub enum QueryFault {
    #[error("a parameter of the query has no reading")]
    Bad,
    #[error("memory ran out")]
    NoMemory,
}

impl From<QueryFault> for Refused {
    ghost from_gives = { BecomesBadQuery };

    fn from(fault: QueryFault) -> Refused {
        let why = match fault {
            QueryFault::Bad => Refusal::BadRequest(Reason::BadQuery),
            QueryFault::NoMemory => Refusal::NoMemory,
        };
        Refused { place: None, why }
    }
}

impl From<fault::NoMemory> for QueryFault {
    ghost from_gives = { λ _ f. f ≡ NoMemory };

    fn from(_fault: fault::NoMemory) -> QueryFault {
        QueryFault::NoMemory
    }
}

impl<T: Drop> From<AllocFailed<T>> for QueryFault {
    ghost from_gives = { λ _ f. f ≡ NoMemory };

    fn from(_fault: AllocFailed<T>) -> QueryFault {
        QueryFault::NoMemory
    }
}

impl From<NameFault> for QueryFault {
    ghost from_gives = { NameBecomesBad };

    fn from(fault: NameFault) -> QueryFault {
        match fault {
            NameFault::Bad => QueryFault::Bad,
            NameFault::NoMemory => QueryFault::NoMemory,
        }
    }
}

impl From<KeyFault> for QueryFault {
    ghost from_gives = { KeyBecomesBad };

    fn from(fault: KeyFault) -> QueryFault {
        match fault {
            KeyFault::NoMemory => QueryFault::NoMemory,
            _ => QueryFault::Bad,
        }
    }
}

impl From<TokenFault> for QueryFault {
    ghost from_gives = { TokenBecomesBad };

    fn from(fault: TokenFault) -> QueryFault {
        match fault {
            TokenFault::Bad => QueryFault::Bad,
            TokenFault::NoMemory => QueryFault::NoMemory,
        }
    }
}

/// How the value of a parameter is read.
pub trait ParameterForm {
    /// The type of the values.
    type Of: Drop;

    ghost reads: { List ℕ → Option Self.Of };

    /// What the value stands for.
    fn from_text(alloc: Global, text: &str) -> Result<Self::Of, QueryFault>
        ensures { GivesQuery result (reads text.now) };
}

/// A parameter that must be there.
pub(crate) fn required<F: ParameterForm>(
    alloc: Global,
    query: &[u8],
    name: &str,
) -> Result<F::Of, QueryFault>
    ensures { GivesQuery result (required F.reads name.now query.now) }
{
    match first(alloc, query, name)? {
        Some(text) => F::from_text(alloc, text.as_str()),
        None => Err(QueryFault::Bad),
    }
}

/// A parameter that may be absent.
pub(crate) fn optional<F: ParameterForm>(
    alloc: Global,
    query: &[u8],
    name: &str,
) -> Result<Option<F::Of>, QueryFault>
    ensures { GivesQuery result (optional F.reads name.now query.now) }
{
    match first(alloc, query, name)? {
        Some(text) => Ok(Some(F::from_text(alloc, text.as_str())?)),
        None => Ok(None),
    }
}

impl ParameterForm for RefName {
    type Of = RefName;

    ghost reads = { name_of };

    fn from_text(alloc: Global, text: &str) -> Result<RefName, QueryFault> {
        Ok(RefName::parse(alloc, text)?)
    }
}

impl ParameterForm for Hash {
    type Of = Hash;

    ghost reads = { hash_of };

    fn from_text(_alloc: Global, text: &str) -> Result<Hash, QueryFault> {
        match Hash::parse(text) {
            Some(hash) => Ok(hash),
            None => Err(QueryFault::Bad),
        }
    }
}

/// The path form of a key.
impl ParameterForm for ContentKey {
    type Of = ContentKey;

    ghost reads = { key_in };

    fn from_text(alloc: Global, text: &str) -> Result<ContentKey, QueryFault> {
        Ok(ContentKey::parse_path(alloc, text)?)
    }
}

impl ParameterForm for Kind {
    type Of = Kind;

    ghost reads = { kind_of };

    fn from_text(_alloc: Global, text: &str) -> Result<Kind, QueryFault> {
        match text {
            "BRANCH" => Ok(Kind::Branch),
            "TAG" => Ok(Kind::Tag),
            _ => Err(QueryFault::Bad),
        }
    }
}

/// The form of what is fetched: whether the operations of commits are.
pub(crate) struct FetchForm;

impl ParameterForm for FetchForm {
    type Of = bool;

    ghost reads = { fetch_of };

    fn from_text(_alloc: Global, text: &str) -> Result<bool, QueryFault> {
        match text {
            "ALL" => Ok(true),
            "MINIMAL" => Ok(false),
            _ => Err(QueryFault::Bad),
        }
    }
}

/// The form of a references token.
pub(crate) struct ReferencesForm;

impl ParameterForm for ReferencesForm {
    type Of = RefName;

    ghost reads = { references_token };

    fn from_text(alloc: Global, text: &str) -> Result<RefName, QueryFault> {
        match Token::parse(alloc, text)? {
            Token::References(name) => Ok(name),
            _ => Err(QueryFault::Bad),
        }
    }
}

/// The form of an entries token.
pub(crate) struct EntriesForm;

impl ParameterForm for EntriesForm {
    type Of = (Hash, ContentKey);

    ghost reads = { entries_token };

    fn from_text(alloc: Global, text: &str) -> Result<(Hash, ContentKey), QueryFault> {
        match Token::parse(alloc, text)? {
            Token::Entries(hash, key) => Ok((hash, key)),
            _ => Err(QueryFault::Bad),
        }
    }
}

/// The form of a history token.
pub(crate) struct HistoryForm;

impl ParameterForm for HistoryForm {
    type Of = Hash;

    ghost reads = { history_token };

    fn from_text(alloc: Global, text: &str) -> Result<Hash, QueryFault> {
        match Token::parse(alloc, text)? {
            Token::History(hash) => Ok(hash),
            _ => Err(QueryFault::Bad),
        }
    }
}
