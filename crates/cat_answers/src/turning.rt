//! Where pages of listings go on.

ghost use Rattle.std.specs.Prelude.{◌≡◌};
ghost use Rattle.std.specs.Option.{option_and_then, option_copied, option_map};
ghost use Rattle.sha2.specs.Sha256.{sha256};
ghost use Rattle.cat_model.specs.Answer as answers;
ghost use Rattle.cat_answers.specs.Turning as turning;

use cat_model::refusal::Refusal;
use cat_names::hash::Hash;
use cat_names::key::ContentKey;
use cat_names::ref_name::RefName;
use cat_pages::token::Token;
use cat_state::catalogue::Catalogue;

/// The commit that the first page was of.
pub(crate) fn commit_before(after: &Option<(Hash, ContentKey)>) -> Option<Hash>
    ensures { result ≡ option_map (λ x. x.0) after.now }
{
    match after {
        None => None,
        Some((hash, _)) => Some(*hash),
    }
}

/// The last key of the page before.
pub(crate) fn key_before(after: &Option<(Hash, ContentKey)>) -> Option<&ContentKey>
    ensures { option_copied result ≡ option_map (λ x. x.1) after.now }
{
    match after {
        None => None,
        Some((_, key)) => Some(key),
    }
}

/// The name of a token of references.
pub(crate) fn next_name(token: Option<Token>) -> Option<RefName>
    ensures { result ≡ option_and_then turning.name_of token }
{
    match token {
        Some(Token::References(name)) => Some(name),
        _ => None,
    }
}

/// The commit and the key of a token of entries.
pub(crate) fn next_entry(token: Option<Token>) -> Option<(Hash, ContentKey)>
    ensures { result ≡ option_and_then turning.entry_of token }
{
    match token {
        Some(Token::Entries(hash, key)) => Some((hash, key)),
        _ => None,
    }
}

/// The commit of a token of a history.
pub(crate) fn next_commit(token: Option<Token>) -> Option<Hash>
    ensures { result ≡ option_and_then turning.commit_of token }
{
    match token {
        Some(Token::History(hash)) => Some(hash),
        _ => None,
    }
}

/// The commit that a token names in place of the one asked for, if it is known.
pub(crate) fn turned_to(
    catalogue: &Catalogue,
    hash: Hash,
    other: &Option<Hash>,
) -> Result<Hash, Refusal>
    ensures { result ≡ answers.turned_to sha256 catalogue.now hash other.now }
{
    match other {
        None => Ok(hash),
        Some(other) => {
            if catalogue.is_known(other) {
                Ok(*other)
            } else {
                Err(Refusal::RefNotFound)
            }
        }
    }
}

/// The last commit that is asked for is on the chain.
pub(crate) fn needs_until(
    catalogue: &Catalogue,
    hash: &Hash,
    until: &Option<Hash>,
) -> Result<(), Refusal>
    ensures { result ≡ answers.needs_until catalogue.now hash.now until.now }
{
    match until {
        None => Ok(()),
        Some(last) => {
            if catalogue.is_on_chain(hash, last) {
                Ok(())
            } else {
                Err(Refusal::RefNotFound)
            }
        }
    }
}
