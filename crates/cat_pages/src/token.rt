//! Tokens: where a listing goes on, as a text.

ghost use Rattle.std.specs.Prelude.{◌≡◌, IfOk, Some, length, string_bytes};
ghost use Rattle.hex.specs.Hex.{IsBytes};
ghost use Rattle.cat_pages.specs.Tokens.{Gives, KeyBecomes, NameBecomes, entries_of, history_of, token_of, token_text};

use cat_codes::fault::NoMemory;
use cat_codes::text::Text;
use cat_names::hash::Hash;
use cat_names::key::ContentKey;
use cat_names::key_fault::KeyFault;
use cat_names::name_fault::NameFault;
use cat_names::ref_name::RefName;
use std::alloc::Global;
use thiserror::Error;

/// Where a listing goes on.
#[derive(Drop)]
pub enum Token {
    /// After the reference of this name.
    References(RefName),
    /// After this key, at this commit.
    Entries(Hash, ContentKey),
    /// With this commit.
    History(Hash),
}

/// Why a text is no token.
#[derive(Clone, Copy, Debug, PartialEq, Eq, Error)]
pub enum TokenFault {
    /// The text isn't spelled as one.
    #[error("the text isn't spelled as a token")]
    Bad,
    /// Memory ran out.
    #[error("memory ran out")]
    NoMemory,
}

impl From<NameFault> for TokenFault {
    ghost from_gives = { NameBecomes };

    fn from(fault: NameFault) -> TokenFault {
        match fault {
            NameFault::Bad => TokenFault::Bad,
            NameFault::NoMemory => TokenFault::NoMemory,
        }
    }
}

impl From<KeyFault> for TokenFault {
    ghost from_gives = { KeyBecomes };

    fn from(fault: KeyFault) -> TokenFault {
        match fault {
            KeyFault::NoMemory => TokenFault::NoMemory,
            _ => TokenFault::Bad,
        }
    }
}

// A hash, a dot and the path form of a key.
#[tactic(auto, unfolding(crate::specs::Tokens::entries_of))]
fn entries_in(alloc: Global, text: &str) -> Result<Token, TokenFault>
    ensures { Gives result (entries_of text.now) }
{
    let Some((digits, path)) = text.split_once('.') else {
        return Err(TokenFault::Bad);
    };
    match Hash::parse(digits) {
        Some(hash) => {
            let key = ContentKey::parse_path(alloc, path)?;
            Ok(Token::Entries(hash, key))
        }
        None => Err(TokenFault::Bad),
    }
}

fn history_in(text: &str) -> Result<Token, TokenFault>
    ensures { Gives result (history_of text.now) }
{
    match Hash::parse(text) {
        Some(hash) => Ok(Token::History(hash)),
        None => Err(TokenFault::Bad),
    }
}

// What holds of the bytes of each hash.
fn known(bytes: [u8; 32])
    ensures length { length bytes ≡ 32 }
    ensures bytes { IsBytes bytes }
{
    let _ = bytes;
}

// `e.`, the hash's digits, a dot and the path form of the key.
fn entries_text(alloc: Global, hash: &Hash, key: &ContentKey) -> Result<String, NoMemory>
    ensures text { IfOk result
        (λ text. string_bytes text ≡ token_text (Token.Entries hash.now key.now)) }
    ensures reads_again { IfOk result
        (λ text. token_of (string_bytes text) ≡ Some (Token.Entries hash.now key.now)) }
{
    known(hash.bytes);
    let mut text = String::from_str(alloc, "e.")?;
    text.push_str(hex::encode(alloc, hash.bytes.as_slice())?.as_str())?;
    text.push_str(".")?;
    text.push_str(key.to_path(alloc)?.as_str())?;
    Ok(text)
}

// `h.` and the hash's digits.
fn history_text(alloc: Global, hash: &Hash) -> Result<String, NoMemory>
    ensures text { IfOk result (λ text. string_bytes text ≡ token_text (Token.History hash.now)) }
    ensures reads_again { IfOk result
        (λ text. token_of (string_bytes text) ≡ Some (Token.History hash.now)) }
{
    known(hash.bytes);
    let mut text = String::from_str(alloc, "h.")?;
    text.push_str(hex::encode(alloc, hash.bytes.as_slice())?.as_str())?;
    Ok(text)
}

// `r.` and the name.
fn references_text(alloc: Global, name: &RefName) -> Result<String, NoMemory>
    ensures text { IfOk result
        (λ text. string_bytes text ≡ token_text (Token.References name.now)) }
    ensures reads_again { IfOk result
        (λ text. token_of (string_bytes text) ≡ Some (Token.References name.now)) }
{
    name.known();
    let mut text = String::from_str(alloc, "r.")?;
    text.push_str(name.as_str())?;
    Ok(text)
}

impl Token {
    /// The token of a text: `r.` and a name, `e.`, a hash, a dot and the path form of a key, or
    /// `h.` and a hash, a hash in 64 hexadecimal digits of either case.
    #[tactic(auto, unfolding(crate::specs::Tokens::token_of))]
    pub fn parse(alloc: Global, text: &str) -> Result<Token, TokenFault>
        ensures { Gives result (token_of text.now) }
    {
        let Some((kind, rest)) = text.split_once('.') else {
            return Err(TokenFault::Bad);
        };
        if kind == "r" {
            let name = RefName::parse(alloc, rest)?;
            Ok(Token::References(name))
        } else if kind == "e" {
            entries_in(alloc, rest)
        } else if kind == "h" {
            history_in(rest)
        } else {
            Err(TokenFault::Bad)
        }
    }

    /// The token as a text, with the digits in lower case.
    pub fn to_text(&self, alloc: Global) -> Result<Text, NoMemory>
        ensures text { IfOk result (λ text. text ≡ token_text self.now) }
        ensures reads_again { IfOk result (λ text. token_of text ≡ Some self.now) }
    {
        let text = match self {
            Token::References(name) => references_text(alloc, name)?,
            Token::Entries(hash, key) => entries_text(alloc, hash, key)?,
            Token::History(hash) => history_text(alloc, hash)?,
        };
        Ok(Text::from_string(text)?)
    }
}
