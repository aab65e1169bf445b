//! Tokens of pages as JSON.

ghost use Rattle.std.specs.Prelude.{◌≡◌, IfOk, refl};
ghost use Rattle.serde_json.specs.View.{view};
ghost use Rattle.cat_replies.specs.Replies.{token_data, references_token, entries_token, history_token};

use cat_codes::fault::NoMemory;
use cat_codes::text::Text;
use cat_json::write::WriteForm;
use cat_names::hash::Hash;
use cat_names::key::ContentKey;
use cat_names::ref_name::RefName;
use cat_pages::token::Token;
use serde_json::Value;
use std::alloc::Global;

// The form of the name that a page of references ends with.
pub(crate) struct ReferencesToken;

// The form of the commit and the key that a page of entries ends with.
pub(crate) struct EntriesToken;

// The form of the commit that the next page of a history begins with.
pub(crate) struct HistoryToken;

fn token(alloc: Global, token: &Token) -> Result<Value, NoMemory>
    ensures { IfOk result (λ v. view v ≡ token_data token.now) }
{
    let text = token.to_text(alloc)?;
    Text::to_json(alloc, &text)
}

impl WriteForm for ReferencesToken {
    type Of = RefName;

    ghost writes = { references_token };

    ghost no_float = { λ _. refl };

    fn to_json(alloc: Global, name: &RefName) -> Result<Value, NoMemory> {
        token(alloc, &Token::References(name.clone()?))
    }
}

impl WriteForm for EntriesToken {
    type Of = (Hash, ContentKey);

    ghost writes = { entries_token };

    ghost no_float = { λ _. refl };

    fn to_json(alloc: Global, last: &(Hash, ContentKey)) -> Result<Value, NoMemory> {
        let (hash, key) = last;
        token(alloc, &Token::Entries(*hash, key.clone()?))
    }
}

impl WriteForm for HistoryToken {
    type Of = Hash;

    ghost writes = { history_token };

    ghost no_float = { λ _. refl };

    fn to_json(alloc: Global, hash: &Hash) -> Result<Value, NoMemory> {
        token(alloc, &Token::History(*hash))
    }
}
