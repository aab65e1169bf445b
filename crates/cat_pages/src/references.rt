//! Pages of references.

ghost use Rattle.std.specs.Prelude.{◌≡◌, IfOk, take};
ghost use Rattle.std.specs.Option.{option_map};
ghost use Rattle.cat_model.specs.Pages.{last_shown};
ghost use Rattle.cat_model.specs.Answer;
ghost use Rattle.cat_model.specs.Pages;

use crate::page::{Page, last};
use crate::token::Token;
use cat_codes::fault::NoMemory;
use cat_codes::seq::Seq;
use cat_model::reference::Reference;
use cat_names::ref_name::RefName;
use cat_tables::references::{ReferenceWalk, References};
use std::alloc::Global;

// The token of the last reference.
fn following(shown: &[Reference]) -> Result<Option<Token>, NoMemory>
    ensures { IfOk result
        (λ token. token ≡ option_map (λ r. Token.References r.name) (Pages.last shown.now)) }
{
    match last(shown) {
        None => Ok(None),
        Some(reference) => Ok(Some(Token::References(reference.name.clone()?))),
    }
}

// The first so many of what is left, and the token of the last of them, where more follow.
fn first_part(
    alloc: Global,
    mut left: ReferenceWalk<'_>,
    limit: u32,
) -> Result<Page<Reference>, NoMemory>
    ensures items { IfOk result (λ page. page.items ≡ take limit left.entry) }
    ensures token { IfOk result
        (λ page. page.token
        ≡ option_map (λ r. Token.References r.name) (last_shown limit left.entry)) }
{
    let mut items = Seq::new(alloc);
    while let Some(reference) = left.next() {
        if items.len() >= limit as usize {
            let token = following(items.as_slice())?;
            return Ok(Page { items, token });
        }
        items.push(reference.clone()?)?;
    }
    Ok(Page { items, token: None })
}

/// At most `limit` of the references whose names are above this one, or of all. The token has the
/// last name, where more follow.
#[tactic(auto, unfolding(cat_model::specs::Answer::references_page))]
pub fn references_page(
    alloc: Global,
    references: &References,
    after: Option<&RefName>,
    limit: u32,
) -> Result<Page<Reference>, NoMemory>
    ensures items { let page = Answer.references_page references.now
        (record { limit = limit; after = option_map (λ name. name.now) after.entry }) in
        IfOk result (λ p. p.items ≡ page.items) }
    ensures token { let page = Answer.references_page references.now
        (record { limit = limit; after = option_map (λ name. name.now) after.entry }) in
        IfOk result (λ p. p.token ≡ option_map (λ name. Token.References name) page.next) }
{
    first_part(alloc, references.walk_after(after), limit)
}
