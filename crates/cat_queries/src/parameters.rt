ghost use Rattle.std.specs.Prelude.{◌≡◌, IfOk};
ghost use Rattle.std.specs.Cow.{cow_str_bytes};
ghost use Rattle.cat_queries.specs.Parameters.{all_values, first_value};

use cat_codes::fault::NoMemory;
use cat_codes::seq::Seq;
use cat_codes::text::Text;
use std::alloc::Global;
use std::borrow::CowStr;

fn text_of(alloc: Global, value: CowStr<'_, Global>) -> Result<Text, NoMemory>
    ensures { IfOk result (λ t. t ≡ cow_str_bytes value.entry) }
{
    let text = value.into_owned(alloc)?;
    Ok(Text::from_string(text)?)
}

/// The value of the first parameter of that name, as a text: escapes are decoded, `+` is a space,
/// and what isn't UTF-8 becomes U+FFFD. Names are compared as such texts.
pub fn first(alloc: Global, query: &[u8], name: &str) -> Result<Option<Text>, NoMemory>
    ensures { IfOk result (λ v. v ≡ first_value name.now query.now) }
{
    for pair in form_urlencoded::parse(alloc, query) {
        let (key, value) = pair?;
        if key.as_str() == name {
            return Ok(Some(text_of(alloc, value)?));
        }
    }
    Ok(None)
}

/// The value of every parameter of that name, in order, as `first` reads them.
pub fn all(alloc: Global, query: &[u8], name: &str) -> Result<Seq<Text>, NoMemory>
    ensures { IfOk result (λ vs. vs ≡ all_values name.now query.now) }
{
    let mut values = Seq::new(alloc);
    for pair in form_urlencoded::parse(alloc, query) {
        let (key, value) = pair?;
        if key.as_str() == name {
            values.push(text_of(alloc, value)?)?;
        }
    }
    Ok(values)
}
