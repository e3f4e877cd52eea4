ghost use Rattle.std.specs.Prelude.{◌≡◌, List, IfOk, IfErr, [], true, false};
ghost use Rattle.std.specs.Option.{option_copied};
ghost use Rattle.words.specs.Values.{Joins, ReadsList};

use crate::WordStop;
use crate::watched::Watched;
use listed::Listed;
use std::alloc::Global;

const MOST_WATCHED: u32 = 16;

// Adds the values of the list to the empty list, and says whether the grammar gives them.
fn add_watched<T: Watched>(values: &mut Listed<T>, list: &str) -> bool
    requires empty { values.old.items ≡ [] }
    requires room { values.old.room ≡ 16 }
    ensures yes { result ≡ true → Joins T.has_text T.text_for list.now values.new.items }
    ensures no { result ≡ false → (others : List T) → Joins T.has_text T.text_for list.now others → ⊥ }
    ensures room { values.new.room ≡ 16 }
{
    for text in list.split(',') {
        let Some(value) = T::parse(text) else {
            return false;
        };
        if values.len() == MOST_WATCHED || value.is_among(values.as_slice()) {
            return false;
        }
        values.push(value);
    }
    true
}

/// The watched values of a list of texts that may be missing.
pub(crate) fn watched_or<T: Watched>(
    alloc: Global,
    list: Option<&str>,
) -> Result<Listed<T>, WordStop>
    ensures ok { IfOk result (λ values. ReadsList T.has_text T.text_for (option_copied list.entry) values.items) }
    ensures room { IfOk result (λ values. values.room ≡ 16) }
    ensures usage { IfErr result (λ e. e ≡ WordStop.Usage
        → (others : List T) → ReadsList T.has_text T.text_for (option_copied list.entry) others → ⊥) }
{
    let Ok(mut values) = Listed::new(alloc, MOST_WATCHED) else {
        return Err(WordStop::NoMemory);
    };
    let Some(list) = list else {
        return Ok(values);
    };
    if !add_watched(&mut values, list) {
        return Err(WordStop::Usage);
    }
    Ok(values)
}
