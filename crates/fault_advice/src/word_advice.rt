//! What to do where the grammar doesn't allow a word: the word that may be meant, or is missing.
use crate::shape_advice::{left_out_advice, names_advice, put_list_advice, shape_advice};
use crate::stop::Stop;
use advice::{
    Advice, DID_YOU_MEAN, DID_YOU_MEAN_ONE_OF, Gap, NO_GAP, begins_statement, changes, filled,
    kinds, lists, one_of, otherwise, put_known, with_text, with_texts, write_this,
};
use std::alloc::AllocError;

/// The most words that are listed as those that could stand at a place.
const MOST_LISTED: usize = 15;

/// Marks that may be missing before a word.
static MARKS: [&str; 7] = [";", ",", "}", "=", ":", "{", "@"];

/// Values of some types.
static VALUES: [&str; 3] = ["1", "192.0.2.1", "\"x\""];

/// Words that may be missing before a word.
static MISSING: [&str; 16] = [
    "to", "hook", "priority", "type", "prefix", "state", "dport", "saddr", "ct", "ip", "tcp",
    "meta", "set", "bytes", "packets", "map",
];

const WORD_BEFORE: &str = "Expected `{}` before `{}`.";

const MORE_BEHIND: &str = "Something is missing behind `{}`.";

/// Writes what to do at the place at which the grammar stops; whether it is known.
pub fn put_syntax_advice(stop: &Stop<'_>, lines: &mut String) -> Result<bool, AllocError> {
    let advice = left_out_advice(stop).or(shape_advice(stop));
    Ok(
        put_known(stop.alloc, advice, lines)?
            || put_list_advice(stop, lines)?
            || put_meant(stop, lines)?
            || put_known(stop.alloc, names_advice(stop), lines)?
            || put_known(stop.alloc, missing_advice(stop)?, lines)?
            || put_known(stop.alloc, surplus_advice(stop)?, lines)?
            || put_known(
                stop.alloc,
                expected_advice(stop, &expected_words(stop)?),
                lines,
            )?,
    )
}

/// Writes what stands here for the word at the place, which others write, or else the nearest word,
/// if the grammar allows one; whether it does.
fn put_meant(stop: &Stop<'_>, lines: &mut String) -> Result<bool, AllocError> {
    for (word, written) in otherwise() {
        if lists(written, stop.here()) && stop.allows(word, "")? {
            return put_known(stop.alloc, Some(write_this(word)), lines);
        }
    }
    put_nearest(stop, lines)
}

/// Writes the nearest word that the grammar allows, and the others of its kind that may stand at the
/// place, if they are few; whether there is one.
fn put_nearest(stop: &Stop<'_>, lines: &mut String) -> Result<bool, AllocError> {
    let kinds = kinds(stop.alloc)?;
    let Some((word, kind)) = nearest_allowed(stop, &kinds)? else {
        return Ok(false);
    };
    let others = stop.allowed_of(kind, "")?;
    let question = match others.len() {
        2..=MOST_LISTED => DID_YOU_MEAN_ONE_OF,
        _ => DID_YOU_MEAN,
    };
    let gaps = [Gap::Text(word), Gap::Words(&others), NO_GAP, NO_GAP];
    put_known(stop.alloc, Some(filled(question, gaps)), lines)
}

/// The word nearest to the one at the place, in whatever case that is written, of those that the
/// grammar allows; and the words of its kind.
fn nearest_allowed<'k>(
    stop: &Stop<'_>,
    kinds: &'k [Vec<&'static str>],
) -> Result<Option<(&'static str, &'k [&'static str])>, AllocError> {
    let here = stop.here().to_ascii_lowercase(stop.alloc)?;
    let (mut nearest, mut fewest) = (None, usize::MAX);
    for kind in kinds {
        for &word in kind {
            if let Some(changes) = changes(stop.alloc, here.as_str(), word)?
                && changes < fewest
                && stop.allows(word, "")?
            {
                (nearest, fewest) = (Some((word, kind.as_slice())), changes);
            }
        }
    }
    Ok(nearest)
}

/// What is missing before the word at the place, which is empty at the end of a part.
fn missing_advice<'a>(stop: &Stop<'a>) -> Result<Option<Advice<'a>>, AllocError> {
    let here = stop.here();
    let value_before = with_text("Expected a value before `{}`.", here);
    let lacks_value = !stop.allowed_of(&VALUES, here)?.is_empty();
    if lacks_value && begins_statement(here) {
        return Ok(Some(value_before));
    }
    let marks = stop.allowed_of(&MARKS, here)?;
    if here.is_empty() || !marks.is_empty() {
        return Ok(missing_mark(stop.before(1), here, &marks));
    }
    Ok(match stop.allowed_of(&MISSING, here)?.first() {
        Some(word) => Some(with_texts(WORD_BEFORE, word, here)),
        None => lacks_value.then_some(value_before),
    })
}

/// Which of these marks is missing between two words.
fn missing_mark<'a>(before: &'a str, here: &'a str, marks: &[&'static str]) -> Option<Advice<'a>> {
    let first = *marks.first()?;
    if here.is_empty() {
        let is_brace = marks.len() == 1 && first == "{";
        let sentence = if is_brace {
            "Expected `{` behind `{}`."
        } else {
            MORE_BEHIND
        };
        return Some(with_text(sentence, before));
    }
    Some(match (marks.len(), first) {
        (1, ";") => with_text("Expected `;` or a newline before `{}`.", here),
        (1, "@") | (2, "{") => with_text("Write `@{}`.", here),
        (2, _) => {
            let second = marks.last().copied().unwrap_or("");
            let gaps = [Gap::Text(first), Gap::Text(second), Gap::Text(here), NO_GAP];
            filled("Expected `{}` or `{}` before `{}`.", gaps)
        }
        _ => with_texts(WORD_BEFORE, first, here),
    })
}

/// The word at the place or the one before, where the part can be read without it.
fn surplus_advice<'a>(stop: &Stop<'a>) -> Result<Option<Advice<'a>>, AllocError> {
    for places in 0..2 {
        if stop.reads_without(places)? {
            return Ok(Some(with_text("Take `{}` out.", stop.before(places))));
        }
    }
    Ok(None)
}

/// What to do where these words may stand at the place, if they are few.
fn expected_advice<'a>(stop: &Stop<'a>, words: &'a [&'a str]) -> Option<Advice<'a>> {
    match words.len() {
        0 => None,
        1..=MOST_LISTED => Some(one_of(Gap::Words(words))),
        _ if stop.here().is_empty() => Some(with_text(MORE_BEHIND, stop.before(1))),
        _ if stop.is_in_rule() => Some(with_text("No statement begins with `{}`.", stop.here())),
        _ => None,
    }
}

/// The words that may stand at the place.
fn expected_words(stop: &Stop<'_>) -> Result<Vec<&'static str>, AllocError> {
    let mut words = Vec::new(stop.alloc);
    for kind in &kinds(stop.alloc)? {
        // Where the first one may stand.
        if stop.allows(kind.first().copied().unwrap_or(""), "")? {
            words.extend_from_slice(&stop.allowed_of(kind, "")?)?;
        }
    }
    words.sort()?;
    words.dedup();
    Ok(words)
}
