//! Sentences that say what to do about a fault.
//!
//! Advice is chosen without taking memory, and written where it is told. It has a test where it is
//! chosen.

use crate::near::nearest;
use crate::vocabulary::{constants, name_of, names};
use nft_tree::ComparedType;
use std::alloc::{AllocError, Global};

/// What fills a gap of a sentence.
#[derive(Clone, Copy)]
pub enum Gap<'a> {
    Text(&'a str),
    Number(u64),
    /// Words, as `a`, `b`.
    Words(&'a [&'a str]),
    /// The same of words with a blank between two.
    Listed(&'a str),
    /// The same of the constants of a type.
    Constants(ComparedType),
    Type(ComparedType),
    /// The types of the parts of a key, as a . b.
    Types(&'a [ComparedType]),
}

/// What fills a gap that a sentence doesn't have.
pub const NO_GAP: Gap<'static> = Gap::Text("");

impl<'a> Gap<'a> {
    /// Its words; none of what has none.
    fn words(self, alloc: Global) -> Result<Vec<&'a str>, AllocError> {
        match self {
            Gap::Words(words) => words.to_vec(alloc),
            Gap::Listed(words) => words.split(' ').collect(alloc),
            Gap::Constants(of) => names(alloc, constants(of)),
            _ => Ok(Vec::new(alloc)),
        }
    }

    fn put(self, alloc: Global, lines: &mut String) -> Result<(), AllocError> {
        match self {
            Gap::Text(text) => lines.push_str(text),
            Gap::Number(number) => write!(lines, "{number}"),
            Gap::Type(of) => put_types(lines, &[of]),
            Gap::Types(types) => put_types(lines, types),
            _ => put_list(lines, &self.words(alloc)?),
        }
    }
}

/// Writes words in quotes, with a comma between two.
fn put_list(lines: &mut String, words: &[&str]) -> Result<(), AllocError> {
    let mut mark = "";
    for word in words {
        write!(lines, "{mark}`{word}`")?;
        mark = ", ";
    }
    Ok(())
}

/// Writes the names of types, of one without a name its width, with a dot between two.
fn put_types(lines: &mut String, types: &[ComparedType]) -> Result<(), AllocError> {
    let mut mark = "";
    for of in types {
        lines.push_str(mark)?;
        match *of {
            ComparedType::Named(of) => lines.push_str(name_of(of))?,
            ComparedType::Unnamed(width) => write!(lines, "number of {width} bits")?,
        }
        mark = " . ";
    }
    Ok(())
}

/// Words of which one may be meant by the one that was written.
#[derive(Clone, Copy)]
struct Guess<'a> {
    written: &'a str,
    words: Gap<'a>,
    /// What is asked where one is near: that one fills the first gap, all of them the second.
    question: &'static str,
}

/// What to do: a sentence, with a `{}` in each of its gaps.
#[derive(Clone, Copy)]
pub struct Advice<'a> {
    sentence: &'static str,
    gaps: [Gap<'a>; 4],
    /// What is asked in its place, if a word is near.
    guess: Option<Guess<'a>>,
}

impl<'a> Advice<'a> {
    /// The same, unless one of some words is near the one that was written.
    pub fn unless_near(self, written: &'a str, words: Gap<'a>, question: &'static str) -> Self {
        let guess = Some(Guess {
            written,
            words,
            question,
        });
        Advice { guess, ..self }
    }

    /// Writes it on a line.
    pub fn put(self, alloc: Global, lines: &mut String) -> Result<(), AllocError> {
        if let Some(guess) = self.guess {
            let words = guess.words.words(alloc)?;
            if let Some(near) = nearest(alloc, guess.written, &words)? {
                let gaps = [Gap::Text(near), guess.words];
                return put_filled(alloc, lines, guess.question, &gaps);
            }
        }
        put_filled(alloc, lines, self.sentence, &self.gaps)
    }
}

/// Writes advice, if there is any; whether there is.
///
/// # Errors
/// `AllocError` for want of memory.
pub fn put_known(
    alloc: Global,
    advice: Option<Advice<'_>>,
    lines: &mut String,
) -> Result<bool, AllocError> {
    if let Some(advice) = advice {
        advice.put(alloc, lines)?;
    }
    Ok(advice.is_some())
}

/// Writes a sentence on a line, its gaps filled.
fn put_filled(
    alloc: Global,
    lines: &mut String,
    sentence: &str,
    gaps: &[Gap<'_>],
) -> Result<(), AllocError> {
    let mut pieces = sentence.split("{}");
    lines.push_str(pieces.next().unwrap_or(""))?;
    for gap in gaps {
        let Some(piece) = pieces.next() else {
            break;
        };
        gap.put(alloc, lines)?;
        lines.push_str(piece)?;
    }
    lines.push('\n')
}

/// A sentence with so many gaps filled.
pub fn filled<'a>(sentence: &'static str, gaps: [Gap<'a>; 4]) -> Advice<'a> {
    Advice {
        sentence,
        gaps,
        guess: None,
    }
}

/// A sentence without gaps.
pub fn fixed<'a>(sentence: &'static str) -> Advice<'a> {
    with_text(sentence, "")
}

/// A sentence with a word in its gap.
pub fn with_text<'a>(sentence: &'static str, text: &'a str) -> Advice<'a> {
    with_texts(sentence, text, "")
}

/// A sentence with a word in each of its two gaps.
pub fn with_texts<'a>(sentence: &'static str, first: &'a str, second: &'a str) -> Advice<'a> {
    let gaps = [Gap::Text(first), Gap::Text(second), NO_GAP, NO_GAP];
    filled(sentence, gaps)
}

/// This is to be written in place of what stands there.
pub fn write_this<'a>(text: &'a str) -> Advice<'a> {
    with_text("Write `{}`.", text)
}

/// The question for a near word.
pub const DID_YOU_MEAN: &str = "Did you mean `{}`?";

/// The question for a near word, one of several.
pub const DID_YOU_MEAN_ONE_OF: &str = "Did you mean `{}`? It is one of {}.";

/// A sentence with words in its gap.
pub fn with_words<'a>(sentence: &'static str, words: Gap<'a>) -> Advice<'a> {
    filled(sentence, [words, NO_GAP, NO_GAP, NO_GAP])
}

/// One of these is wanted.
pub fn one_of<'a>(words: Gap<'a>) -> Advice<'a> {
    with_words("Expected one of {}.", words)
}

/// The greatest number of a type, or of something else.
pub fn greatest_is<'a>(of: Gap<'a>, most: u64) -> Advice<'a> {
    let gaps = [of, Gap::Number(most), NO_GAP, NO_GAP];
    filled("The greatest {} is {}.", gaps)
}

/// A type takes no such value, but this.
pub fn no_value<'a>(of: ComparedType, instead: &'a str) -> Advice<'a> {
    let gaps = [Gap::Type(of), Gap::Text(instead), NO_GAP, NO_GAP];
    filled("This is no {}: write {}.", gaps)
}

/// An address has four groups.
pub fn groups_advice<'a>(word: &str) -> Option<Advice<'a>> {
    let groups = word.split('.').count() as u64;
    if matches!(groups, 1 | 4) || !matches!(word.as_bytes(), [b'0'..=b'9', ..]) {
        return None;
    }
    let sentence = "An address has 4 groups of digits, this one {}.";
    Some(with_words(sentence, Gap::Number(groups)))
}
