//! The fields of sets and maps, in any order (nft(8), "Sets", "Maps").
ghost use Rattle.std.specs.Prelude.{◌≡◌, IfSome, Some, None, IfOk, codes, if◌then◌else◌, map, option_map};
ghost use Rattle.std.specs.Option.{is_none};
ghost use Rattle.token_reader.specs.Grammar.{keyword, punctuation, ◌▹◌, ◌◃◌};
ghost use Rattle.token_reader.specs.Readers.{IsAfter, IsRead, remaining};
ghost use Rattle.nft_lexer.specs.declared.token.Punctuator.TheVariants.{CloseBrace, Equals, OpenBrace};
ghost use Rattle.nft_rulesets.specs.Sets as trees;
ghost use Rattle.nft_rulesets.specs.Sets.{any_field, block, collect_fields, set_flags, with_field};
ghost use Rattle.nft_rulesets.specs.steps.Reading.{read_by};
ghost use Rattle.nft_rulesets.specs.steps.Starts.{block_start, elements_start};
ghost use Rattle.nft_rulesets.specs.steps.Views.{field_tree, fields_tree};

use crate::flags::Flag;
use nft_lexer::{Punctuator, Token};
use nft_tree::{Memory, SetFlag};
use std::alloc::Global;
use std::marker::PhantomData;
use std::mem;
use token_reader::{
    Comma, Production, after_punctuator, after_word, found, lines, number, separated, skip_ends,
    string_after, word,
};

/// A field of a set or a map.
#[derive(Drop)]
pub enum Field<K, E> {
    Key(K),
    Flags(Vec<SetFlag>),
    Size(u64),
    AutoMerge,
    Comment(Vec<u8>),
    Elements(E),
}

/// The values of the fields.
#[derive(Drop)]
pub(crate) struct Fields<K, E> {
    pub(crate) key: Option<K>,
    pub(crate) flags: Option<Vec<SetFlag>>,
    pub(crate) size: Option<u64>,
    pub(crate) auto_merge: bool,
    pub(crate) comment: Option<Vec<u8>>,
    pub(crate) elements: Option<E>,
}

/// Sets an empty slot; `false` if it was full.
fn set_once<T: Drop>(slot: &mut Option<T>, value: T) -> bool
    ensures after { slot.new ≡ Some value }
    ensures first { result ≡ is_none slot.old }
{
    slot.replace(value).is_none()
}

/// Adds the field to the values; `false` if it was already there.
fn set_field<K: Production, E: Production>(
    all: &mut Fields<K::Item, E::Item>,
    field: Field<K::Item, E::Item>,
) -> bool
    ensures { (if result then Some (fields_tree K.tree E.tree all.new) else None)
        ≡ with_field (field_tree K.tree E.tree field) (fields_tree K.tree E.tree all.old) }
{
    match field {
        Field::Key(key) => set_once(&mut all.key, key),
        Field::Flags(flags) => set_once(&mut all.flags, flags),
        Field::Size(size) => set_once(&mut all.size, size),
        Field::AutoMerge => !mem::replace(&mut all.auto_merge, true),
        Field::Comment(text) => set_once(&mut all.comment, text),
        Field::Elements(elements) => set_once(&mut all.elements, elements),
    }
}

/// "flags" sflag {"," sflag}
#[tactic(auto, unfolding(crate::specs::Sets::set_flags))]
fn set_flags(
    alloc: Global,
    tokens: &[Token],
    at: usize,
) -> Result<Option<(Vec<SetFlag>, usize)>, Memory>
    ensures { IfOk result (IsRead (λ found. found.items) set_flags.read tokens.now at) }
{
    let at = found!(after_word(tokens, at, b"flags"));
    separated::<Comma, Flag>(alloc, tokens, at, 1)
}

/// What stands before the elements of a set or a map: "elements" "=" "{"
///
/// The position after it; `None` if the field at `at` is another one.
#[tactic(auto, unfolding(crate::specs::steps::Starts::elements_start))]
pub fn elements_start(tokens: &[Token], at: usize) -> Option<usize>
    ensures read { option_map (λ end. (tt {0}, remaining tokens.now end)) result
        ≡ elements_start.read (remaining tokens.now at) }
    ensures within { IfSome result (IsAfter tokens.now at) }
{
    let at = after_word(tokens, at, b"elements")?;
    let at = after_punctuator(tokens, at, Punctuator::Equals)?;
    after_punctuator(tokens, at, Punctuator::OpenBrace)
}

/// "elements" "=" "{" elements "}"
#[tactic(auto, unfolding(crate::specs::steps::Starts::elements_start))]
fn elements_field<E: Production>(
    alloc: Global,
    tokens: &[Token],
    at: usize,
) -> Result<Option<(E::Item, usize)>, Memory>
    ensures { IfOk result (IsRead E.tree
        (keyword (codes "elements") ▹ punctuation Equals ▹ punctuation OpenBrace ▹ read_by E.read_at
        ◃ punctuation CloseBrace).read tokens.now at) }
{
    let at = found!(elements_start(tokens, at));
    let (elements, at) = found!(E::read(alloc, tokens, at)?);
    let at = found!(after_punctuator(tokens, at, Punctuator::CloseBrace));
    Ok(Some((elements, at)))
}

/// key | "flags" sflag {"," sflag} | "size" NUM | "auto-merge" | "comment" STRING
/// | "elements" "=" "{" elements "}"
pub struct AnyField<K, E> {
    parts: PhantomData<(K, E)>,
}

impl<K: Production, E: Production> Production for AnyField<K, E> {
    type Item = Field<K::Item, E::Item>;

    ghost Tree = { trees.Field K.Tree E.Tree };

    ghost tree = { field_tree K.tree E.tree };

    ghost read_at = { (any_field (read_by K.read_at) (read_by E.read_at)).read };

    #[tactic(auto, unfolding(crate::specs::Sets::any_field, crate::specs::Sets::other_field))]
    fn read(
        alloc: Global,
        tokens: &[Token],
        at: usize,
    ) -> Result<Option<(Field<K::Item, E::Item>, usize)>, Memory> {
        if let Some((key, at)) = K::read(alloc, tokens, at)? {
            return Ok(Some((Field::Key(key), at)));
        }
        if let Some((flags, at)) = set_flags(alloc, tokens, at)? {
            return Ok(Some((Field::Flags(flags), at)));
        }
        if let Some(at) = after_word(tokens, at, b"size") {
            let (size, at) = found!(number(tokens, at));
            return Ok(Some((Field::Size(size), at)));
        }
        if let Some(at) = after_word(tokens, at, b"auto-merge") {
            return Ok(Some((Field::AutoMerge, at)));
        }
        if let Some((text, at)) = string_after(tokens, at, b"comment") {
            return Ok(Some((Field::Comment(Vec::from_slice(alloc, text)?), at)));
        }
        let (elements, at) = found!(elements_field::<E>(alloc, tokens, at)?);
        Ok(Some((Field::Elements(elements), at)))
    }
}

/// The values of the fields; `None` if a field is there twice.
fn collect_fields<K: Production, E: Production>(
    fields: Vec<Field<K::Item, E::Item>>,
) -> Option<Fields<K::Item, E::Item>>
    ensures { option_map (fields_tree K.tree E.tree) result
        ≡ collect_fields (map (field_tree K.tree E.tree) fields.items) }
{
    let mut all = Fields {
        key: None,
        flags: None,
        size: None,
        auto_merge: false,
        comment: None,
        elements: None,
    };
    for field in fields {
        if !set_field::<K, E>(&mut all, field) {
            return None;
        }
    }
    Some(all)
}

/// What stands before the fields of a set or a map: kind NAME "{" {end}
///
/// Its name, and the position after it; `None` if none of this kind begins at `at`.
#[tactic(auto, unfolding(crate::specs::steps::Starts::block_start))]
pub fn block_start<'t>(tokens: &[Token<'t>], at: usize, kind: &[u8]) -> Option<(&'t [u8], usize)>
    ensures { IsRead (λ x. x.now) (block_start kind.now).read tokens.now at result }
{
    let at = after_word(tokens, at, kind)?;
    let (name, at) = word(tokens, at)?;
    let at = after_punctuator(tokens, at, Punctuator::OpenBrace)?;
    Some((name, skip_ends(tokens, at)))
}

/// kind NAME "{" {end} field {end {end} field} {end} "}"
#[tactic(auto, unfolding(crate::specs::Sets::block, crate::specs::steps::Starts::block_start))]
pub(crate) fn block<K: Production, E: Production>(
    alloc: Global,
    tokens: &[Token],
    at: usize,
    kind: &[u8],
) -> Result<Option<((Vec<u8>, Fields<K::Item, E::Item>), usize)>, Memory>
    ensures { IfOk result (IsRead (λ x. (x.0.items, fields_tree K.tree E.tree x.1))
        (keyword kind.now ▹ block (read_by K.read_at) (read_by E.read_at)).read tokens.now at) }
{
    let (name, at) = found!(block_start(tokens, at, kind));
    let (fields, at) = found!(lines::<AnyField<K, E>>(alloc, tokens, at)?);
    let at = found!(after_punctuator(tokens, at, Punctuator::CloseBrace));
    let name = Vec::from_slice(alloc, name)?;
    let all = found!(collect_fields::<K, E>(fields));
    Ok(Some(((name, all), at)))
}
