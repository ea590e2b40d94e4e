//! The types of keys and data.
ghost use Rattle.nft_tree.specs.declared.selector.ValueType.{ValueType};
ghost use Rattle.nft_tree.specs.declared.set.MapType.{MapType};
ghost use Rattle.nft_tree.specs.Tree.{SetTypeTree};
ghost use Rattle.nft_tree.specs.TreeViews.{set_type_tree};
ghost use Rattle.token_reader.specs.Readers.{IsRead};
ghost use Rattle.nft_rulesets.specs.Sets.{data_selector, data_type, map_type, set_type, value_type};

use nft_expressions::{anysel, selectors};
use nft_lexer::{Punctuator, Token};
use nft_tree::{MapType, Memory, SelectorOrVerdict, SetType, TypeOrVerdict, ValueType};
use std::alloc::Global;
use token_reader::{Dot, Production, after_punctuator, after_word, found, separated, word};

/// TYPE
struct TypeName;

impl Production for TypeName {
    type Item = ValueType;

    ghost Tree = { ValueType };

    ghost tree = { λ t. t };

    ghost read_at = { value_type.read };

    #[tactic(auto, unfolding(crate::specs::Sets::value_type))]
    fn read(
        _alloc: Global,
        tokens: &[Token],
        at: usize,
    ) -> Result<Option<(ValueType, usize)>, Memory> {
        let (name, at) = found!(word(tokens, at));
        Ok(Some((found!(ValueType::named(name)), at)))
    }
}

/// "type" TYPE {"." TYPE} | "typeof" keys
pub struct SetTypes;

impl Production for SetTypes {
    type Item = SetType;

    ghost Tree = { SetTypeTree };

    ghost tree = { set_type_tree };

    ghost read_at = { set_type.read };

    #[tactic(auto, unfolding(crate::specs::Sets::set_type, crate::specs::Sets::value_types))]
    fn read(
        alloc: Global,
        tokens: &[Token],
        at: usize,
    ) -> Result<Option<(SetType, usize)>, Memory> {
        if let Some(at) = after_word(tokens, at, b"type") {
            let (found, at) = found!(separated::<Dot, TypeName>(alloc, tokens, at, 1)?);
            return Ok(Some((SetType::Types(found), at)));
        }
        let at = found!(after_word(tokens, at, b"typeof"));
        let (found, at) = found!(selectors(alloc, tokens, at)?);
        Ok(Some((SetType::Selectors(found), at)))
    }
}

/// TYPE | "verdict"
#[tactic(auto, unfolding(crate::specs::Sets::data_type))]
fn data_type(tokens: &[Token], at: usize) -> Option<(TypeOrVerdict, usize)>
    ensures { IsRead (λ t. t) data_type.read tokens.now at result }
{
    let (name, at) = word(tokens, at)?;
    if name == b"verdict".as_slice() {
        return Some((TypeOrVerdict::Verdict, at));
    }
    Some((TypeOrVerdict::Type(ValueType::named(name)?), at))
}

/// anysel | "verdict"
#[tactic(auto, unfolding(crate::specs::Sets::data_selector))]
fn data_selector(tokens: &[Token], at: usize) -> Option<(SelectorOrVerdict, usize)>
    ensures { IsRead (λ s. s) data_selector.read tokens.now at result }
{
    if let Some((found, at)) = anysel(tokens, at) {
        return Some((SelectorOrVerdict::Selector(found), at));
    }
    let at = after_word(tokens, at, b"verdict")?;
    Some((SelectorOrVerdict::Verdict, at))
}

/// "type" TYPE ":" (TYPE | "verdict") | "typeof" anysel ":" (anysel | "verdict")
pub struct MapTypes;

impl Production for MapTypes {
    type Item = MapType;

    ghost Tree = { MapType };

    ghost tree = { λ t. t };

    ghost read_at = { map_type.read };

    #[tactic(auto, unfolding(crate::specs::Sets::map_type))]
    fn read(
        alloc: Global,
        tokens: &[Token],
        at: usize,
    ) -> Result<Option<(MapType, usize)>, Memory> {
        if let Some(at) = after_word(tokens, at, b"type") {
            let (key, at) = found!(TypeName::read(alloc, tokens, at)?);
            let at = found!(after_punctuator(tokens, at, Punctuator::Colon));
            let (value, at) = found!(data_type(tokens, at));
            return Ok(Some((MapType::Types(key, value), at)));
        }
        let at = found!(after_word(tokens, at, b"typeof"));
        let (key, at) = found!(anysel(tokens, at));
        let at = found!(after_punctuator(tokens, at, Punctuator::Colon));
        let (value, at) = found!(data_selector(tokens, at));
        Ok(Some((MapType::Selectors(key, value), at)))
    }
}
