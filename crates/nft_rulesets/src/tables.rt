//! Tables, their items, and rulesets.
ghost use Rattle.std.specs.Prelude.{◌≡◌, List, IfOk, IfSome, IsSomeAnd};
ghost use Rattle.std.specs.Option.{option_map};
ghost use Rattle.nft_lexer.specs.TokenViews.{terminals};
ghost use Rattle.nft_tree.specs.Tree.{ItemTree, TableTree};
ghost use Rattle.nft_tree.specs.TreeViews.{item_tree, table_tree, tables_of};
ghost use Rattle.std.specs.Prelude.{◌≤◌, Some, length};
ghost use Rattle.token_reader.specs.Readers.{IsRead, remaining};
ghost use Rattle.token_reader.specs.Grammar.{ends, ◌◃◌};
ghost use Rattle.nft_rulesets.specs.Rulesets.{SpellsRuleset, flush, item, table, table_name};
ghost use Rattle.nft_rulesets.specs.steps.Laws.{ruleset_at};
ghost use Rattle.nft_rulesets.specs.steps.Starts.{ruleset_start, table_start};

use crate::chains::chain;
use crate::sets::{map_decl, set_decl};
use nft_lexer::{Punctuator, Token};
use nft_tree::{Family, Item, Memory, Ruleset, Table};
use std::alloc::Global;
use token_reader::{
    Production, after_ends, after_punctuator, after_word, found, one_of, repeated, skip_ends,
    string_after, word,
};

static FAMILIES: [(&[u8], Family); 2] = [(b"ip", Family::Ip), (b"inet", Family::Inet)];

/// An item of a table: "comment" STRING | chain | set | map
pub struct TableItem;

impl Production for TableItem {
    type Item = Item;

    ghost Tree = { ItemTree };

    ghost tree = { item_tree };

    ghost read_at = { item.read };

    #[tactic(auto, unfolding(crate::specs::Rulesets::item, crate::specs::Chains::comment))]
    fn read(alloc: Global, tokens: &[Token], at: usize) -> Result<Option<(Item, usize)>, Memory> {
        if let Some((text, at)) = string_after(tokens, at, b"comment") {
            return Ok(Some((Item::Comment(Vec::from_slice(alloc, text)?), at)));
        }
        if let Some((chain, at)) = chain(alloc, tokens, at)? {
            return Ok(Some((Item::Chain(chain), at)));
        }
        if let Some((set, at)) = set_decl(alloc, tokens, at)? {
            return Ok(Some((Item::Set(set), at)));
        }
        let (map, at) = found!(map_decl(alloc, tokens, at)?);
        Ok(Some((Item::Map(map), at)))
    }
}

/// item {end}
struct NextItem;

impl Production for NextItem {
    type Item = Item;

    ghost Tree = { ItemTree };

    ghost tree = { item_tree };

    ghost read_at = { (item ◃ ends).read };

    fn read(alloc: Global, tokens: &[Token], at: usize) -> Result<Option<(Item, usize)>, Memory> {
        let (item, at) = found!(TableItem::read(alloc, tokens, at)?);
        Ok(Some((item, skip_ends(tokens, at))))
    }
}

/// ["ip" | "inet"] NAME; a table's name may be a family's
#[tactic(auto, unfolding(crate::specs::Rulesets::table_name))]
fn table_name<'t>(tokens: &[Token<'t>], at: usize) -> Option<((Family, &'t [u8]), usize)>
    ensures { IsRead (λ x. (x.0, x.1.now)) table_name.read tokens.now at result }
{
    if let Some((family, after)) = one_of(tokens, at, &FAMILIES)
        && let Some((name, end)) = word(tokens, after)
    {
        return Some(((family, name), end));
    }
    let (name, at) = word(tokens, at)?;
    Some(((Family::Ip, name), at))
}

/// What stands before the items of a table: "table" ["ip" | "inet"] NAME "{" {end}
///
/// Its family and its name, and the position after it; `None` if no table begins at `at`.
#[tactic(auto, unfolding(crate::specs::steps::Starts::table_start))]
pub fn table_start<'t>(tokens: &[Token<'t>], at: usize) -> Option<((Family, &'t [u8]), usize)>
    ensures { IsRead (λ x. (x.0, x.1.now)) table_start.read tokens.now at result }
{
    let at = after_word(tokens, at, b"table")?;
    let (name, at) = table_name(tokens, at)?;
    let at = after_punctuator(tokens, at, Punctuator::OpenBrace)?;
    Some((name, skip_ends(tokens, at)))
}

/// A table: "table" ["ip" | "inet"] NAME "{" {end} {item {end}} "}"
pub struct AnyTable;

impl Production for AnyTable {
    type Item = Table;

    ghost Tree = { TableTree };

    ghost tree = { table_tree };

    ghost read_at = { table.read };

    #[tactic(auto, unfolding(crate::specs::Rulesets::table, crate::specs::steps::Starts::table_start))]
    fn read(alloc: Global, tokens: &[Token], at: usize) -> Result<Option<(Table, usize)>, Memory> {
        let ((family, name), at) = found!(table_start(tokens, at));
        let (items, at) = repeated::<NextItem>(alloc, tokens, at)?;
        let at = found!(after_punctuator(tokens, at, Punctuator::CloseBrace));
        let name = Vec::from_slice(alloc, name)?;
        let table = Table {
            family,
            name,
            items,
        };
        Ok(Some((table, at)))
    }
}

/// table {end}
struct NextTable;

impl Production for NextTable {
    type Item = Table;

    ghost Tree = { TableTree };

    ghost tree = { table_tree };

    ghost read_at = { (table ◃ ends).read };

    fn read(alloc: Global, tokens: &[Token], at: usize) -> Result<Option<(Table, usize)>, Memory> {
        let (table, at) = found!(AnyTable::read(alloc, tokens, at)?);
        Ok(Some((table, skip_ends(tokens, at))))
    }
}

/// The position after what stands before the tables of a ruleset: {end} ["flush" "ruleset" end
/// {end}]
#[tactic(auto, unfolding(crate::specs::steps::Starts::ruleset_start, crate::specs::Rulesets::flush))]
pub fn ruleset_start(tokens: &[Token]) -> usize
    ensures read { ruleset_start.read (terminals tokens.now)
        ≡ Some (tt, remaining tokens.now result) }
    ensures within { result ≤ length tokens.now }
{
    let start = skip_ends(tokens, 0);
    if let Some(after) = after_word(tokens, start, b"flush")
        && let Some(after) = after_word(tokens, after, b"ruleset")
        && let Some(end) = after_ends(tokens, after)
    {
        end
    } else {
        start
    }
}

/// {end} ["flush" "ruleset" end {end}] {table {end}}, all of the tokens
#[tactic(auto, using(crate::specs::steps::Starts::whole_from), unfolding(crate::specs::steps::Laws::ruleset_at))]
fn whole(alloc: Global, tokens: &[Token]) -> Result<Option<Ruleset>, Memory>
    ensures { IfOk result (λ o. option_map tables_of o ≡ ruleset_at (terminals tokens.now)) }
{
    let at = ruleset_start(tokens);
    let (tables, end) = repeated::<NextTable>(alloc, tokens, at)?;
    if end < tokens.len() {
        return Ok(None);
    }
    Ok(Some(Ruleset { tables }))
}

/// The ruleset that all of the tokens spell; `None` if they spell none.
///
/// # Errors
///
/// `Memory` if an allocation was refused.
pub fn ruleset(alloc: Global, tokens: &[Token]) -> Result<Option<Ruleset>, Memory>
    // Soundness: the tokens spell the answer.
    ensures found { IfOk result (λ o.
        IfSome o (λ read. SpellsRuleset (tables_of read) (terminals tokens.now))) }
    // Completeness: what they spell is the answer; so it is unique, and `None` means that there is
    // none.
    ensures only { (tables : List TableTree) → SpellsRuleset tables (terminals tokens.now)
        → IfOk result (λ o. IsSomeAnd o (λ read. tables_of read ≡ tables)) }
    // The answer is what the production's parser gives.
    ensures read { IfOk result (λ o. option_map tables_of o ≡ ruleset_at (terminals tokens.now)) }
{
    whole(alloc, tokens)
}
