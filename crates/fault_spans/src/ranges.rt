//! The tokens of a node, found from the whole ruleset downward.
ghost use Rattle.std.specs.Prelude.{◌≡◌, ◌<◌, List, IfOk, IsSomeAnd, length};
ghost use Rattle.fault_spans.specs.steps.Picking.{picked};
ghost use Rattle.nft_lexer.specs.TokenViews.{terminals};
ghost use Rattle.nft_tree.specs.Tree.{TableTree};
ghost use Rattle.nft_rulesets.specs.Rulesets.{SpellsRuleset};
ghost use Rattle.fault_nodes.specs.Nodes.{IsNode, anonymous_elements_in, elements_in, item_at, items_at, rules_at, statement_at, statements_at};
ghost use Rattle.fault_spans.specs.Standing.{AnonymousElementStands, ElementStands, ItemStands, NodeStands, RuleStands, StatementStands, TableStands};

use fault_nodes::Node;
use nft_lexer::Token;
use nft_tree::Memory;
use node_spans::{TokenRange, anonymous_elements, elements, items, rules, statements, tables};
use std::alloc::Global;

/// The tokens of a node of the ruleset that all of the tokens spell. `None` only if they spell none,
/// or none that has the node.
///
/// # Errors
///
/// `Memory` if an allocation was refused.
pub fn node_range(alloc: Global, tokens: &[Token], node: Node) -> Result<Option<TokenRange>, Memory>
    ensures { (tables : List TableTree) → SpellsRuleset tables (terminals tokens.now)
        → IsNode tables node
        → IfOk result (λ o. IsSomeAnd o (NodeStands tokens.now tables node)) }
{
    match node {
        Node::Table { table } => table_range(alloc, tokens, table),
        Node::Item { table, item } => item_range(alloc, tokens, table, item),
        Node::Rule { table, item, rule } => rule_range(alloc, tokens, table, item, rule),
        Node::Statement {
            table,
            item,
            rule,
            statement,
        } => statement_range(alloc, tokens, table, item, rule, statement),
        Node::Element {
            table,
            item,
            element,
        } => element_range(alloc, tokens, table, item, element),
        Node::AnonymousElement {
            table,
            item,
            rule,
            statement,
            element,
        } => anonymous_element_range(alloc, tokens, table, item, rule, statement, element),
    }
}

/// The range of this index.
fn nth(ranges: Option<Vec<TokenRange>>, index: usize) -> Option<TokenRange>
    ensures { result ≡ picked (λ rs. rs.items) ranges index }
{
    ranges?.get(index).copied()
}

fn table_range(alloc: Global, tokens: &[Token], table: usize) -> Result<Option<TokenRange>, Memory>
    ensures { (tables : List TableTree) → SpellsRuleset tables (terminals tokens.now)
        → table < length tables
        → IfOk result (λ o. IsSomeAnd o (TableStands tokens.now tables table)) }
{
    Ok(nth(tables(alloc, tokens)?, table))
}

fn item_range(
    alloc: Global,
    tokens: &[Token],
    table: usize,
    item: usize,
) -> Result<Option<TokenRange>, Memory>
    ensures { (tables : List TableTree) → SpellsRuleset tables (terminals tokens.now)
        → item < length (items_at tables table)
        → IfOk result (λ o. IsSomeAnd o (ItemStands tokens.now tables table item)) }
{
    let Some(outer) = table_range(alloc, tokens, table)? else {
        return Ok(None);
    };
    Ok(nth(items(alloc, tokens, outer)?, item))
}

fn rule_range(
    alloc: Global,
    tokens: &[Token],
    table: usize,
    item: usize,
    rule: usize,
) -> Result<Option<TokenRange>, Memory>
    ensures { (tables : List TableTree) → SpellsRuleset tables (terminals tokens.now)
        → rule < length (rules_at tables table item)
        → IfOk result (λ o. IsSomeAnd o (RuleStands tokens.now tables table item rule)) }
{
    let Some(outer) = item_range(alloc, tokens, table, item)? else {
        return Ok(None);
    };
    Ok(nth(rules(alloc, tokens, outer)?, rule))
}

fn statement_range(
    alloc: Global,
    tokens: &[Token],
    table: usize,
    item: usize,
    rule: usize,
    statement: usize,
) -> Result<Option<TokenRange>, Memory>
    ensures { (tables : List TableTree) → SpellsRuleset tables (terminals tokens.now)
        → statement < length (statements_at tables table item rule)
        → IfOk result (λ o. IsSomeAnd o
        (StatementStands tokens.now tables table item rule statement)) }
{
    let Some(outer) = rule_range(alloc, tokens, table, item, rule)? else {
        return Ok(None);
    };
    Ok(nth(statements(alloc, tokens, outer)?, statement))
}

fn element_range(
    alloc: Global,
    tokens: &[Token],
    table: usize,
    item: usize,
    element: usize,
) -> Result<Option<TokenRange>, Memory>
    ensures { (tables : List TableTree) → SpellsRuleset tables (terminals tokens.now)
        → element < elements_in (item_at tables table item)
        → IfOk result (λ o. IsSomeAnd o
        (ElementStands tokens.now tables table item element)) }
{
    let Some(outer) = item_range(alloc, tokens, table, item)? else {
        return Ok(None);
    };
    Ok(nth(elements(alloc, tokens, outer)?, element))
}

fn anonymous_element_range(
    alloc: Global,
    tokens: &[Token],
    table: usize,
    item: usize,
    rule: usize,
    statement: usize,
    element: usize,
) -> Result<Option<TokenRange>, Memory>
    ensures { (tables : List TableTree) → SpellsRuleset tables (terminals tokens.now)
        → element < anonymous_elements_in (statement_at tables table item rule statement)
        → IfOk result (λ o. IsSomeAnd o
        (AnonymousElementStands tokens.now tables table item rule statement element)) }
{
    let Some(outer) = statement_range(alloc, tokens, table, item, rule, statement)? else {
        return Ok(None);
    };
    Ok(nth(anonymous_elements(alloc, tokens, outer)?, element))
}
