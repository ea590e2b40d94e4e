//! Where a fault of a ruleset as a whole stands: at the node with which the ruleset gets it.
use crate::faults::read_box;
use box_file::Plant;
use fault_nodes::{FaultyNode, Node, declarations, ruleset_between};
use fault_places::{Span, span_of, tokens_within};
use fault_spans::{FaultSpan, fault_span};
use nft_lexer::{Punctuator, Token, TokenKind};
use nft_tree::{
    Data, DestinationTarget, Item, MapRef, Nat, Operand, Pair, Ruleset, SourceTarget, Stmt, Value,
    Verdict,
};
use rule_check::{CheckFault, least_fault};
use std::alloc::{AllocError, Global};

/// A ruleset with a fault, and the word at which it is shown.
#[derive(Drop)]
pub struct CheckPlace<'t> {
    pub span: FaultSpan<'t>,
    pub word: Span,
}

/// Where the fault of a ruleset stands; none where it has none.
///
/// # Errors
/// `AllocError` for want of memory.
pub fn check_place<'t>(
    alloc: Global,
    text: &'t [u8],
    network: &[u8],
) -> Result<Option<CheckPlace<'t>>, AllocError> {
    let Some(network) = read_box(alloc, network)? else {
        return Ok(None);
    };
    let Some(span) = fault_span(alloc, text, &network)? else {
        return Ok(None);
    };
    let (start, end) = (span.start, span.end);
    let own = tokens_within(&span.tokens, Span { start, end });
    let word = fault_word(alloc, &span.tree, &network, span.found, own)?;
    Ok(Some(CheckPlace { span, word }))
}

/// The word at which the fault of a node of a ruleset is shown, which has these tokens: by default the
/// first one.
///
/// # Errors
/// `AllocError` for want of memory.
pub fn fault_word(
    alloc: Global,
    tree: &Ruleset,
    network: &Plant,
    found: FaultyNode,
    tokens: &[Token<'_>],
) -> Result<Span, AllocError> {
    let shown = match (found.node, found.fault) {
        (Node::Item { .. }, CheckFault::WrongValue | CheckFault::MisplacedNatChain) => {
            end_of_priority(tokens)
        }
        (Node::Statement { .. }, CheckFault::MisplacedNat | CheckFault::StatementAfterVerdict) =>
            None,
        (Node::Statement { .. }, _) => tokens.last(),
        (Node::Element { .. } | Node::AnonymousElement { .. }, _) => if is_of_data(
            alloc, tree, network, found,
        )? {
            tokens.last()
        } else {
            None
        },
        _ => None,
    };
    Ok(match shown.or(tokens.first()) {
        Some(token) => span_of(token),
        None => Span { start: 0, end: 0 },
    })
}

/// Whether the fault of an element of a map is one of its data: with no other data has it the fault.
fn is_of_data(
    alloc: Global,
    tree: &Ruleset,
    network: &Plant,
    found: FaultyNode,
) -> Result<bool, AllocError> {
    match found.fault {
        CheckFault::Contradiction | CheckFault::TooLarge => return Ok(false),
        CheckFault::TypeMismatch | CheckFault::WrongValue | CheckFault::NoSuchInterface => {}
        _ => return Ok(true),
    }
    let part = found.position.saturating_sub(declarations(tree));
    let mut alone = ruleset_between(alloc, tree, part, part.saturating_add(1))?;
    for data in [
        Data::Verdict(Verdict::Accept),
        Data::Value(Value::Address(0)),
        Data::Value(Value::Number(0)),
    ] {
        let Some(pair) = first_pair(&mut alone) else {
            return Ok(false);
        };
        pair.value = data;
        match least_fault(alloc, &alone, network)? {
            // The fault, or one before it.
            Some(left) if left as u8 <= found.fault as u8 => {}
            _ => return Ok(true),
        }
    }
    Ok(false)
}

/// The first element of a map, also of an anonymous one.
fn first_pair(tree: &mut Ruleset) -> Option<&mut Pair> {
    for table in &mut tree.tables {
        for item in &mut table.items {
            if let Some(pair) = pair_in(item) {
                return Some(pair);
            }
        }
    }
    None
}

fn pair_in(item: &mut Item) -> Option<&mut Pair> {
    match item {
        Item::Map(map) => map.elements.as_mut()?.first_mut(),
        Item::Chain(chain) => {
            let statement = chain.rules.first_mut()?.statements.first_mut()?;
            pairs_in(statement)?.first_mut()
        }
        _ => None,
    }
}

/// The last word of a chain's priority.
fn end_of_priority<'a, 't>(tokens: &'a [Token<'t>]) -> Option<&'a Token<'t>> {
    let mut last = None;
    for token in tokens {
        match token.kind {
            TokenKind::NewLine | TokenKind::Punctuator(Punctuator::Semicolon) if last.is_some() =>
                break,
            _ if last.is_some() || token.text == b"priority".as_slice() => last = Some(token),
            _ => {}
        }
    }
    last
}

/// The elements of the anonymous map in a statement.
fn pairs_in(statement: &mut Stmt) -> Option<&mut Vec<Pair>> {
    let map = match statement {
        Stmt::VerdictMap(_, map) => map,
        Stmt::SetMark(_, Operand::MapLookup(look))
        | Stmt::Nat(
            Nat::Source(SourceTarget::MapLookup(look))
            | Nat::Destination(DestinationTarget::MapLookup(look)),
        ) => &mut look.map,
        _ => return None,
    };
    match map {
        MapRef::Anonymous(pairs) => Some(pairs),
        MapRef::Named(_) => None,
    }
}
