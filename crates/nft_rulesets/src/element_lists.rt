//! Lists of elements and of pairs, as productions.
ghost use Rattle.std.specs.Prelude.{List, map};
ghost use Rattle.nft_tree.specs.Tree.{ElementTree, PairTree};
ghost use Rattle.nft_tree.specs.TreeViews.{element_tree, pair_tree};
ghost use Rattle.nft_expressions.specs.Elements.{elements, pairs};

use nft_expressions::{elems, pairs};
use nft_lexer::Token;
use nft_tree::{Element, Memory, Pair};
use std::alloc::Global;
use token_reader::Production;

/// The elements of a set, up to the closing brace.
pub struct Elements;

impl Production for Elements {
    type Item = Vec<Element>;

    ghost Tree = { List ElementTree };

    ghost tree = { λ es. map element_tree es.items };

    ghost read_at = { elements.read };

    fn read(
        alloc: Global,
        tokens: &[Token],
        at: usize,
    ) -> Result<Option<(Vec<Element>, usize)>, Memory> {
        elems(alloc, tokens, at)
    }
}

/// The pairs of a map, up to the closing brace.
pub struct Pairs;

impl Production for Pairs {
    type Item = Vec<Pair>;

    ghost Tree = { List PairTree };

    ghost tree = { λ ps. map pair_tree ps.items };

    ghost read_at = { pairs.read };

    fn read(
        alloc: Global,
        tokens: &[Token],
        at: usize,
    ) -> Result<Option<(Vec<Pair>, usize)>, Memory> {
        pairs(alloc, tokens, at)
    }
}
