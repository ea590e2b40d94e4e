//! Comments of tables, chains and hook specifications.
ghost use Rattle.nft_tree.specs.Tree.{Text};
ghost use Rattle.nft_rulesets.specs.Chains.{note};

use nft_lexer::Token;
use nft_tree::Memory;
use std::alloc::Global;
use token_reader::{Production, after_ends, found, string_after};

/// "comment" STRING end {end}
pub(crate) struct Note;

impl Production for Note {
    type Item = Vec<u8>;

    ghost Tree = { Text };

    ghost tree = { λ text. text.items };

    ghost read_at = { note.read };

    #[tactic(auto, unfolding(crate::specs::Chains::note, crate::specs::Chains::comment))]
    fn read(
        alloc: Global,
        tokens: &[Token],
        at: usize,
    ) -> Result<Option<(Vec<u8>, usize)>, Memory> {
        let (text, at) = found!(string_after(tokens, at, b"comment"));
        let at = found!(after_ends(tokens, at));
        Ok(Some((Vec::from_slice(alloc, text)?, at)))
    }
}
