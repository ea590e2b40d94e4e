//! The flags of sets and maps (nft(8), "Sets").
ghost use Rattle.std.specs.Prelude.{codes, [], ◌∷◌};
ghost use Rattle.nft_tree.specs.declared.set.SetFlag.{SetFlag};
ghost use Rattle.nft_tree.specs.declared.set.SetFlag.TheVariants.{Constant, Interval};
ghost use Rattle.token_reader.specs.Grammar.{one_of};

use nft_lexer::Token;
use nft_tree::{Memory, SetFlag};
use std::alloc::Global;
use token_reader::{Production, one_of};

static FLAGS: [(&[u8], SetFlag); 2] = [
    (b"constant", SetFlag::Constant),
    (b"interval", SetFlag::Interval),
];

/// "constant" | "interval"
pub(crate) struct Flag;

impl Production for Flag {
    type Item = SetFlag;

    ghost Tree = { SetFlag };

    ghost tree = { λ f. f };

    ghost read_at = { (one_of ((codes "constant", Constant) ∷ (codes "interval", Interval) ∷ [])).read };

    fn read(
        _alloc: Global,
        tokens: &[Token],
        at: usize,
    ) -> Result<Option<(SetFlag, usize)>, Memory> {
        Ok(one_of(tokens, at, &FLAGS))
    }
}
