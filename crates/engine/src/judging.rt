//! Checks a ruleset before it is loaded.
ghost use Rattle.std.specs.Prelude.{IfOk, IfErr};
ghost use Rattle.engine.specs.Judged.{Judged, JudgeRefuses};

use crate::fault::RunFault;
use crate::inputs::checked;
use rule_check::{chain_count, rule_count};
use std::alloc::Global;

/// The numbers of tables, chains and rules of a ruleset, saturating at `usize::MAX`, which no
/// accepted text reaches.
#[derive(Clone, Copy)]
pub struct Counts {
    pub tables: usize,
    pub chains: usize,
    pub rules: usize,
}

/// Checks a ruleset on a box. `rules` is the text of an nft(8) ruleset, `network` that of a box file.
///
/// # Errors
/// The first refusal, of the rules' text, the box file, and the ruleset on the box (its least
/// fault); or `Memory` after a failed allocation.
pub fn judge(alloc: Global, rules: &[u8], network: &[u8]) -> Result<Counts, RunFault>
    ensures accepted { IfOk result (λ counts. Judged rules.now network.now counts) }
    ensures refused { IfErr result (λ fault. JudgeRefuses rules.now network.now fault) }
{
    let checked = checked(alloc, rules, network)?;
    let tree = checked.tree();
    Ok(Counts {
        tables: tree.tables.len(),
        chains: chain_count(tree),
        rules: rule_count(tree),
    })
}
