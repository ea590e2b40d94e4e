//! Compiles a ruleset.
ghost use Rattle.std.specs.Prelude.{◌≡◌, ◌≤◌, ℕ, IfOk};
ghost use Rattle.nft_tree.specs.declared.chain.Hook.{Hook};
ghost use Rattle.nft_tree.specs.Tree.{TableTree};
ghost use Rattle.rule_paths.specs.Paths.{AreAllCosts, Caller, ruleset_cost};
ghost use Rattle.rule_check.specs.WellFormed.{WellFormed};
ghost use Rattle.filter_vm.specs.Machine.{starts_of};
ghost use Rattle.compiler.specs.Compiled.{HasStarts, AgreesWithRules, total_cost};
ghost use Rattle.code_layout.specs.CodeLayout.{AreTableCodes};
ghost use Rattle.compiler.specs.steps.Bases.{IsRulesetCode};

use crate::starts::{add_base_chains, add_starts};
use crate::tables::add_tables;
use filter_vm::Code;
use rule_check::Checked;
use rule_laws::{costs_rank_chains, hooks_terminate};
use std::alloc::{AllocError, Global};

/// The code of each table, and the starts of each hook.
fn ruleset_code(alloc: Global, checked: &Checked) -> Result<Code, AllocError>
    requires { WellFormed checked.now.rules checked.now.network }
    ensures { IfOk result (λ code. IsRulesetCode checked.now code) }
{
    let names = checked.names(alloc)?;
    let mut code = Code {
        tables: Vec::new(alloc),
        prerouting: Vec::new(alloc),
        input: Vec::new(alloc),
        forward: Vec::new(alloc),
        output: Vec::new(alloc),
        postrouting: Vec::new(alloc),
    };
    add_tables(alloc, checked.plant(), &names, &mut code.tables)?;
    let mut bases = Vec::new(alloc);
    add_base_chains(checked, &names, &mut bases)?;
    add_starts(bases, &mut code)?;
    Ok(code)
}

/// The code of a checked ruleset. Its starts are the base chains of each hook in the order in which
/// they run. On every packet, the verdict and the events of a start are those of the base chain's
/// rules and policy. There is one step for each statement of the rules that aren't dropped: those
/// behind a rule that always ends its chain, and those of which an earlier merged rule takes each
/// value. A start costs what `check` counts for its chain.
///
/// # Errors
///
/// `AllocError` for want of memory.
pub fn compile(alloc: Global, checked: &Checked) -> Result<Code, AllocError>
    ensures starts { IfOk result (λ code. (hook : Hook)
        → HasStarts checked.now.rules hook (starts_of code hook)) }
    ensures runs { IfOk result (λ code. AgreesWithRules checked.now code) }
    ensures steps { IfOk result (λ code.
        AreTableCodes checked.now.network checked.now.rules code.tables.items) }
    ensures total { IfOk result (λ code. (cost : TableTree → Caller → ℕ)
        → AreAllCosts checked.now.rules cost
        → total_cost code ≡ ruleset_cost cost checked.now.rules) }
    ensures cost { IfOk result (λ code. total_cost code ≤ 65536) }
{
    // Facts of checked rulesets, for the proof: these calls do nothing.
    checked.known_bounds();
    costs_rank_chains();
    hooks_terminate();
    let code = ruleset_code(alloc, checked)?;
    Ok(code)
}
