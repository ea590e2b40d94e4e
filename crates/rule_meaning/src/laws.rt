//! Properties of the semantics of rules, each as the contract of a function that does nothing.
ghost use Rattle.std.specs.Prelude.{◌≡◌, ◌↔◌, ℕ, Bool, false, List, ◌∷◌, Contains, None};
ghost use Rattle.nft_tree.specs.declared.selector.Selector.{Selector};
ghost use Rattle.nft_tree.specs.Tree.{MatchTree, Statement, TableTree};
ghost use Rattle.box_file.specs.Box.{PlantTree};
ghost use Rattle.rule_meaning.specs.declared.facts.Facts.{Facts};
ghost use Rattle.rule_meaning.specs.declared.event.Event.{Event};
ghost use Rattle.rule_meaning.specs.Selectors.{value};
ghost use Rattle.rule_meaning.specs.Sets.{Scope};
ghost use Rattle.rule_meaning.specs.Matches.{holds};
ghost use Rattle.rule_meaning.specs.Runs.{Program};
ghost use Rattle.rule_meaning.specs.declared.stage.HookStage.{HookStage};
ghost use Rattle.rule_meaning.specs.Hooks.{BaseChain, InOrder, HookResult, RunsBaseChain, Continues, Stops};
ghost use Rattle.rule_meaning.specs.Hooks.{InTurn, Chains, Stage};
ghost use Rattle.rule_meaning.specs.Laws.{AtMostOneRun, AtMostOneResult, selectors_of, EmptyJump, CounterCounts, UnreachedHasNoEffect};

/// Running the remainder of a chain is deterministic.
pub fn run_unique()
    ensures { (p : Program Statement) → AtMostOneRun p }
{}

/// The same for programs over any other type of statements.
pub fn run_unique_for<S>()
    ensures { (p : Program S) → AtMostOneRun p }
{}

/// The order of base chains is unique, and base chains, sequences of them and stages of hooks have at
/// most one result.
pub fn hook_result_unique()
    ensures order { (text order other : List BaseChain) → InOrder text order → InOrder text other
        → order ≡ other }
    ensures base { (network : PlantTree) (tables : List TableTree) (b : BaseChain)
        → AtMostOneResult (RunsBaseChain network tables b) }
    ensures in_turn { (network : PlantTree) (tables : List TableTree) (bs : List BaseChain)
        → AtMostOneResult (InTurn network tables bs) }
    ensures chains { (network : PlantTree) (tables : List TableTree) (test : BaseChain → Bool)
        → AtMostOneResult (Chains network tables test) }
    ensures stages { (stage : HookStage) (network : PlantTree) (tables : List TableTree)
        → AtMostOneResult (Stage stage network tables) }
{}

/// A match fails if one of its selectors has no value.
pub fn match_needs_value()
    ensures { (scope : Scope) (m : MatchTree) (s : Selector) (f : Facts)
        → Contains (selectors_of m) s
        → value s f ≡ None → holds scope m f ≡ false }
{}

/// After a base chain that drops or translates, no further one runs.
pub fn drop_ends_hook()
    ensures { (network : PlantTree) (tables : List TableTree) (b : BaseChain) (bs : List BaseChain)
        (f : Facts) (es : List Event) (between hook_result : HookResult)
        → RunsBaseChain network tables b f es between → Stops between.verdict
        → InTurn network tables (b ∷ bs) f es hook_result ↔ (hook_result ≡ between) }
{}

/// After a base chain that accepts, the next ones run with its facts and events.
pub fn accept_ends_chain()
    ensures { (network : PlantTree) (tables : List TableTree) (b : BaseChain) (bs : List BaseChain)
        (f : Facts) (es : List Event) (between hook_result : HookResult)
        → RunsBaseChain network tables b f es between → Continues between.verdict
        → InTurn network tables (b ∷ bs) f es hook_result
        ↔ InTurn network tables bs between.facts between.events hook_result }
{}

/// A jump to a chain without rules has no effect but its event.
pub fn empty_chain_jump()
    ensures { (p : Program Statement) → EmptyJump p }
{}

/// A counter counts exactly the packets that pass all statements before it in its rule.
pub fn counters_count()
    ensures seen { (network : PlantTree) (number : ℕ) (t : TableTree) → CounterCounts network number t }
    ensures unseen { (network : PlantTree) (number : ℕ) (t : TableTree)
        → UnreachedHasNoEffect network number t }
{}
