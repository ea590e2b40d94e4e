//! Properties of the ends of rules, each as the contract of a function that does nothing.
ghost use Rattle.nft_tree.specs.Tree.{Statement};
ghost use Rattle.rule_meaning.specs.Runs.{Program};
ghost use Rattle.rule_sets.specs.Ends.{RunsToItsEnd};

/// A packet runs through a rule to its end, and then as the rule's verdict says.
pub fn rule_runs_to_its_end()
    ensures { (p : Program Statement) → RunsToItsEnd p }
{}
