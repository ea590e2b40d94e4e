//! The counters of a ruleset, nested as its tree is.
//!
//! Each statement has a tally, a counter or not, so that a position is an index and no search is
//! needed.
use nft_tree::{Chain, CounterStart, Rule, Ruleset, Table};
use rule_meaning::{Event, StatementPosition};
use std::alloc::{AllocError, Global};
use std::marker::Model;

/// The value of a counter.
#[derive(Clone, Copy)]
pub struct Tally {
    pub packets: u128,
    pub bytes: u128,
}

impl Tally {
    ghost use Rattle.std.specs.Prelude.{◌≡◌, ◌<◌, ◌^◌};
    ghost use Rattle.report.specs.steps.Tallying.{raised, started};

    /// The initial value of a counter; zero for a statement that is none.
    fn starting(counter: Option<CounterStart>) -> Self
        ensures starts { result ≡ started counter }
        ensures fits { (result.packets < 2 ^ 64) × (result.bytes < 2 ^ 64) }
    {
        match counter {
            Some(start) => Tally {
                packets: u128::from(start.packets),
                bytes: u128::from(start.bytes),
            },
            None => Tally {
                packets: 0,
                bytes: 0,
            },
        }
    }

    /// Counts one packet of this length. Saturation isn't reached in any run.
    fn count(&mut self, length: u16)
        ensures { self.new ≡ raised length self.old }
    {
        self.packets = self.packets.saturating_add(1);
        self.bytes = self.bytes.saturating_add(u128::from(length));
    }
}

/// A statement's position: tables and chains from 0, rules and statements from 1.
#[derive(Clone, Copy)]
pub struct Location {
    pub table: usize,
    pub chain: usize,
    pub rule: usize,
    pub statement: usize,
}

/// The tallies of a rule's statements.
#[derive(Drop)]
struct RuleTallies {
    statements: Vec<Tally>,
}

impl Model for RuleTallies {
    ghost use Rattle.std.specs.Prelude.{List};
    ghost use Rattle.report.specs.declared.tallies.Tally.{Tally};

    ghost Value = { List Tally };

    ghost view = { λ r. r.statements.items };
}

impl RuleTallies {
    ghost use Rattle.std.specs.Prelude.{◌≡◌, ◌<◌, ◌^◌, All, IfOk};
    ghost use Rattle.nft_tree.specs.TreeViews.{rule_tree};
    ghost use Rattle.nft_tree.specs.TableItems.{numbered_from_one};
    ghost use Rattle.report.specs.steps.Tallying.{fresh_rule, rule_counted};

    fn new(alloc: Global, rule: &Rule) -> Result<Self, AllocError>
        ensures starts { IfOk result (λ r. r ≡ fresh_rule (rule_tree rule.now)) }
        ensures fits { IfOk result (λ r. All (λ n. (n.packets < 2 ^ 64) × (n.bytes < 2 ^ 64)) r) }
    {
        let mut statements = Vec::with_capacity(alloc, rule.statements.len())?;
        for statement in &rule.statements {
            statements.push(Tally::starting(statement.counter()))?;
        }
        Ok(RuleTallies { statements })
    }

    #[tactic(auto, using(crate::proofs::Counting::set_from_one, crate::proofs::Counting::none_from_one))]
    fn count(&mut self, statement: u32, length: u16)
        ensures { self.new ≡ rule_counted length statement self.old }
    {
        let number = statement as usize;
        if 0 < number && number <= self.statements.len() {
            let tally = &mut self.statements[number - 1];
            tally.count(length);
        }
    }

    fn at(&self, statement: usize) -> Option<Tally>
        ensures { result ≡ numbered_from_one self.now statement }
    {
        if statement == 0 {
            return None;
        }
        self.statements.get(statement - 1).copied()
    }
}

/// The tallies of a chain's rules.
#[derive(Drop)]
struct ChainTallies {
    rules: Vec<RuleTallies>,
}

impl Model for ChainTallies {
    ghost use Rattle.std.specs.Prelude.{List};
    ghost use Rattle.report.specs.declared.tallies.Tally.{Tally};

    ghost Value = { List (List Tally) };

    ghost view = { λ c. c.rules.items };
}

impl ChainTallies {
    ghost use Rattle.std.specs.Prelude.{◌≡◌, ◌<◌, ◌^◌, All, IfOk};
    ghost use Rattle.std.specs.Option.{option_and_then};
    ghost use Rattle.nft_tree.specs.TreeViews.{chain_tree};
    ghost use Rattle.nft_tree.specs.TableItems.{numbered_from_one};
    ghost use Rattle.report.specs.steps.Tallying.{fresh_chain, chain_counted};

    #[tactic(auto, using(crate::proofs::Fresh::growing))]
    fn new(alloc: Global, chain: &Chain) -> Result<Self, AllocError>
        ensures starts { IfOk result (λ c. c ≡ fresh_chain (chain_tree chain.now)) }
        ensures fits { IfOk result (λ c.
            All (All (λ n. (n.packets < 2 ^ 64) × (n.bytes < 2 ^ 64))) c) }
    {
        let mut rules = Vec::with_capacity(alloc, chain.rules.len())?;
        for rule in &chain.rules {
            rules.push(RuleTallies::new(alloc, rule)?)?;
        }
        Ok(ChainTallies { rules })
    }

    #[tactic(auto, using(crate::proofs::Counting::set_from_one, crate::proofs::Counting::none_from_one))]
    fn count(&mut self, rule: u32, statement: u32, length: u16)
        ensures { self.new ≡ chain_counted length statement rule self.old }
    {
        let number = rule as usize;
        if 0 < number && number <= self.rules.len() {
            let tallies = &mut self.rules[number - 1];
            tallies.count(statement, length);
        }
    }

    fn at(&self, rule: usize, statement: usize) -> Option<Tally>
        ensures { result ≡ option_and_then (λ r. numbered_from_one r statement)
            (numbered_from_one self.now rule) }
    {
        if rule == 0 {
            return None;
        }
        self.rules.get(rule - 1)?.at(statement)
    }
}

/// The tallies of a table's chains.
#[derive(Drop)]
struct TableTallies {
    chains: Vec<ChainTallies>,
}

impl Model for TableTallies {
    ghost use Rattle.std.specs.Prelude.{List};
    ghost use Rattle.report.specs.declared.tallies.Tally.{Tally};

    ghost Value = { List (List (List Tally)) };

    ghost view = { λ t. t.chains.items };
}

impl TableTallies {
    ghost use Rattle.std.specs.Prelude.{◌≡◌, ◌<◌, ◌^◌, All, IfOk, slice_get};
    ghost use Rattle.std.specs.Option.{option_and_then};
    ghost use Rattle.nft_tree.specs.TreeViews.{table_tree};
    ghost use Rattle.nft_tree.specs.TableItems.{numbered_from_one};
    ghost use Rattle.report.specs.steps.Tallying.{fresh_table, table_counted};

    fn new(alloc: Global, table: &Table) -> Result<Self, AllocError>
        ensures starts { IfOk result (λ t. t ≡ fresh_table (table_tree table.now)) }
        ensures fits { IfOk result (λ t.
            All (All (All (λ n. (n.packets < 2 ^ 64) × (n.bytes < 2 ^ 64)))) t) }
    {
        let mut chains = Vec::new(alloc);
        for item in &table.items {
            if let Some(chain) = item.chain() {
                chains.push(ChainTallies::new(alloc, chain)?)?;
            }
        }
        Ok(TableTallies { chains })
    }

    #[tactic(auto, using(crate::proofs::Counting::set_there, crate::proofs::Counting::none_there))]
    fn count(&mut self, chain: u32, rule: u32, statement: u32, length: u16)
        ensures { self.new ≡ table_counted length statement rule chain self.old }
    {
        let number = chain as usize;
        if number < self.chains.len() {
            let tallies = &mut self.chains[number];
            tallies.count(rule, statement, length);
        }
    }

    fn at(&self, chain: usize, rule: usize, statement: usize) -> Option<Tally>
        ensures { result ≡ option_and_then (λ r. numbered_from_one r statement) (option_and_then
            (λ c. numbered_from_one c rule) (slice_get self.now chain)) }
    {
        self.chains.get(chain)?.at(rule, statement)
    }
}

/// The tallies of a ruleset's tables.
#[derive(Drop)]
pub struct RulesetTallies {
    tables: Vec<TableTallies>,
}

impl Model for RulesetTallies {
    ghost use Rattle.report.specs.Representing.{Tallies};

    ghost Value = { Tallies };

    ghost view = { λ t. t.tables.items };
}

impl RulesetTallies {
    ghost use Rattle.std.specs.Prelude.{◌≡◌, ◌<◌, ◌^◌, All, IfOk};
    ghost use Rattle.nft_tree.specs.TreeViews.{tables_of};
    ghost use Rattle.report.specs.Representing.{tally_at};
    ghost use Rattle.report.specs.steps.TallyLines.{position_of};
    ghost use Rattle.report.specs.steps.Tallying.{fresh, counted, counted_all};

    /// The counters at their initial values.
    #[tactic(auto, using(crate::proofs::Fresh::growing))]
    pub fn new(alloc: Global, rules: &Ruleset) -> Result<Self, AllocError>
        ensures starts { IfOk result (λ tallies. tallies ≡ fresh (tables_of rules.now)) }
        ensures fits { IfOk result (λ tallies.
            All (All (All (All (λ n. (n.packets < 2 ^ 64) × (n.bytes < 2 ^ 64))))) tallies) }
    {
        let mut tables = Vec::with_capacity(alloc, rules.tables.len())?;
        for table in &rules.tables {
            tables.push(TableTallies::new(alloc, table)?)?;
        }
        Ok(RulesetTallies { tables })
    }

    /// Counts one packet of this length at a position, if the rules have it.
    #[tactic(auto, using(crate::proofs::Counting::set_there, crate::proofs::Counting::none_there))]
    pub fn count(&mut self, position: StatementPosition, length: u16)
        ensures { self.new ≡ counted length position self.old }
    {
        let number = position.rule.table as usize;
        if number < self.tables.len() {
            let tallies = &mut self.tables[number];
            tallies.count(
                position.rule.chain,
                position.rule.rule,
                position.statement,
                length,
            );
        }
    }

    /// Counts one packet of this length for each `Counted` event.
    pub fn count_events(&mut self, events: &[Event], length: u16)
        ensures { self.new ≡ counted_all length events.now self.old }
    {
        for event in events {
            if let Event::Counted(position) = event {
                self.count(*position, length);
            }
        }
    }

    /// The value of the statement at a position, if the rules have it.
    pub fn at(&self, position: Location) -> Option<Tally>
        ensures { result ≡ tally_at self.now (position_of position) }
    {
        self.tables
            .get(position.table)?
            .at(position.chain, position.rule, position.statement)
    }
}
