//! Where packets are behind a rule, and how their ways end.
ghost use Rattle.std.specs.Prelude.{◌≡◌, ◌∷◌, [], map, true, IfOk, None};
ghost use Rattle.std.specs.List.{filter_map};
ghost use Rattle.chain_sets.specs.steps.Outcomes.{case_if, course_at, end_by, end_in, end_without, exit_behind, turn_at, written_next};
ghost use Rattle.chain_sets.specs.steps.Merging.{with_outcome};

use crate::merging::Merge;
use chain_ways::RuleExit;
use fact_sets::{Case, Written};
use nft_tree::RuleNo;
use packet_sets::PacketSet;
use rule_meaning::{HookVerdict, RuleVerdict};
use rule_sets::End;
use std::alloc::{AllocError, Global};

/// How the ways of packets through a base chain end: with a verdict, or at the chain's end (`None`),
/// where its policy applies; and what rules have written then.
#[derive(Clone, Copy)]
pub struct ChainEnd {
    pub verdict: Option<HookVerdict>,
    pub written: Written,
    /// The rule whose verdict ended the way, where there is one: `None` at the chain's end. It is told
    /// for people: no contract rests on it.
    pub by: Option<RuleNo>,
}

/// Where a rule has ended: its verdict, if it gave one, and what rules have written then.
#[derive(Clone, Copy)]
pub(crate) struct Turn {
    pub(crate) verdict: Option<RuleVerdict>,
    pub(crate) written: Written,
}

/// Where packets are behind a rule.
#[derive(Clone, Copy)]
pub(crate) enum Exit {
    /// At the next rule of its chain.
    Next(Written),
    /// At an end of its chain.
    Ends(ChainEnd),
}

/// Whether it is the same verdict.
fn same_verdict(left: HookVerdict, right: HookVerdict) -> bool
    ensures { result ≡ true → left ≡ right }
{
    match (left, right) {
        (HookVerdict::Accepted, HookVerdict::Accepted) => true,
        (HookVerdict::Dropped, HookVerdict::Dropped) => true,
        (HookVerdict::Translated(left), HookVerdict::Translated(right)) => left == right,
        _ => false,
    }
}

/// Whether both have the same verdict, or none.
fn same_result(left: Option<HookVerdict>, right: Option<HookVerdict>) -> bool
    ensures { result ≡ true → left ≡ right }
{
    match (left, right) {
        (None, None) => true,
        (Some(left), Some(right)) => same_verdict(left, right),
        _ => false,
    }
}

/// Whether both rules gave the same verdict, or none.
fn same_rule_verdict(left: Option<RuleVerdict>, right: Option<RuleVerdict>) -> bool
    ensures { result ≡ true → left ≡ right }
{
    match (left, right) {
        (None, None) => true,
        (Some(left), Some(right)) => left == right,
        _ => false,
    }
}

/// Whether it is the same rule.
fn same_number(left: RuleNo, right: RuleNo) -> bool
    ensures { result ≡ true → left ≡ right }
{
    left.table == right.table && left.chain == right.chain && left.rule == right.rule
}

/// Whether the same rule has ended both, or none.
fn same_rule(left: Option<RuleNo>, right: Option<RuleNo>) -> bool
    ensures { result ≡ true → left ≡ right }
{
    match (left, right) {
        (None, None) => true,
        (Some(left), Some(right)) => same_number(left, right),
        _ => false,
    }
}

impl Merge for Turn {
    fn is(&self, other: &Self) -> bool {
        self.written == other.written && same_rule_verdict(self.verdict, other.verdict)
    }

    fn is_final(&self) -> bool {
        false
    }
}

impl Merge for ChainEnd {
    fn is(&self, other: &Self) -> bool {
        same_rule(self.by, other.by)
            && self.written == other.written
            && same_result(self.verdict, other.verdict)
    }

    fn is_final(&self) -> bool {
        self.verdict.is_some()
    }
}

impl Merge for Exit {
    fn is(&self, other: &Self) -> bool {
        match (self, other) {
            (Exit::Next(left), Exit::Next(right)) => *left == *right,
            (Exit::Ends(left), Exit::Ends(right)) => left.is(right),
            _ => false,
        }
    }

    fn is_final(&self) -> bool {
        match self {
            Exit::Next(_) => false,
            Exit::Ends(end) => end.is_final(),
        }
    }
}

/// Where the rule has ended with these ends.
pub(crate) fn turns_of(alloc: Global, ends: &[Case<End>]) -> Result<Vec<Case<Turn>>, AllocError>
    ensures { IfOk result (λ turns. turns.items ≡ map (with_outcome turn_at) ends.now) }
{
    let mut turns = Vec::new(alloc);
    for end in ends {
        turns.push(Case {
            set: end.set,
            outcome: Turn {
                verdict: end.outcome.verdict,
                written: end.outcome.written,
            },
        })?;
    }
    Ok(turns)
}

/// These packets at one exit.
pub(crate) fn one_exit(
    alloc: Global,
    set: PacketSet,
    outcome: Exit,
) -> Result<Vec<Case<Exit>>, AllocError>
    ensures { IfOk result (λ exits. exits.items ≡ record { set = set; outcome = outcome } ∷ []) }
{
    let mut exits = Vec::new(alloc);
    exits.push(Case { set, outcome })?;
    Ok(exits)
}

/// Where packets are behind a chain that ended so: a jump comes back to the next rule where the chain
/// gave no verdict, and behind a goto their own chain ends where the other does.
fn exit_behind(is_jump: bool, end: ChainEnd) -> Exit
    ensures { result ≡ exit_behind is_jump end }
{
    match end.verdict {
        None if is_jump => Exit::Next(end.written),
        _ => Exit::Ends(end),
    }
}

/// Where they are behind a chain with these ends.
pub(crate) fn behind(
    alloc: Global,
    is_jump: bool,
    ends: &[Case<ChainEnd>],
) -> Result<Vec<Case<Exit>>, AllocError>
    ensures { IfOk result (λ exits. exits.items
        ≡ map (with_outcome (exit_behind is_jump)) ends.now) }
{
    ends.iter()
        .map(|end| Case {
            set: end.set,
            outcome: exit_behind(is_jump, end.outcome),
        })
        .collect(alloc)
}

/// Those that are at the next rule.
pub(crate) fn next(alloc: Global, exits: &[Case<Exit>]) -> Result<Vec<Case<Written>>, AllocError>
    ensures { IfOk result (λ states. states.items ≡ filter_map (case_if written_next) exits.now) }
{
    let mut states = Vec::new(alloc);
    for exit in exits {
        if let Exit::Next(written) = exit.outcome {
            states.push(Case {
                set: exit.set,
                outcome: written,
            })?;
        }
    }
    Ok(states)
}

/// Those that are at an end of the chain.
pub(crate) fn chain_ends(
    alloc: Global,
    exits: &[Case<Exit>],
) -> Result<Vec<Case<ChainEnd>>, AllocError>
    ensures { IfOk result (λ ends. ends.items ≡ filter_map (case_if end_in) exits.now) }
{
    let mut ends = Vec::new(alloc);
    for exit in exits {
        if let Exit::Ends(end) = exit.outcome {
            ends.push(Case {
                set: exit.set,
                outcome: end,
            })?;
        }
    }
    Ok(ends)
}

/// At the end of the chain.
fn end_without(written: Written) -> ChainEnd
    ensures { result ≡ end_without written }
{
    ChainEnd {
        verdict: None,
        written,
        by: None,
    }
}

/// Packets that no rule is left for: they are at the chain's end.
pub(crate) fn ended(
    alloc: Global,
    states: &[Case<Written>],
) -> Result<Vec<Case<ChainEnd>>, AllocError>
    ensures { IfOk result (λ ends. ends.items ≡ map (with_outcome end_without) states.now) }
{
    states
        .iter()
        .map(|state| Case {
            set: state.set,
            outcome: end_without(state.outcome),
        })
        .collect(alloc)
}

/// What becomes of the packets of a turn.
#[derive(Clone, Copy)]
pub(crate) enum Course {
    To(Exit),
    /// Through the chain with this index: by a jump, and then to the next rule; or by a goto, in place
    /// of the rest of this one.
    Through { chain: u32, is_jump: bool },
}

/// At a verdict of the rule for the base chain.
fn end_by(rule: RuleNo, verdict: HookVerdict, written: Written) -> ChainEnd
    ensures { result ≡ end_by rule verdict written }
{
    ChainEnd {
        verdict: Some(verdict),
        written,
        by: Some(rule),
    }
}

/// What becomes of them, by where the rule sends them.
pub(crate) fn course_of(rule: RuleNo, exit: RuleExit, written: Written) -> Course
    ensures { result ≡ course_at rule exit written }
{
    match exit {
        RuleExit::Next => Course::To(Exit::Next(written)),
        RuleExit::End => Course::To(Exit::Ends(end_without(written))),
        RuleExit::Over(verdict) => Course::To(Exit::Ends(end_by(rule, verdict, written))),
        RuleExit::Jump(chain) => Course::Through {
            chain,
            is_jump: true,
        },
        RuleExit::Goto(chain) => Course::Through {
            chain,
            is_jump: false,
        },
    }
}
