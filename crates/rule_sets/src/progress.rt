//! Packets on their way through a rule.
ghost use Rattle.std.specs.Prelude.{◌≡◌, ◌≤◌, ◌+◌, ◌++◌, ◌∷◌, [], true, false, length, map, None, IfOk, IfErr, OnOk};
ghost use Rattle.packet_sets.specs.Sets.{IsSet, Keeps};
ghost use Rattle.packet_sets.specs.declared.fault.SetError.TheVariants.{TooLarge};
ghost use Rattle.nft_tree.specs.TreeViews.{statement};
ghost use Rattle.rule_types.specs.Types.{statement_mismatches};
ghost use Rattle.rule_values.specs.Faults.{statement_out_of_range};
ghost use Rattle.rule_meaning.specs.Statements.{statement_effect};
ghost use Rattle.lowering.specs.Lowered.{Extends, HasDeclared, count_tables, scope_of};
ghost use Rattle.action_cases.specs.Effects.{written_after};
ghost use Rattle.fact_sets.specs.Cases.{AreCases};
ghost use Rattle.rule_sets.specs.Ends.{end_at, end_behind};
ghost use Rattle.rule_sets.specs.steps.Progress.{Advances, AreSets, Passes};

use crate::adding::add_case;
use crate::ends::End;
use crate::parts::{Parts, sorted};
use crate::statements::{Setting, statement_cases};
use action_cases::Outcome;
use fact_sets::{Case, Reader, Written};
use nft_tree::{MarkField, Stmt};
use packet_sets::{Diagrams, PacketSet, SetError};
use rule_code::Lookups;
use rule_meaning::StatementPosition;
use std::alloc::{AllocError, Global};

/// A statement, and where it stands.
#[derive(Clone, Copy)]
pub(crate) struct Place<'a, 't> {
    pub(crate) setting: Setting<'a, 't>,
    /// How facts are read as packets come to the rule.
    pub(crate) reader: Reader<'a>,
    pub(crate) position: StatementPosition,
    pub(crate) stmt: &'a Stmt,
    /// No statement of the rule is behind it.
    pub(crate) last: bool,
}

/// Packets on their way through a rule.
#[derive(Drop)]
pub(crate) struct Progress {
    /// Those with which it has ended.
    ends: Vec<Case<End>>,
    /// Those that have passed all statements so far, by what rules have written then.
    passing: Vec<Case<Written>>,
}

/// What rules have written after a statement.
fn written_after(outcome: Outcome, written: Written) -> Written
    ensures { result ≡ written_after outcome written }
{
    match outcome {
        Outcome::Marks(MarkField::Meta, source) => Written {
            packet: source,
            ..written
        },
        Outcome::Marks(MarkField::Ct, source) => Written {
            connection: source,
            ..written
        },
        Outcome::Untracks => Written {
            untracked: true,
            ..written
        },
        _ => written,
    }
}

impl Progress {
    /// The packets of a set as they come to a rule.
    pub(crate) fn new(
        alloc: Global,
        set: PacketSet,
        written: Written,
    ) -> Result<Progress, AllocError>
        ensures ends { IfOk result (λ p. p.ends.items ≡ []) }
        ensures passing { IfOk result (λ p. p.passing.items
            ≡ record { set = set; outcome = written } ∷ []) }
    {
        let ends = Vec::new(alloc);
        let mut passing = Vec::new(alloc);
        passing.push(Case {
            set,
            outcome: written,
        })?;
        Ok(Progress { ends, passing })
    }

    /// Adds packets as a statement, the rule's last or not, has sorted them. The reader has what rules
    /// have written before it.
    fn add_parts(
        &mut self,
        diagrams: &mut Diagrams,
        reader: Reader<'_>,
        parts: &Parts,
        last: bool,
    ) -> Result<(), SetError>
        requires sets { AreSets diagrams.old self.old }
        requires parts { AreCases diagrams.old parts.now.cases.items }
        requires rest { IsSet diagrams.old parts.now.rest }
        ensures keeps { Keeps diagrams.old diagrams.new }
        ensures passes { OnOk result (Passes diagrams.old diagrams.new reader.entry last parts.now
            self.old self.new) }
        ensures too_large { IfErr result (λ e. e ≡ TooLarge
            → diagrams.new.limit ≤ length diagrams.new.nodes) }
    {
        let written = reader.written;
        let failed = End {
            written,
            verdict: None,
            met: false,
        };
        add_case(diagrams, &mut self.ends, parts.rest, failed)?;
        for part in &parts.cases {
            if let Outcome::Gives(verdict) = part.outcome {
                let end = End {
                    written,
                    verdict: Some(verdict),
                    met: last,
                };
                add_case(diagrams, &mut self.ends, part.set, end)?;
            } else {
                let written = written_after(part.outcome, written);
                add_case(diagrams, &mut self.passing, part.set, written)?;
            }
        }
        Ok(())
    }

    /// The packets as they are after the statement to which those that pass come next.
    pub(crate) fn after(
        self,
        alloc: Global,
        diagrams: &mut Diagrams,
        lookups: &mut Lookups,
        place: Place<'_, '_>,
    ) -> Result<Progress, SetError>
        requires declared { HasDeclared place.setting.network.now place.setting.names.now lookups.old }
        requires types { statement_mismatches place.setting.names.now (statement place.stmt.now)
            ≡ false }
        requires bounds { statement_out_of_range (statement place.stmt.now) ≡ false }
        requires sets { AreSets diagrams.old self }
        ensures keeps { Keeps diagrams.old diagrams.new }
        ensures extends { OnOk result (Extends lookups.old lookups.new) }
        ensures few { OnOk result (count_tables lookups.new
            ≤ count_tables lookups.old + length self.passing.items) }
        ensures value { IfOk result (λ next. Advances diagrams.old diagrams.new place.entry.reader
            (λ rest facts. end_behind place.entry.last rest facts (statement_effect
            (scope_of place.entry.setting.network.now place.entry.setting.names.now) place.entry.position
            (statement place.entry.stmt.now) facts)) self next) }
        ensures too_large { IfErr result (λ e. e ≡ TooLarge
            → diagrams.new.limit ≤ length diagrams.new.nodes) }
    {
        let Progress { ends, passing } = self;
        let mut next = Progress {
            ends,
            passing: Vec::new(alloc),
        };
        for state in &passing {
            let reader = Reader {
                interfaces: place.reader.interfaces,
                written: state.outcome,
            };
            let cases = statement_cases(
                alloc,
                diagrams,
                lookups,
                place.setting,
                reader,
                place.position,
                place.stmt,
            )?;
            let parts = sorted(alloc, diagrams, state.set, &cases)?;
            next.add_parts(diagrams, reader, &parts, place.last)?;
        }
        Ok(next)
    }

    /// All ends, where no statement is left: the packets that pass have met the last one.
    pub(crate) fn finish(self) -> Result<Vec<Case<End>>, AllocError>
        ensures { IfOk result (λ ends. ends.items ≡ self.ends.items ++ map (λ c. end_at c.set
            (record { written = c.outcome; verdict = None; met = true })) self.passing.items) }
    {
        let Progress { mut ends, passing } = self;
        for state in &passing {
            let end = End {
                written: state.outcome,
                verdict: None,
                met: true,
            };
            ends.push(Case {
                set: state.set,
                outcome: end,
            })?;
        }
        Ok(ends)
    }
}
