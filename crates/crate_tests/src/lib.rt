//! Tests across crates. Of those below the engine, each alone: lexer and parser, box files, compiled
//! rules, captures, checksums, interval and rule tables, ports, NAT mappings, and rewriting. Of whole
//! runs: with calls that fail, with the connections that an engine lists, over the plain list
//! tracker, and of statuses that no run of the program shows; and of how many slots the calls of a
//! tracker visit.
#![tactic(auto)]

#[cfg(test)]
mod box_files;
#[cfg(test)]
mod calls;
#[cfg(test)]
mod captures;
#[cfg(test)]
mod compiled;
#[cfg(test)]
mod connection_lists;
#[cfg(test)]
mod flushes;
#[cfg(test)]
mod intervals;
#[cfg(test)]
mod large_tables;
#[cfg(test)]
mod lexing;
#[cfg(test)]
mod list_replay;
#[cfg(test)]
mod list_runs;
#[cfg(test)]
mod mappings;
#[cfg(test)]
mod merged_rules;
#[cfg(test)]
mod ports;
#[cfg(test)]
mod productions;
#[cfg(test)]
mod retry;
#[cfg(test)]
mod rewriting;
#[cfg(test)]
mod rulesets;
#[cfg(test)]
mod run_support;
#[cfg(test)]
mod seek_tables;
#[cfg(test)]
mod slot_counts;
#[cfg(test)]
mod statements;
#[cfg(test)]
mod statuses;
#[cfg(test)]
mod sums;
#[cfg(test)]
mod support;
