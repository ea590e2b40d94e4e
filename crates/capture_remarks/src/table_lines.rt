//! The lines about the connection table.
use crate::fullness::Fullness;
use crate::second_run::{MOST_RECORDS, Step};
use history::Cause;
use std::alloc::{AllocError, Global};

/// Nanoseconds of a second.
const SECOND: u64 = 1_000_000_000;

/// The most hosts that are listed.
const MOST_LISTED: usize = 5;

/// The causes by which no connection could begin.
static CAUSES: [Cause; 3] = [Cause::NoPort, Cause::Full, Cause::Clash];

/// A host's address, and how often it occurs.
#[derive(Clone, Copy)]
struct Host {
    address: u32,
    count: usize,
}

/// A line on the most connections that lived at once, with the record, its time and the hosts that
/// began them; and one for each cause by which no connection could begin, with the senders.
/// `path` begins each line.
///
/// # Errors
/// `AllocError` for want of memory.
pub fn table_remarks(
    alloc: Global,
    path: &str,
    mut fullness: Fullness,
) -> Result<String, AllocError> {
    let mut lines = String::new(alloc);
    fullness.write_to(path, &mut lines)?;
    Ok(lines)
}

impl Fullness {
    fn write_to(&mut self, path: &str, lines: &mut String) -> Result<(), AllocError> {
        if let Some(step) = self.fullest
            && !self.initiators.is_empty()
        {
            write_fullest(path, step, lines)?;
            write_hosts(&mut self.initiators, lines)?;
            lines.push('\n')?;
        }
        if self.records >= MOST_RECORDS {
            writeln!(
                lines,
                "{path}: beyond record {MOST_RECORDS} connections aren't counted"
            )?;
        }
        for cause in &CAUSES {
            if let Some(senders) = self.senders(*cause) {
                write_dropped(path, *cause, senders, lines)?;
            }
        }
        Ok(())
    }
}

/// Writes how many connections lived when they were most, up to the hosts that began them.
fn write_fullest(path: &str, step: Step, lines: &mut String) -> Result<(), AllocError> {
    let most = step.live;
    let ending = if most == 1 { "" } else { "s" };
    write!(
        lines,
        "{path}: {most} connection{ending} at once at most, at record {} ({}.{:09}), of ",
        step.number,
        step.moment / SECOND,
        step.moment % SECOND
    )
}

/// Writes whose packets were dropped for a cause, if any were.
fn write_dropped(
    path: &str,
    cause: Cause,
    senders: &mut Vec<u32>,
    lines: &mut String,
) -> Result<(), AllocError> {
    let count = senders.len();
    if count == 0 {
        return Ok(());
    }
    let ending = if count == 1 { "" } else { "s" };
    let word = cause.report_word();
    write!(
        lines,
        "{path}: {count} packet{ending} dropped for `{word}`, from "
    )?;
    write_hosts(senders, lines)?;
    writeln!(lines, ": {}", advice(cause))
}

/// Why no connection could begin, and what to do about it.
fn advice(cause: Cause) -> &'static str {
    match cause {
        Cause::NoPort => {
            "no external port was left for them: name a larger range, or a second address"
        }
        Cause::Full => {
            "1,048,576 connections lived: take a shorter capture, or shorter idle limits in the box file"
        }
        _ => "their answers would belong to another connection",
    }
}

/// Writes the hosts of these addresses, each of which stands there as often as it occurs: those
/// first that occur most often, and of these the lowest address.
fn write_hosts(addresses: &mut Vec<u32>, lines: &mut String) -> Result<(), AllocError> {
    addresses.sort_unstable();
    let mut hosts = Vec::new(*addresses.allocator());
    count_hosts(addresses, &mut hosts)?;
    hosts.sort_unstable_by_key(|host| (usize::MAX - host.count, host.address));
    list_hosts(&hosts, lines)
}

/// Counts each of the addresses, which ascend.
fn count_hosts(addresses: &[u32], hosts: &mut Vec<Host>) -> Result<(), AllocError> {
    for address in addresses {
        match hosts.last_mut() {
            Some(host) if host.address == *address => {
                host.count = host.count.saturating_add(1);
            }
            _ => hosts.push(Host {
                address: *address,
                count: 1,
            })?,
        }
    }
    Ok(())
}

/// Writes the first hosts, and how many more there are.
fn list_hosts(hosts: &[Host], lines: &mut String) -> Result<(), AllocError> {
    let listed = hosts.len().min(MOST_LISTED);
    let mut between = "";
    for host in &hosts[..listed] {
        let [a, b, c, d] = host.address.to_be_bytes();
        write!(lines, "{between}{a}.{b}.{c}.{d} ({})", host.count)?;
        between = ", ";
    }
    match hosts.len() - listed {
        0 => Ok(()),
        1 => lines.push_str(" and 1 more host"),
        rest => write!(lines, " and {rest} more hosts"),
    }
}
