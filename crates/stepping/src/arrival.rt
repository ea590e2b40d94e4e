//! The packet of a record.
ghost use Rattle.std.specs.Prelude.{◌≡◌, IfOk};
ghost use Rattle.stepping.specs.Carried.{carried, cause_of, interface_facts, link_cause};
ghost use Rattle.stepping.specs.Representing.{recorded_of};
ghost use Rattle.stepping.specs.steps.Steps.{setup_in};
ghost use Rattle.stepping.specs.steps.Processing.{received_in};

use crate::setup::Setup;
use history::Cause;
use ip_headers::{HeaderFault, View};
use pcap_io::{LinkCause, Record};
use rule_meaning::Interface;

/// A packet and its input interface.
#[derive(Clone, Copy)]
pub struct IncomingPacket<'a> {
    pub input: &'a Interface,
    pub view: View<'a>,
}

/// Decodes the packet of a record.
///
/// # Errors
/// The first test that fails, of the link header, the input interface and the packet's headers.
#[inline(always)]
pub fn carried<'a>(setup: &'a Setup, record: &Record<'a>) -> Result<IncomingPacket<'a>, Cause>
    ensures carried { received_in result ≡ carried (setup_in setup.now.hooks) (recorded_of record.now) }
    ensures known { IfOk result (λ incoming.
        incoming.input.now
        ≡ interface_facts setup.now.hooks.network incoming.input.now.index) }
{
    let link = match record.link() {
        Ok(link) => link,
        Err(cause) => return Err(link_cause(cause)),
    };
    let Some(input) = setup.input_interface(link.interface) else {
        return Err(Cause::Interface);
    };
    match View::read(&record.bytes[link.packet..]) {
        Ok(view) => Ok(IncomingPacket { input, view }),
        Err(fault) => Err(cause_of(fault)),
    }
}

/// The cause of a link header's fault.
fn link_cause(cause: LinkCause) -> Cause
    ensures { result ≡ link_cause cause }
{
    match cause {
        LinkCause::Short => Cause::Short,
        LinkCause::NotIp => Cause::NotIp,
        LinkCause::Link => Cause::Link,
    }
}

/// The cause of a packet header's fault.
fn cause_of(fault: HeaderFault) -> Cause
    ensures { result ≡ cause_of fault }
{
    match fault {
        HeaderFault::Short => Cause::Short,
        HeaderFault::Version => Cause::Version,
        HeaderFault::HeaderLength => Cause::HeaderLength,
        HeaderFault::Length => Cause::Length,
        HeaderFault::Truncated => Cause::Truncated,
        HeaderFault::Checksum => Cause::Checksum,
        HeaderFault::Fragment => Cause::Fragment,
        HeaderFault::Transport => Cause::Transport,
    }
}
