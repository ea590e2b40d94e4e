//! Processes a record.
ghost use Rattle.std.specs.Prelude.{◌≡◌, IsTrue, false, [], Some, option_map};
ghost use Rattle.history.specs.declared.outcome.Outcome.TheVariants as outcomes;
ghost use Rattle.ip_headers.specs.Header.{transport_of};
ghost use Rattle.conntrack.specs.TableEntries.{IsNoneLater, IsWithin, live_at};
ghost use Rattle.hook_runs.specs.Stages.{total_stage_cost};
ghost use Rattle.translation.specs.declared.ct_info.CtInfo.TheVariants.{Untracked};
ghost use Rattle.stepping.specs.Carried.{carried};
ghost use Rattle.stepping.specs.Next.{Path, outcome_by, sent_on};
ghost use Rattle.stepping.specs.Representing.{recorded_of};
ghost use Rattle.stepping.specs.steps.Confirming.{begun_in};
ghost use Rattle.stepping.specs.steps.Processing.{Follows, HasProcessed, packet_slots};
ghost use Rattle.stepping.specs.steps.Steps.{Spends, path_state, setup_in, step_result};

use crate::arrival::{IncomingPacket, carried};
use crate::confirm::confirm;
use crate::hooks::run_hooks;
use crate::lookup::{flags_in, look_up};
use crate::packet_buffer::PacketBuffer;
use crate::setup::Setup;
use crate::state::PacketState;
use connection_table::ConnectionTable;
use conntrack::{Moment, Steps, Tracker};
use history::{Cause, Outcome};
use hook_runs::{Events, HookStage};
use ip_headers::View;
use pcap_io::Record;
use rule_meaning::Interface;
use step_count::start;

/// The result of a record.
#[derive(Clone, Copy)]
pub struct RecordResult {
    pub outcome: Outcome,
    /// The total length of its packet as received, in bytes; 0 where it carries none.
    pub length: u16,
    /// Whether its packet began a connection.
    pub begun: bool,
}

/// Processes one record. All connections held are live at `now`. `state` is the place of its packet;
/// `events` gets the events of the rules' evaluation, and `packet` the bytes of the packet, if it is
/// forwarded.
pub fn process_record<T: Tracker>(
    setup: &Setup,
    record: &Record,
    now: Moment,
    connections: &mut ConnectionTable<T>,
    state: &mut PacketState,
    events: &mut Events,
    packet: &mut PacketBuffer,
) -> RecordResult
    requires live { live_at connections.old.limits now connections.old.held ≡ connections.old.held }
    requires later { IsNoneLater now connections.old.held }
    requires ready { IsTrue connections.old.has_room }
    requires none { events.old.events ≡ [] }
    requires empty { packet.old ≡ [] }
    ensures processed { HasProcessed (setup_in setup.now.hooks)
        (carried (setup_in setup.now.hooks) (recorded_of record.now)) now connections.old.held
        connections.new.held result events.new.events packet.new }
    ensures limits { connections.new.limits ≡ connections.old.limits }
    // Only a new connection takes what is reserved.
    ensures room { result.begun ≡ false → IsTrue connections.new.has_room }
    ensures spent { Spends events.old events.new (total_stage_cost setup.now.hooks) }
{
    let IncomingPacket { input, view } = match carried(setup, record) {
        Ok(incoming) => incoming,
        Err(cause) => return dropped(cause, 0),
    };
    let length = view.total_length();
    state.receive(&view, input);
    // Of its table's slots; nothing reads it.
    let mut steps = start();
    match process_packet(setup, &view, now, connections, state, events, &mut steps) {
        Ok(begun) => {
            send(&view, state, packet);
            RecordResult {
                outcome: outcome_by(state.facts.output),
                length,
                begun,
            }
        }
        Err(cause) => dropped(cause, length),
    }
}

/// Processes one packet: raw prerouting, the look-up, the other hooks with routing, and the
/// confirmation. Says whether it began a connection. In `steps` the visits of its table's slots are
/// counted.
///
/// # Errors
/// The cause for which the packet is dropped.
#[inline(always)]
fn process_packet<T: Tracker>(
    setup: &Setup,
    view: &View,
    now: Moment,
    connections: &mut ConnectionTable<T>,
    state: &mut PacketState,
    events: &mut Events,
    steps: &mut Steps,
) -> Result<bool, Cause>
    requires live { live_at connections.old.limits now connections.old.held ≡ connections.old.held }
    requires later { IsNoneLater now connections.old.held }
    requires ready { IsTrue connections.old.has_room }
    requires none { events.old.events ≡ [] }
    requires not_looked_up { state.old.info ≡ Untracked }
    requires transport { state.old.facts.packet.transport ≡ transport_of view.now.packet.now }
    ensures path { Path (setup_in setup.now.hooks) connections.old.held view.now.packet.now
        (path_state state.old events.old) (step_result result (path_state state.new events.new)) }
    ensures follows { Follows now view.now.packet.now
        (step_result result (path_state state.new events.new)) (begun_in result)
        connections.old.held connections.new.held }
    ensures limits { connections.new.limits ≡ connections.old.limits }
    ensures room { begun_in result ≡ false → IsTrue connections.new.has_room }
    ensures spent { Spends events.old events.new (total_stage_cost setup.now.hooks) }
    ensures steps { IsWithin (option_map
        (packet_slots connections.old.held view.now.packet.now) T.max_slots)
        steps.old steps.new }
{
    let flags = flags_in(state.facts.packet.transport);
    setup.run(HookStage::PreroutingRaw, state, events)?;
    look_up(connections, view, flags, now, state, steps);
    run_hooks(setup, connections.mappings(), state, events)?;
    confirm(connections, flags, now, state, steps)
}

/// Writes the packet as it leaves, if it is forwarded: with its tuple after NAT and its TTL
/// decremented.
#[inline(always)]
fn send(view: &View, state: &PacketState, packet: &mut PacketBuffer)
    requires empty { packet.old ≡ [] }
    ensures sent { packet.new ≡ sent_on view.now.packet.now state.now.info
        (outcome_by state.now.facts.output) }
{
    if state.facts.output.is_none() {
        return;
    }
    let change = state.info.change(view, view.ttl().saturating_sub(1));
    packet.put(view, &change);
}

/// The outcome of a packet that isn't dropped: forwarded where it has an output interface.
#[inline(always)]
fn outcome_by(output: Option<Interface>) -> Outcome
    ensures { result ≡ outcome_by output }
{
    match output {
        Some(interface) => Outcome::Passed(interface.index),
        None => Outcome::Local,
    }
}

/// The result of a dropped record; `length` is the packet's total length.
fn dropped(cause: Cause, length: u16) -> RecordResult
    ensures { result ≡ record { outcome = outcomes.Dropped cause; length = length; begun = false } }
{
    RecordResult {
        outcome: Outcome::Dropped(cause),
        length,
        begun: false,
    }
}
