//! The connection look-up of a packet.
ghost use Rattle.std.specs.Prelude.{◌≡◌, IsTrue, option_map};
ghost use Rattle.conntrack.specs.TableEntries.{IsNoneLater, IsWithin, live_at};
ghost use Rattle.connection_table.specs.Table.{look_up_slots};
ghost use Rattle.filter_vm.specs.Machine.{EventsAndTicks};
ghost use Rattle.translation.specs.Fitting.{Fits};
ghost use Rattle.translation.specs.LiveMappings.{mappings_in};
ghost use Rattle.translation.specs.CtInfos.{error_ct_info, untranslated};
ghost use Rattle.ip_headers.specs.Header.{transport_of};
ghost use Rattle.ip_headers.specs.Tuple.{inner_tuple_of};
ghost use Rattle.stepping.specs.Lookups.{belonging_of, error_belonging, flags_in, looked_up_info, others_beside};
ghost use Rattle.stepping.specs.Next.{with_info};
ghost use Rattle.stepping.specs.steps.Confirming.{CanConfirm, entry_in};
ghost use Rattle.stepping.specs.steps.Steps.{path_state};

use crate::state::PacketState;
use connection_table::ConnectionTable;
use conntrack::{Flags, Moment, Steps, Tracker};
use ip_headers::{Transport, View};
use rule_meaning::CtFacts;
use translation::CtInfo;

/// Looks up a packet's connection, unless a `notrack` statement was evaluated, and sets the
/// packet's state and entry. A lone SYN removes the closing connection that it belongs to, whatever the rules
/// do. All connections held are live at `now`. In `steps` the visits of its table's slots are counted.
pub fn look_up<T: Tracker>(
    connections: &mut ConnectionTable<T>,
    view: &View,
    flags: Flags,
    now: Moment,
    state: &mut PacketState,
    steps: &mut Steps,
)
    requires flags { flags ≡ flags_in (transport_of view.now.packet.now) }
    requires live { live_at connections.old.limits now connections.old.held ≡ connections.old.held }
    requires later { IsNoneLater now connections.old.held }
    requires room { IsTrue connections.old.has_room }
    ensures step { (events : EventsAndTicks) → path_state state.new events
        ≡ with_info (looked_up_info state.old.facts.ct connections.old.held view.now.packet.now)
        (path_state state.old events) }
    ensures entry { state.new.entry
        ≡ entry_in state.old.entry state.new.info connections.old.held view.now.packet.now }
    ensures held { connections.new.held
        ≡ others_beside state.new.info connections.old.held view.now.packet.now }
    ensures limits { connections.new.limits ≡ connections.old.limits }
    ensures later { IsNoneLater now connections.new.held }
    ensures room { IsTrue connections.new.has_room }
    // It can be confirmed, whatever NAT does to it.
    ensures confirmable { CanConfirm state.new.entry (untranslated state.new.info)
        connections.new.held }
    ensures fits { Fits state.new.info (mappings_in connections.new.held) }
    ensures steps { IsWithin (option_map
        (look_up_slots (belonging_of connections.old.held view.now.packet.now)) T.max_slots)
        steps.old steps.new }
{
    if let CtFacts::Notrack = state.facts.ct {
        state.set_info(CtInfo::Untracked);
        return;
    }
    let Some(tuple) = view.tuple() else {
        state.set_info(error_ct_info(connections, view, now, steps));
        return;
    };
    let belonging = connections.look_up(tuple, flags, now, steps);
    state.set_belonging(tuple, belonging);
}

/// The state of a packet without a tuple: RELATED for an ICMP error about a live connection.
fn error_ct_info<T: Tracker>(
    connections: &ConnectionTable<T>,
    view: &View,
    now: Moment,
    steps: &mut Steps,
) -> CtInfo
    requires live { live_at connections.now.limits now connections.now.held ≡ connections.now.held }
    ensures info { result ≡ error_ct_info (error_belonging connections.now.held
        (inner_tuple_of view.now.packet.now)) }
    ensures steps { IsWithin (option_map (λ most. most.look) T.max_slots) steps.old steps.new }
{
    match view.inner_tuple() {
        Some(inner) => CtInfo::of_error(connections.look_up_error(inner, now, steps)),
        None => CtInfo::Invalid,
    }
}

/// The TCP flags that conntrack reads.
pub fn flags_in(transport: Transport) -> Flags
    ensures { result ≡ flags_in transport }
{
    match transport {
        Transport::Tcp { flags, .. } => Flags::of_byte(flags),
        Transport::Udp { .. } | Transport::Icmp { .. } | Transport::Other => Flags::none(),
    }
}
