//! The end of a packet's path, as nf_conntrack_confirm: refreshes or begins its connection.
ghost use Rattle.std.specs.Prelude.{◌≡◌, IsTrue, false, option_map};
ghost use Rattle.conntrack.specs.ConntrackEntry.{is_taken};
ghost use Rattle.conntrack.specs.TableEntries.{IsNoneLater, IsWithin};
ghost use Rattle.conntrack.specs.declared.connection.ConnId.{ConnId as TheId};
ghost use Rattle.translation.specs.declared.ct_info.CtInfo.TheVariants.{New};
ghost use Rattle.translation.specs.CtInfos.{untranslated};
ghost use Rattle.translation.specs.Fitting.{Fits, IsFitting};
ghost use Rattle.translation.specs.LiveMappings.{mappings_in};
ghost use Rattle.stepping.specs.Confirmations.{mark_in};
ghost use Rattle.stepping.specs.steps.Confirming.{CanConfirm, Confirms, begun_in, confirmation_slots};

use crate::state::PacketState;
use connection_table::ConnectionTable;
use conntrack::{BeginError, Flags, Moment, Steps, Tracker};
use history::Cause;
use rule_meaning::CtFacts;
use translation::{CtInfo, NewConnection};

/// Confirms a packet that the hooks let through: refreshes its connection, or begins a new one.
/// Says whether it began one. In `steps` the visits of its table's slots are counted.
///
/// # Errors
/// `Full` or `Clash` where a new connection can't begin; then it holds no mapping either.
pub fn confirm<T: Tracker>(
    connections: &mut ConnectionTable<T>,
    flags: Flags,
    now: Moment,
    state: &PacketState,
    steps: &mut Steps,
) -> Result<bool, Cause>
    requires confirmable { CanConfirm state.now.entry (untranslated state.now.info)
        connections.old.held }
    requires later { IsNoneLater now connections.old.held }
    requires room { IsTrue connections.old.has_room }
    requires fits { Fits state.now.info (mappings_in connections.old.held) }
    ensures confirms { Confirms now flags state.now.entry state.now.info (mark_in state.now.facts.ct)
        connections.old.held connections.new.held result }
    ensures limits { connections.new.limits ≡ connections.old.limits }
    // Only a new connection takes what is reserved.
    ensures room { begun_in result ≡ false → IsTrue connections.new.has_room }
    ensures steps { IsWithin (option_map (confirmation_slots state.now.info) T.max_slots)
        steps.old steps.new }
{
    let mark = mark_in(state.facts.ct);
    match &state.info {
        CtInfo::Tracked(connection) => {
            connections.touch(state.entry, connection.direction, flags, mark, now, steps);
            Ok(false)
        }
        CtInfo::New(new_connection) => begin(connections, new_connection, flags, mark, now, steps),
        // An ICMP error doesn't refresh its connection.
        _ => Ok(false),
    }
}

/// Begins a connection with its first packet.
///
/// # Errors
/// `Full` or `Clash`.
fn begin<T: Tracker>(
    connections: &mut ConnectionTable<T>,
    new_connection: &NewConnection,
    flags: Flags,
    mark: u32,
    now: Moment,
    steps: &mut Steps,
) -> Result<bool, Cause>
    requires free { is_taken new_connection.now.original connections.old.held ≡ false }
    requires later { IsNoneLater now connections.old.held }
    requires room { IsTrue connections.old.has_room }
    requires fits { IsFitting new_connection.now (mappings_in connections.old.held) }
    ensures confirms { (entry : TheId)
        → Confirms now flags entry (New new_connection.now) mark connections.old.held
        connections.new.held result }
    ensures limits { connections.new.limits ≡ connections.old.limits }
    ensures room { begun_in result ≡ false → IsTrue connections.new.has_room }
    ensures steps { IsWithin (option_map (λ most. most.begin) T.max_slots) steps.old steps.new }
{
    match connections.begin(new_connection, flags, mark, now, steps) {
        Ok(()) => Ok(true),
        Err(BeginError::Full) => Err(Cause::Full),
        Err(BeginError::Clash) => Err(Cause::Clash),
    }
}

/// The connection's mark, as last set; 0 without a connection.
fn mark_in(ct: CtFacts) -> u32
    ensures { result ≡ mark_in ct }
{
    match ct {
        CtFacts::Known(connection) => connection.mark,
        CtFacts::NotLookedUp | CtFacts::Notrack | CtFacts::Untracked | CtFacts::Invalid => 0,
    }
}
