//! A packet on its path.
ghost use Rattle.std.specs.Prelude.{◌≡◌};
ghost use Rattle.filter_vm.specs.Machine.{EventsAndTicks};
ghost use Rattle.stepping.specs.Carried.{packet_facts};
ghost use Rattle.stepping.specs.Next.{with_info};
ghost use Rattle.stepping.specs.Paths.{on_arrival};
ghost use Rattle.stepping.specs.steps.Confirming.{entry_of};
ghost use Rattle.stepping.specs.steps.Steps.{path_state};
ghost use Rattle.translation.specs.CtInfos.{ct_info_by};

use conntrack::{Belonging, ConnId};
use ip_headers::{Transport, Tuple, View};
use rule_meaning::{CtFacts, Facts, Interface, Packet};
use translation::CtInfo;

/// A packet on its path. Each step updates it in place, and the next packet takes its place.
#[derive(Clone, Copy)]
pub struct PacketState {
    /// What rules read of it.
    pub facts: Facts,
    /// Its state in connection tracking.
    pub info: CtInfo,
    /// The entry of its connection where it is tracked; else one of an earlier packet.
    pub entry: ConnId,
}

impl PacketState {
    /// The place for packets, with none in it: all numbers are 0.
    pub fn vacant() -> PacketState {
        PacketState {
            facts: Facts {
                packet: Packet {
                    source: 0,
                    destination: 0,
                    protocol: 0,
                    ttl: 0,
                    length: 0,
                    transport: Transport::Other,
                },
                input: Interface { index: 0, name: 0 },
                output: None,
                mark: 0,
                ct: CtFacts::NotLookedUp,
            },
            info: CtInfo::Untracked,
            entry: ConnId(0),
        }
    }

    /// Takes a received packet: not routed, not looked up, mark 0.
    #[inline(always)]
    pub fn receive(&mut self, view: &View, input: &Interface)
        ensures facts { self.new.facts ≡ (on_arrival view.now.packet.now input.now).facts }
        ensures info { self.new.info ≡ (on_arrival view.now.packet.now input.now).info }
    {
        self.facts.packet = packet_facts(view);
        self.facts.input = *input;
        self.facts.output = None;
        self.facts.mark = 0;
        self.facts.ct = CtFacts::NotLookedUp;
        self.info = CtInfo::Untracked;
    }

    /// Sets its state by the look-up, which rules read from then on.
    #[inline(always)]
    pub fn set_info(&mut self, info: CtInfo)
        ensures state { (events : EventsAndTicks)
            → path_state self.new events ≡ with_info info (path_state self.old events) }
        ensures info { self.new.info ≡ info }
        ensures entry { self.new.entry ≡ self.old.entry }
    {
        self.info = info;
        self.facts.ct = self.info.ct();
    }

    /// The same by the look-up of its tuple, and its entry.
    #[inline(always)]
    pub fn set_belonging(&mut self, tuple: Tuple, belonging: Belonging)
        ensures state { (events : EventsAndTicks) → path_state self.new events
            ≡ with_info (ct_info_by tuple belonging) (path_state self.old events) }
        ensures info { self.new.info ≡ ct_info_by tuple belonging }
        ensures entry { self.new.entry ≡ entry_of self.old.entry belonging }
    {
        // Each result is written where it is known which one it is.
        match &belonging {
            Belonging::Found(found) => {
                self.entry = found.id;
                self.set_info(CtInfo::of(tuple, belonging));
            }
            Belonging::NotFound | Belonging::Ends(_) => self.set_info(CtInfo::of(tuple, belonging)),
        }
    }
}

/// The header fields.
#[inline(always)]
fn packet_facts(view: &View) -> Packet
    ensures { result ≡ packet_facts view.now.packet.now }
{
    Packet {
        source: view.source(),
        destination: view.destination(),
        protocol: view.protocol(),
        ttl: view.ttl(),
        length: view.total_length(),
        transport: view.transport(),
    }
}
