//! What each call of an aged tracker visits, of slots and of its index: as many beside thousands of
//! connections as beside few.
ghost use Rattle.std.specs.Prelude.{◌≡◌, IfSome};
ghost use Rattle.conntrack.specs.ConntrackEntry.{belongs_in};
ghost use Rattle.conntrack.specs.TableEntries.{IsNoneLater};
ghost use Rattle.conntrack.specs.Phases.{no_flags};

use aged_tracker::AgedTracker;
use box_file::Limits;
use conntrack::laws::{looked_up, none_later};
use conntrack::{Belonging, Connection, Flags, Moment, Tracker};
use ip_headers::{Endpoint, Kind, Tuple};
use std::hash::RandomState;
use std::process::Abort;
use step_count::{count_of, start};

/// The moment of all packets.
const NOW: Moment = 0;

/// When UDP connections of that moment have expired: 300 seconds later.
const LATER: Moment = 300_000_000_000;

/// UDP from this port of 192.168.1.10 to 198.51.100.7:53.
fn query(port: u16) -> Tuple {
    Tuple {
        kind: Kind::Udp,
        source: Endpoint {
            address: 0xc0a8_010a,
            port,
        },
        destination: Endpoint {
            address: 0xc633_6407,
            port: 53,
        },
    }
}

/// Looks up a tuple, where no connection has expired, and tells how many visits that took.
fn look(tracker: &mut AgedTracker, tuple: Tuple) -> Option<(Belonging, u64)>
    requires { IsNoneLater 0 tracker.old.held }
    ensures later { IsNoneLater 0 tracker.new.held }
    ensures found { IfSome result (λ pair. pair.0 ≡ belongs_in tracker.new.held tuple no_flags) }
{
    none_later();
    let mut aged = start();
    if tracker.age(NOW, &mut aged).is_some() {
        return None;
    }
    let mut steps = start();
    let belonging = tracker.look(tuple, Flags::none(), NOW, &mut steps);
    Some((belonging, count_of(&steps)))
}

/// Begins the connection of a port: how many visits that takes, `None` where there is one.
fn begin(tracker: &mut AgedTracker, port: u16) -> Option<u64>
    requires { IsNoneLater 0 tracker.old.held }
    ensures { IsNoneLater 0 tracker.new.held }
{
    none_later();
    looked_up();
    let original = query(port);
    let Some((Belonging::NotFound, _)) = look(tracker, original) else {
        return None;
    };
    if tracker.reserve_one().is_err() {
        return None;
    }
    let connection = Connection {
        original,
        reply: original.inverse(),
        mark: 0,
        last: NOW,
        source: None,
        dest: None,
    };
    let mut steps = start();
    match tracker.begin(connection, Flags::none(), &mut steps) {
        Ok(_) => Some(count_of(&steps)),
        Err(_) => None,
    }
}

/// One more packet of the connection of a port: how many visits its lookup and its update take.
fn touch(tracker: &mut AgedTracker, port: u16) -> Option<(u64, u64)>
    requires { IsNoneLater 0 tracker.old.held }
    ensures { IsNoneLater 0 tracker.new.held }
{
    none_later();
    looked_up();
    let Some((Belonging::Found(found), looked)) = look(tracker, query(port)) else {
        return None;
    };
    let mut steps = start();
    tracker.touch(found.id, found.direction, Flags::none(), 0, NOW, &mut steps);
    Some((looked, count_of(&steps)))
}

/// Ends the connection of a port: how many visits that takes.
fn end(tracker: &mut AgedTracker, port: u16) -> Option<u64>
    requires { IsNoneLater 0 tracker.old.held }
    ensures { IsNoneLater 0 tracker.new.held }
{
    none_later();
    looked_up();
    let Some((Belonging::Found(found), _)) = look(tracker, query(port)) else {
        return None;
    };
    let mut steps = start();
    tracker.end(found.id, &mut steps);
    Some(count_of(&steps))
}

/// Begins the connections of so many ports; the first has no neighbour in its queue.
fn fill<R: Abort>(rt: &R, tracker: &mut AgedTracker, ports: u16)
    requires { IsNoneLater 0 tracker.old.held }
    ensures { IsNoneLater 0 tracker.new.held }
{
    for port in 0..ports {
        let visits = begin(tracker, port);
        assert!(rt;
            visits == Some(if port == 0 { 4 } else { 5 }),
            "port {port}"
        );
    }
}

/// Removes a connection that has expired: whether there was one, and how many visits that takes.
fn age(tracker: &mut AgedTracker, now: Moment) -> (bool, u64)
    requires { IsNoneLater 0 tracker.old.held }
    ensures { IsNoneLater 0 tracker.new.held }
{
    none_later();
    let mut steps = start();
    let aged = tracker.age(now, &mut steps);
    (aged.is_some(), count_of(&steps))
}

/// Calls beside so many connections.
fn visits_few<R: Abort>(rt: &R, mut tracker: AgedTracker, ports: u16)
    requires { IsNoneLater 0 tracker.held }
{
    fill(rt, &mut tracker, ports);
    assert!(rt; age(&mut tracker, NOW) == (false, 0));
    // In the middle of its queue, and then at its end and at its front.
    assert!(rt; touch(&mut tracker, 2) == Some((2, 7)));
    assert!(rt; touch(&mut tracker, 2) == Some((2, 1)));
    assert!(rt; touch(&mut tracker, 0) == Some((2, 6)));
    assert!(rt; end(&mut tracker, 3) == Some(7));
    assert!(rt; end(&mut tracker, 3) == None);
    // What was behind the last packet's entry in its queue is guessed once that was right.
    assert!(rt; touch(&mut tracker, 1) == Some((2, 6)));
    assert!(rt; touch(&mut tracker, 4) == Some((1, 6)));
    // The front has one neighbour.
    assert!(rt; age(&mut tracker, LATER) == (true, 6));
}

#[test]
fn calls_visit_few_slots(rt: HostRuntime) {
    let hasher = RandomState::new(&rt).expect(&rt, "a hasher");
    visits_few(&rt, AgedTracker::new(rt.alloc(), Limits::usual()), 6);
    visits_few(
        &rt,
        AgedTracker::with_hasher(rt.alloc(), hasher, Limits::usual()),
        3000,
    );
}
