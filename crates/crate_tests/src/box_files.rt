//! What no run asks of a box: routes to its own addresses, and the addresses of interfaces that it
//! lacks.
use crate::support::check_row;
use box_file::Plant;

/// Two interfaces and a default route.
const TWO: &[u8] = b"interface 2 lan 192.168.1.1/24
interface 3 wan 203.0.113.1/24
route 0.0.0.0/0 wan
default lan
";

/// An interface with a second address, overlapping prefixes, and an own multicast address.
const SEVERAL: &[u8] = b"# a route before its interface
route 10.0.0.0/23 up
interface 2 lan 10.0.0.1/24
interface 3 wan 10.0.1.1/24
\tinterface  2 lan\t10.0.1.129/25 # a second address
interface 7 up 239.0.0.1/8
route 10.0.1.0/24 lan

default wan";

/// A box, an address of its own, and the output interface of the route to that.
type Own = (&'static [u8], [u8; 4], Option<u32>);

static OWN: [Own; 4] = [
    (TWO, [192, 168, 1, 1], Some(2)),
    (TWO, [203, 0, 113, 1], Some(3)),
    (SEVERAL, [10, 0, 1, 129], Some(2)),
    (SEVERAL, [239, 0, 0, 1], None),
];

#[test]
fn own_addresses_have_routes(rt: HostRuntime) {
    for row in 0..OWN.len() {
        let (text, groups, route) = OWN[row];
        let network = Plant::read(rt.alloc(), text).expect(&rt, "a box");
        check_row(&rt, row, network.route(u32::from_be_bytes(groups)) == route);
    }
}

#[test]
fn other_interfaces_have_no_address(rt: HostRuntime) {
    let network = Plant::read(rt.alloc(), TWO).expect(&rt, "a box");
    check_row(&rt, 0, network.first_address(1).is_none());
    check_row(&rt, 1, network.first_address(4).is_none());
}
