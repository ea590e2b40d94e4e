//! Circular doubly linked lists of slots, each with a head. In `steps` calls count the slots that
//! they read or write.
ghost use Rattle.std.specs.Prelude.{◌≡◌, ℕ, ◌+◌, ◌<◌, ◌≤◌, ◌==◌, [], Some, None, slice_get};
ghost use Rattle.slab.specs.Slab.{ContainsKey};
ghost use Rattle.conntrack.specs.TableEntries.{IsWithin};
ghost use Rattle.aged_tracker.specs.steps.Table.{HasRings, IsNode, IsOwned, IsRings, Lists, MAX_KEYS, is_first, Relinks, Relists, SameBy, SameSize};
ghost use Rattle.aged_tracker.specs.steps.Table.{Slots as SlotsName, except_links, link_at, number, off, owner_of, prev_of, pushed, with_neighbour};

use crate::slot::{LISTS, Link, ListLinks, Neighbour, NodeIndex};
use crate::slots::Slots;
use conntrack::Steps;

/// The links of a head.
fn head_link(heads: &[Link; LISTS], list: usize) -> Link
    requires { list < 5 }
    ensures { (slots : SlotsName)
        → result ≡ link_at slots heads.now list }
{
    heads[list]
}

/// Sets a neighbour of a node.
#[inline(always)]
fn set_neighbour(
    slots: &mut Slots,
    heads: &mut [Link; LISTS],
    at: NodeIndex,
    neighbour: Neighbour,
    to: NodeIndex,
    steps: &mut Steps,
)
    requires { IsNode slots.old (number at) }
    ensures links { Relinks (link_at slots.old heads.old) (link_at slots.new heads.new)
        (number at) (with_neighbour neighbour to (link_at slots.old heads.old (number at))) }
    ensures owners { (key : ℕ) → owner_of slots.new key ≡ owner_of slots.old key }
    ensures except_links { SameBy except_links slots.old slots.new }
    ensures size { SameSize slots.old slots.new }
    ensures steps { IsWithin (Some 1) steps.old steps.new }
    ensures head { number at < 5 → steps.new ≤ steps.old }
{
    match at.key() {
        Some(key) => slots.set_neighbour(key, neighbour, to, steps),
        None => heads[at.number()].set(neighbour, to),
    }
}

/// Removes a slot from its list, and returns that list.
pub fn unlink(slots: &mut Slots, heads: &mut [Link; LISTS], key: usize, steps: &mut Steps) -> usize
    requires rings { HasRings slots.old heads.old }
    requires owned { IsOwned slots.old key }
    ensures relists { Relists slots.old slots.new heads.old heads.new key None (off key) }
    ensures owner { owner_of slots.old key ≡ Some result }
    ensures range { result < 5 }
    ensures except_links { SameBy except_links slots.old slots.new }
    ensures size { SameSize slots.old slots.new }
    ensures steps { IsWithin (Some 3) steps.old steps.new }
{
    let links = slots.take_links(key, steps);
    let Link { prev, next } = links.link;
    set_neighbour(slots, heads, prev, Neighbour::Next, next, steps);
    set_neighbour(slots, heads, next, Neighbour::Previous, prev, steps);
    usize::from(links.list.unwrap())
}

/// Appends a slot that is in no list to one.
pub fn push_back(
    slots: &mut Slots,
    heads: &mut [Link; LISTS],
    list: usize,
    key: usize,
    steps: &mut Steps,
)
    requires range { list < 5 }
    requires slot { ContainsKey slots.old key }
    requires few { key < MAX_KEYS }
    requires free { owner_of slots.old key ≡ None }
    requires rings { HasRings slots.old heads.old }
    ensures relists { Relists slots.old slots.new heads.old heads.new key (Some list)
        (pushed key list) }
    ensures few { key < MAX_KEYS }
    ensures except_links { SameBy except_links slots.old slots.new }
    ensures size { SameSize slots.old slots.new }
    ensures steps { IsWithin (Some 2) steps.old steps.new }
{
    let head = NodeIndex::head(list);
    let slot = NodeIndex::slot(key);
    let last = head_link(heads, list).prev;
    let links = ListLinks {
        list: Some(list as u8),
        link: Link {
            prev: last,
            next: head,
        },
    };
    slots.set_links(key, links, steps);
    set_neighbour(slots, heads, last, Neighbour::Next, slot, steps);
    set_neighbour(slots, heads, head, Neighbour::Previous, slot, steps);
}

/// The first key of a list.
pub fn front(heads: &[Link; LISTS], list: usize) -> Option<usize>
    requires { list < 5 }
    ensures { (slots : SlotsName) (lists : Lists) → IsRings slots heads.now lists
        → result ≡ slice_get (lists list) 0 }
{
    head_link(heads, list).next.key()
}

/// Whether a slot is the first of a list.
pub fn is_first(heads: &[Link; LISTS], list: usize, key: usize) -> bool
    requires range { list < 5 }
    requires few { key < MAX_KEYS }
    ensures { (slots : SlotsName) (lists : Lists) → IsRings slots heads.now lists
        → result ≡ is_first key (lists list) }
{
    head_link(heads, list).next.number() == LISTS + key
}

/// Whether a slot is the last of a list.
pub fn is_last(heads: &[Link; LISTS], list: usize, key: usize) -> bool
    requires range { list < 5 }
    requires few { key < MAX_KEYS }
    ensures { (slots : SlotsName) → result ≡ (prev_of slots heads.now list == 5 + key) }
{
    head_link(heads, list).prev.number() == LISTS + key
}

/// The heads of empty lists.
pub fn empty_heads() -> [Link; LISTS]
    ensures { (slots : SlotsName) → slots.slots ≡ [] → IsRings slots result (λ list. []) }
{
    [
        Link::alone(0),
        Link::alone(1),
        Link::alone(2),
        Link::alone(3),
        Link::alone(4),
    ]
}
