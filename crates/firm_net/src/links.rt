//! The incidence lists of the nodes: each arc has an entry in the list of its tail, where it is outgoing, and one in
//! the list of its head, where it is incoming. The entries lie in the arcs and name their neighbours by place.
ghost use Rattle.std.specs.Prelude.{◌≡◌, ◌+◌, ◌-◌, ◌<◌, ◌^◌, IsSome, IfSome, IfOk, Some, None};
ghost use Rattle.std.specs.Option.{IsSomeAnd};
ghost use Rattle.firm_arena.specs.Arena.{find, vacant, changed_at, changed_all};
ghost use Rattle.firm_net.specs.inner.Links.{neighbours_of, list_of, with_neighbours, with_next, with_previous};
ghost use Rattle.firm_net.specs.inner.Links.{with_arc_list, empty_node, at_option, list_from, list_past, first_past};
ghost use Rattle.firm_net.specs.inner.Links.{links_from, links_past, loose_link, with_link_row, cleared_link};

use crate::row::{ArcId, ArcRow, NodeId};
use firm_arena::Arena;
use std::alloc::{AllocError, Global};
use std::marker::Model;

/// One of a node's two lists: the arcs out of it, or the arcs into it.
#[derive(Clone, Copy)]
pub enum Side {
    Out,
    In,
}

/// The place of an arc, or none. It takes four bytes, where an `Option<u32>` takes eight.
#[derive(Clone, Copy)]
pub struct Place {
    number: u32,
}

// The number that stands for none: more than a net has room for.
const NOWHERE: u32 = u32::MAX;

impl Model for Place {
    ghost use Rattle.std.specs.Prelude.{ℕ, Option};

    ghost Value = { Option ℕ };

    ghost use Rattle.firm_net.specs.inner.Place.{named, number_of, number_kept};

    ghost view = { named };

    ghost inverse = { number_of };

    ghost inverse_ok = { λ p h. number_kept p };
}

impl Place {
    /// No place.
    pub fn none() -> Place
        ensures { result ≡ None }
    {
        Place { number: NOWHERE }
    }

    /// The place of this number.
    pub fn at(place: u32) -> Place
        requires { place + 1 < 2 ^ 32 }
        ensures { result ≡ Some place }
    {
        Place { number: place }
    }

    /// The number of the place, if any.
    pub fn get(self) -> Option<u32>
        ensures { result ≡ self }
    {
        if self.number == NOWHERE {
            None
        } else {
            Some(self.number)
        }
    }
}

/// The entry of an arc in an incidence list: the places of the arcs before and after it there.
#[derive(Clone, Copy)]
pub struct Neighbours {
    pub next: Place,
    pub previous: Place,
}

/// An arc: its row, its entry in the list of its tail, and its entry in the list of its head.
#[derive(Clone, Copy)]
pub struct Link {
    pub row: ArcRow,
    pub outgoing: Neighbours,
    pub incoming: Neighbours,
}

/// One incidence list of a node: the place of its first arc, and how many arcs it has.
#[derive(Clone, Copy)]
pub struct ArcList {
    pub first: Place,
    pub count: u32,
}

/// A node: the list of the arcs out of it and that of the arcs into it.
#[derive(Clone, Copy)]
pub struct Node {
    pub outgoing: ArcList,
    pub incoming: ArcList,
}

impl Neighbours {
    /// The entry of an arc that stands in no list.
    fn none() -> Neighbours
        ensures { result ≡ record { next = None; previous = None } }
    {
        Neighbours {
            next: Place::none(),
            previous: Place::none(),
        }
    }
}

impl ArcList {
    /// A list without arcs.
    pub fn new() -> ArcList
        ensures { result ≡ record { first = None; count = 0 } }
    {
        ArcList {
            first: Place::none(),
            count: 0,
        }
    }
}

impl Link {
    /// An arc that stands in no list.
    pub fn new(row: ArcRow) -> Link
        ensures { result ≡ loose_link row }
    {
        Link {
            row,
            outgoing: Neighbours::none(),
            incoming: Neighbours::none(),
        }
    }

    pub fn neighbours(&self, side: Side) -> Neighbours
        ensures { result ≡ neighbours_of side self.now }
    {
        match side {
            Side::Out => self.outgoing,
            Side::In => self.incoming,
        }
    }

    fn set_neighbours(&mut self, side: Side, neighbours: Neighbours)
        ensures { self.new ≡ with_neighbours side neighbours self.old }
    {
        match side {
            Side::Out => self.outgoing = neighbours,
            Side::In => self.incoming = neighbours,
        }
    }

    fn set_next(&mut self, side: Side, next: Place)
        ensures { self.new ≡ with_next side next self.old }
    {
        match side {
            Side::Out => self.outgoing.next = next,
            Side::In => self.incoming.next = next,
        }
    }

    fn set_previous(&mut self, side: Side, previous: Place)
        ensures { self.new ≡ with_previous side previous self.old }
    {
        match side {
            Side::Out => self.outgoing.previous = previous,
            Side::In => self.incoming.previous = previous,
        }
    }
}

impl Node {
    /// A node without arcs.
    pub fn new() -> Node
        ensures { result ≡ empty_node }
    {
        Node {
            outgoing: ArcList::new(),
            incoming: ArcList::new(),
        }
    }

    pub fn list(&self, side: Side) -> ArcList
        ensures { result ≡ list_of side self.now }
    {
        match side {
            Side::Out => self.outgoing,
            Side::In => self.incoming,
        }
    }

    fn set_list(&mut self, side: Side, list: ArcList)
        ensures { self.new ≡ with_arc_list side list self.old }
    {
        match side {
            Side::Out => self.outgoing = list,
            Side::In => self.incoming = list,
        }
    }
}

/// Two arenas with these capacities; neither where memory for one is refused.
pub fn two_arenas<N: Drop, L: Drop>(
    alloc: Global,
    nodes: u32,
    links: u32,
) -> Result<(Arena<N>, Arena<L>), AllocError>
    ensures nodes { IfOk result (λ both. both.0 ≡ vacant nodes 0) }
    ensures links { IfOk result (λ both. both.1 ≡ vacant links 0) }
{
    let first = Arena::new(alloc, nodes)?;
    let second = Arena::new(alloc, links)?;
    Ok((first, second))
}

/// Names other neighbours of the arc at a place, where a place is named.
fn set_neighbours(links: &mut Arena<Link>, side: Side, place: Place, neighbours: Neighbours)
    ensures { links.new ≡ at_option links.old place (with_neighbours side neighbours) }
{
    let Some(place) = place.get() else {
        return;
    };
    let Some(id) = links.id_at(place) else {
        return;
    };
    let Some(link) = links.get_mut(id) else {
        unreachable!()
    };
    link.set_neighbours(side, neighbours);
}

/// Links another arc after the one at a place, if a place is given.
fn set_next(links: &mut Arena<Link>, side: Side, place: Place, next: Place)
    ensures { links.new ≡ at_option links.old place (with_next side next) }
{
    let Some(place) = place.get() else {
        return;
    };
    let Some(id) = links.id_at(place) else {
        return;
    };
    let Some(link) = links.get_mut(id) else {
        unreachable!()
    };
    link.set_next(side, next);
}

/// Names another arc before the one at a place, where a place is named.
fn set_previous(links: &mut Arena<Link>, side: Side, place: Place, previous: Place)
    ensures { links.new ≡ at_option links.old place (with_previous side previous) }
{
    let Some(place) = place.get() else {
        return;
    };
    let Some(id) = links.id_at(place) else {
        return;
    };
    let Some(link) = links.get_mut(id) else {
        unreachable!()
    };
    link.set_previous(side, previous);
}

/// Gives a node that is there another list.
fn set_list(nodes: &mut Arena<Node>, side: Side, node: NodeId, list: ArcList)
    requires { IsSome (find nodes.old node.id) }
    ensures { nodes.new ≡ changed_at nodes.old node.id.place (with_arc_list side list) }
{
    let Some(owner) = nodes.get_mut(node.id) else {
        unreachable!()
    };
    owner.set_list(side, list);
}

/// Links an arc at the front of the list of a node that is there.
pub fn link_at_front(
    nodes: &mut Arena<Node>,
    links: &mut Arena<Link>,
    side: Side,
    node: NodeId,
    arc: ArcId,
)
    requires list { IsSomeAnd (find nodes.old node.id) (λ owner. (list_of side owner).count + 1 < 2 ^ 32) }
    requires place { arc.id.place + 1 < 2 ^ 32 }
    ensures nodes { IfSome (find nodes.old node.id) (λ owner.
        nodes.new ≡ changed_at nodes.old node.id.place
        (with_arc_list side (list_from arc.id.place (list_of side owner)))) }
    ensures links { IfSome (find nodes.old node.id) (λ owner.
        links.new ≡ links_from side arc.id.place (list_of side owner).first links.old) }
{
    let Some(owner) = nodes.get(node.id).copied() else {
        unreachable!()
    };
    let list = owner.list(side);
    let place = Place::at(arc.id.place);
    let neighbours = Neighbours {
        next: list.first,
        previous: Place::none(),
    };
    set_neighbours(links, side, place, neighbours);
    set_previous(links, side, list.first, place);
    let longer = ArcList {
        first: place,
        count: list.count + 1,
    };
    set_list(nodes, side, node, longer);
}

/// Unlinks the arc with these neighbours from the list of a node that is there.
pub fn unlink(
    nodes: &mut Arena<Node>,
    links: &mut Arena<Link>,
    side: Side,
    node: NodeId,
    around: Neighbours,
)
    requires { IsSomeAnd (find nodes.old node.id) (λ owner. 0 < (list_of side owner).count) }
    ensures nodes { IfSome (find nodes.old node.id) (λ owner.
        nodes.new ≡ changed_at nodes.old node.id.place (with_arc_list side (list_past around (list_of side owner)))) }
    ensures links { links.new ≡ links_past side around links.old }
{
    set_next(links, side, around.previous, around.next);
    set_previous(links, side, around.next, around.previous);
    let Some(owner) = nodes.get(node.id).copied() else {
        unreachable!()
    };
    let list = owner.list(side);
    let first = first_past(around, list.first);
    let shorter = ArcList {
        first,
        count: list.count - 1,
    };
    set_list(nodes, side, node, shorter);
}

/// The first arc of a list, once the arc with these neighbours left it.
fn first_past(around: Neighbours, first: Place) -> Place
    ensures { result ≡ first_past around.previous around.next first }
{
    match around.previous.get() {
        None => around.next,
        Some(_) => first,
    }
}

/// Gives an arc that is there another row.
pub fn set_row(links: &mut Arena<Link>, arc: ArcId, row: ArcRow)
    requires { IsSome (find links.old arc.id) }
    ensures { links.new ≡ changed_at links.old arc.id.place (with_link_row row) }
{
    let Some(link) = links.get_mut(arc.id) else {
        unreachable!()
    };
    link.row = row;
}

/// Sets low and flow of the arc at a place to 0, if any.
fn clear_row(links: &mut Arena<Link>, place: u32)
    ensures { links.new ≡ changed_at links.old place cleared_link }
{
    let Some(id) = links.id_at(place) else {
        return;
    };
    let Some(link) = links.get_mut(id) else {
        unreachable!()
    };
    link.row.clear();
}

/// Sets low and flow of every arc to 0.
pub fn clear_rows(links: &mut Arena<Link>)
    ensures { links.new ≡ changed_all links.old cleared_link }
{
    for place in 0..links.used() {
        clear_row(links, place);
    }
}
