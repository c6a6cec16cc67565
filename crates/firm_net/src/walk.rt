//! The walk over one list of a node.
ghost use Rattle.std.specs.Prelude.{◌≡◌};
ghost use Rattle.std.specs.Iterator.{YieldsFirst, item_count};
ghost use Rattle.firm_net.specs.inner.Links.{walk_rows};

use crate::links::{ArcList, Link, Place, Side};
use crate::row::{ArcId, ArcRow};
use firm_arena::Arena;
use std::marker::Model;

/// The arcs of one list of a node, each with its id, from the first on.
#[derive(Drop)]
pub struct Arcs<'a> {
    links: &'a Arena<Link>,
    side: Side,
    next: Place,
    left: u32,
}

impl<'a> Model for Arcs<'a> {
    ghost use Rattle.std.specs.Prelude.{List};
    ghost use Rattle.firm_net.specs.Row.{Row};
    ghost use Rattle.firm_net.specs.declared.row.ArcId.{ArcId};

    ghost Value = { List (ArcId × Row) };

    ghost use Rattle.firm_net.specs.inner.Arcs.{arcs_left};

    ghost view = { arcs_left };
}

impl<'a> Arcs<'a> {
    pub(crate) fn new(links: &'a Arena<Link>, side: Side, list: ArcList) -> Arcs<'a>
        ensures { result ≡ walk_rows side links.now list.count list.first }
    {
        Arcs {
            links,
            side,
            next: list.first,
            left: list.count,
        }
    }
}

impl<'a> Iterator for Arcs<'a> {
    type Item = (ArcId, ArcRow);

    ghost next_gives = { YieldsFirst (λ s. s) };

    ghost remaining = { item_count (λ s. s) };

    fn next(&mut self) -> Option<(ArcId, ArcRow)> {
        if self.left == 0 {
            return None;
        }
        let id = self.links.id_at(self.next.get()?)?;
        let link = self.links.get(id)?;
        self.left -= 1;
        self.next = link.neighbours(self.side).next;
        Some((ArcId { id }, link.row))
    }
}
