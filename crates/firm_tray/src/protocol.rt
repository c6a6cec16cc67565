//! The steps of a tray. Its word is 0 while it is open, 1 once it is answered, and 2 once the answer is taken; its slot
//! holds the answer. A seat is what one side knows of the tray.
use atomic_table::{Play, Seat, Split, Table, TableRule};
use firm_rules::Reply;
use firm_tenant::Tenant;
use std::alloc::Global;

/// A tenant after its round, and the round's reply.
#[derive(Drop)]
pub struct Solved {
    pub tenant: Tenant,
    pub reply: Reply,
}

/// The stage of a seat. The first two are those of the single seat, before the tray has two sides.
pub enum Stage {
    Opening,
    Holding,
    Open,
    Spent,
    Asked,
    Taken,
}

/// A seat's knowledge: its stage, the tenant for which the tray was opened, and the number of looks of the asking side
/// in vain. Never constructed.
pub struct TraySight {
    pub stage: Stage,
    pub book: Tenant,
    pub vain: u64,
}

/// The rule that every step keeps.
pub struct TrayRule;

impl TableRule<Option<Solved>, TraySight, Tenant> for TrayRule {
    ghost use Rattle.firm_tray.specs.Rule.{KeepsRule};
    ghost use Rattle.firm_tray.specs.inner.Steps.{opening_sight};

    ghost holds = { KeepsRule };

    ghost first = { opening_sight };
}

pub type Board = Table<Option<Solved>, TraySight, Tenant, TrayRule, Global>;

pub type TraySeat = Seat<Option<Solved>, TraySight>;

/// The opening seat takes the slot out, before the tray has two sides.
pub struct TakesSlot;

impl Play<Option<Solved>, TraySight> for TakesSlot {
    ghost use Rattle.firm_tray.specs.inner.Steps.{takes_slot};

    ghost then = { takes_slot };
}

/// The answering seat puts the slot back with the answer in it.
pub struct GivesAnswer;

impl Play<Option<Solved>, TraySight> for GivesAnswer {
    ghost use Rattle.firm_tray.specs.inner.Steps.{gives_answer};

    ghost then = { gives_answer };
}

/// The asking seat looks, and takes the answer, if any.
pub struct Looks;

impl Play<Option<Solved>, TraySight> for Looks {
    ghost use Rattle.firm_tray.specs.inner.Steps.{looks};

    ghost then = { looks };
}

/// The seat that holds the slot answers, and the new one asks.
pub struct Sides;

impl Split<TraySight> for Sides {
    ghost use Rattle.firm_tray.specs.inner.Steps.{open_sight, asked_sight};

    ghost left = { open_sight };

    ghost right = { asked_sight };
}
