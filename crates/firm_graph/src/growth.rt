//! All the memory that an added row takes. No net is at hand here, so that each growth comes before its first change.
ghost use Rattle.std.specs.Prelude.{◌≡◌, ◌<◌, ◌≤◌, false, true, [], IfOk, OnOk, OnErr, All, vec_len, vec_capacity};
ghost use Rattle.firm_rules.specs.ArenaUse.{FitsLimits};
ghost use Rattle.firm_rules.specs.Book.{machine_names, job_names, task_names, with_machine, with_job, with_task};
ghost use Rattle.firm_rules.specs.Names.{is_among};
ghost use Rattle.firm_rules.specs.Round.{IsFound};
ghost use Rattle.firm_rules.specs.Sound.{AreSound};

use crate::ids::{JobParts, MachineIds, TaskParts};
use firm_net::{ArcId, NodeId};
use firm_rules::{Name, NewTask, Rows, Slots, Weight};
use firm_sequence::Sequence;
use std::alloc::{AllocError, Allocator};

/// Adds the row of a job, with room for its parts. The error comes for lack of memory alone, and leaves all as it was.
pub(crate) fn grow_jobs<A: Allocator>(
    parts: &mut Vec<JobParts, A>,
    rows: &mut Rows<A>,
    name: Name,
    weight: Weight,
) -> Result<(), AllocError>
    requires new_name { is_among (job_names rows.old) name ≡ false }
    requires fits { FitsLimits (with_job rows.old name weight) }
    ensures parts { parts.new.items ≡ parts.old.items }
    ensures room { OnOk result (vec_len parts.new < vec_capacity parts.new) }
    ensures ok { OnOk result (rows.new ≡ with_job rows.old name weight) }
    ensures err { OnErr result (rows.new ≡ rows.old) }
    ensures sound { OnOk result (AreSound rows.new) }
{
    parts.reserve(1)?;
    rows.add_job(name, weight)
}

/// Adds the row of a task, with room for its parts and its node. The error comes for lack of memory alone, and leaves
/// all as it was.
pub(crate) fn grow_tasks<A: Allocator>(
    parts: &mut Sequence<TaskParts, A>,
    sources: &mut Vec<NodeId, A>,
    rows: &mut Rows<A>,
    task: &NewTask,
) -> Result<(), AllocError>
    requires found { IsFound rows.old task.now }
    requires job_there { is_among (job_names rows.old) task.now.job ≡ true }
    requires new_name { is_among (task_names rows.old) task.now.name ≡ false }
    requires machines_there { All (λ machine. is_among (machine_names rows.old) machine ≡ true) task.now.preferred }
    requires fits { FitsLimits (with_task rows.old task.now.job task.now.name task.now.preferred) }
    ensures parts { parts.new.items ≡ parts.old.items }
    ensures sources { sources.new.items ≡ sources.old.items }
    ensures room { OnOk result (0 < parts.new.room) }
    ensures source_room { OnOk result (vec_len sources.new < vec_capacity sources.new) }
    ensures ok { OnOk result (rows.new ≡ with_task rows.old task.now.job task.now.name task.now.preferred) }
    ensures err { OnErr result (rows.new ≡ rows.old) }
    ensures sound { OnOk result (AreSound rows.new) }
{
    parts.make_room()?;
    sources.reserve(1)?;
    rows.add_new_task(task)
}

/// Adds the row of a machine, with room for its parts, and gives a list with room for its slots. The error comes for
/// want of memory alone, and leaves all as it was.
pub(crate) fn grow_machines<A: Allocator>(
    alloc: A,
    parts: &mut Vec<MachineIds, A>,
    rows: &mut Rows<A>,
    name: Name,
    slots: Slots,
) -> Result<Vec<ArcId, A>, AllocError>
    requires new_name { is_among (machine_names rows.old) name ≡ false }
    requires fits { FitsLimits (with_machine rows.old name slots) }
    ensures parts { parts.new.items ≡ parts.old.items }
    ensures room { OnOk result (vec_len parts.new < vec_capacity parts.new) }
    ensures arcs { IfOk result (λ arcs. arcs.items ≡ []) }
    ensures arc_room { IfOk result (λ arcs. slots ≤ vec_capacity arcs) }
    ensures ok { OnOk result (rows.new ≡ with_machine rows.old name slots) }
    ensures err { OnErr result (rows.new ≡ rows.old) }
    ensures sound { OnOk result (AreSound rows.new) }
{
    let arcs = Vec::with_capacity(alloc, slots.get() as usize)?;
    parts.reserve(1)?;
    rows.add_machine(name, slots)?;
    Ok(arcs)
}
