use firm_net::{ArcRow, Net, Way};
use std::alloc::{AllocError, Global};

/// A unit of flow along one arc: 1 where it was pushed.
pub fn one_unit(alloc: Global) -> Result<u32, AllocError> {
    let mut net = Net::new(alloc, 2, 1)?;
    let (Ok(tail), Ok(head)) = (net.add_node(), net.add_node()) else {
        return Ok(0);
    };
    let Some(row) = ArcRow::new(tail, head, 0, 1, 5, 0) else {
        return Ok(0);
    };
    let Ok(arc) = net.add_arc(row) else {
        return Ok(0);
    };
    net.push(arc, Way::Forward);
    Ok(net.arc(arc).map_or(0, |row| row.flow()))
}
