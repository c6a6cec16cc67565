ghost use Rattle.firm_flow.specs.NetFlow.{AreDistinctNodes};

use firm_flow::solve;
use firm_net::{Net, NodeId};
use firm_paths::{Prices, Scratch};
use std::alloc::{AllocError, Global};

/// The least cost of one unit from each source to the sink; `None` if a source is cut off.
pub fn least_cost(
    alloc: Global,
    net: &mut Net,
    sources: &[NodeId],
    sink: NodeId,
) -> Result<Option<i64>, AllocError>
    requires { AreDistinctNodes net.old sources.now sink }
{
    let mut prices = Prices::new(alloc, net)?;
    let mut scratch = Scratch::new(alloc, net)?;
    Ok(solve(net, &mut prices, &mut scratch, sources, sink).ok())
}
