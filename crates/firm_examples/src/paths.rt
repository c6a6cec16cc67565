ghost use Rattle.std.specs.Prelude.{◌≢◌};
ghost use Rattle.firm_net.specs.Net.{IsNode};

use firm_net::{Net, NodeId};
use firm_paths::{Prices, Scratch, tight_path};
use std::alloc::{AllocError, Global};

/// Whether a unit can go from one node to another at no cost.
pub fn is_free(alloc: Global, net: &Net, from: NodeId, to: NodeId) -> Result<bool, AllocError>
    requires { IsNode net.now from × IsNode net.now to × (from ≢ to) }
{
    let prices = Prices::new(alloc, net)?;
    let mut scratch = Scratch::new(alloc, net)?;
    Ok(tight_path(&mut scratch, net, &prices, from, to, &[]).is_some())
}
