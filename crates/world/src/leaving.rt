//! What the stages leave.
ghost use Rattle.std.specs.Prelude.{IfOk};
ghost use Rattle.std.specs.List.{AllZip};
ghost use Rattle.datacentre.specs.Leaving.{IsLeftBy};

use crate::network::Network;
use abstract_log::Left;
use cz_base::{NoMemory, Seq};
use datacentre::Datacentre;
use std::alloc::Global;
use std::mem::drop;

/// What each datacentre leaves, by letter. The links are given back first.
pub(crate) fn leave(alloc: Global, network: Network) -> Result<Left, NoMemory>
    ensures { IfOk result (AllZip IsLeftBy network.datacentres) }
{
    let Network { datacentres, links } = network;
    drop(links);
    leave_each(alloc, datacentres)
}

fn leave_each(alloc: Global, datacentres: Seq<Datacentre>) -> Result<Left, NoMemory>
    ensures { IfOk result (AllZip IsLeftBy datacentres) }
{
    let mut left = Seq::new(alloc);
    for datacentre in datacentres.into_vec() {
        left.push(datacentre.leave()?)?;
    }
    Ok(left)
}
