//! The datacentres and links as a script opens them.
ghost use Rattle.std.specs.Prelude.{◌≡◌, ◌<◌, [], replicate, Some, IfOk};
ghost use Rattle.abstract_log.specs.Fits.{FitsScript};
ghost use Rattle.stage_world.specs.Opening.{opening};
ghost use Rattle.world.specs.Showing.{Shows, opened_at, states_from};

use crate::network::Network;
use abstract_log::Script;
use cz_base::{DcId, NoMemory, Seq};
use datacentre::Datacentre;
use lossy_links::Link;
use std::alloc::Global;

/// The datacentres with the script's stages and sessions, and empty links.
pub(crate) fn open_network(alloc: Global, script: &Script) -> Result<Network, NoMemory>
    requires { FitsScript script.now }
    ensures { IfOk result (λ network. Shows script.now.workload.dcs (opening script.now) network) }
{
    Ok(Network {
        datacentres: open_datacentres(alloc, script)?,
        links: open_links(alloc, script.workload.dcs)?,
    })
}

fn open_datacentres(alloc: Global, script: &Script) -> Result<Seq<Datacentre>, NoMemory>
    requires { FitsScript script.now }
    ensures { IfOk result (λ datacentres. datacentres ≡ states_from 0 (opening script.now).datacentres) }
{
    let mut datacentres = Seq::new(alloc);
    for number in 0..script.workload.dcs {
        datacentres.push(open_datacentre(alloc, script, number)?)?;
    }
    Ok(datacentres)
}

// The datacentre of this number.
fn open_datacentre(alloc: Global, script: &Script, number: u32) -> Result<Datacentre, NoMemory>
    requires fits { FitsScript script.now }
    requires there { number < script.now.workload.dcs }
    ensures { IfOk result (λ datacentre. datacentre ≡ record { dc = number; stages = Some (opened_at script.now number) }) }
{
    let Some(dc) = DcId::new(number) else {
        unreachable!();
    };
    let sizes = &script.sizes.as_slice()[number as usize];
    Datacentre::new(alloc, dc, script.round, sizes, &script.workload)
}

// A link from each to each.
fn open_links(alloc: Global, dcs: u32) -> Result<Seq<Seq<Link>>, NoMemory>
    ensures { IfOk result (λ links. links ≡ replicate dcs (replicate dcs [])) }
{
    let mut links = Seq::new(alloc);
    for _done in 0..dcs {
        links.push(open_row(alloc, dcs)?)?;
    }
    Ok(links)
}

fn open_row(alloc: Global, dcs: u32) -> Result<Seq<Link>, NoMemory>
    ensures { IfOk result (λ row. row ≡ replicate dcs []) }
{
    let mut row = Seq::new(alloc);
    for _done in 0..dcs {
        row.push(Link::new(alloc)?)?;
    }
    Ok(row)
}
