//! The datacentres with the links between them.

use cz_base::Seq;
use datacentre::Datacentre;
use lossy_links::Link;

/// The datacentres by letter, and the links from each to each.
#[derive(Drop)]
pub(crate) struct Network {
    pub datacentres: Seq<Datacentre>,
    pub links: Seq<Seq<Link>>,
}
