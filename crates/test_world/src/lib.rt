//! Schedules of several datacentres, as tests: one that is taken step by step, one that is broken off half way and settled, one in which
//! every stage gets a member, one with an upgrade, and one whose turns are taken twice. It has no code of its own and proves nothing for others.
#![tactic(auto)]

#[cfg(test)]
mod growing;
#[cfg(test)]
mod half_way;
#[cfg(test)]
mod no_memory;
#[cfg(test)]
mod playing;
#[cfg(test)]
mod steps;
#[cfg(test)]
mod two_datacentres;
#[cfg(test)]
mod upgrading;
