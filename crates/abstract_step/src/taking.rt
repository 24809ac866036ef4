//! How a world takes an event of any kind.
ghost use Rattle.abstract_log.specs.Shapes.{IsShaped};
ghost use Rattle.abstract_step.specs.Taking.{Takes};

use crate::StepFault;
use crate::collecting::collect;
use crate::exchange::{add, learn, receive};
use crate::reply::reply;
use crate::writing::{append, submit};
use abstract_log::{Event, World};

/// The event happens, or the world stays and the first condition that fails is told.
pub(crate) fn take(world: &mut World, event: &Event) -> Result<(), StepFault>
    requires { IsShaped world.old }
    ensures { Takes world.old event.now result world.new }
{
    match event {
        Event::Submit { session, index } => submit(world, *session, *index),
        Event::Append {
            dc,
            session,
            index,
            lid,
            toid,
        } => append(world, *dc, *session, *index, *lid, *toid),
        Event::Receive {
            dc,
            from,
            table,
            names,
        } => receive(world, *dc, *from, &table.get(), names),
        Event::Add {
            dc,
            lid,
            host,
            toid,
        } => add(world, *dc, *lid, *host, *toid),
        Event::Learn { dc, row } => learn(world, *dc, &row.get()),
        Event::Reply {
            dc,
            session,
            index,
            at,
            answer,
        } => reply(world, *dc, *session, *index, *at, answer.get()),
        Event::Collect { dc, lid } => collect(world, *dc, *lid),
    }
}
