//! A message is delivered.
ghost use Rattle.syn_runs.specs.World.{World as ModelWorld, Deliver};

use super::Running;
use crate::SimulatedDisk;
use crate::lists::Message;
use std::alloc::Global;

impl<D: SimulatedDisk> Running<D> {
    ghost use Rattle.syn_world.specs.Runs.{Attempts};
    ghost use Rattle.syn_world.specs.Failures.{failures_in};
    ghost use Rattle.syn_world.specs.Worlds.{IsRunning};

    /// The message that was sent with this number is delivered, again if it was before. The first
    /// has the number 0. One that was never sent does nothing.
    pub(crate) fn deliver(self, alloc: Global, message: usize) -> Result<Running<D>, Running<D>>
        ensures { (model : ModelWorld) → IsRunning self model
            → Attempts model (failures_in self) (Deliver message) result }
    {
        match self.lists.sent.get(message) {
            None => Ok(self),
            Some(Message::Asks(sending)) => {
                let (side, message) = (sending.to, &sending.message);
                let (session, number) = (message.session, message.number);
                match message.request.copy(alloc) {
                    Ok(request) => self.deliver_request(alloc, side, session, number, request),
                    Err(_) => Err(self),
                }
            }
            Some(Message::Answers(side, answered)) => {
                let (side, session, number) = (*side, answered.session, answered.number);
                match answered.reply.copy(alloc) {
                    Ok(reply) => self.deliver_reply(alloc, side, session, number, reply),
                    Err(_) => Err(self),
                }
            }
        }
    }
}
