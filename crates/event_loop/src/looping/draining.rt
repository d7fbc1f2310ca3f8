//! The end of a loop's users, one after another.

ghost use Rattle.std.specs.Prelude.{[], ◌∷◌, ⊤};
ghost use Rattle.event_loop.specs.Deeds.Deed.{Drained};
ghost use Rattle.event_loop.specs.Turns.{Does, Did};

use crate::ended::LoopFault;
use crate::inbox::{Inbox, stop_all};
use crate::looping::EventLoop;
use crate::mail::Inboxes;
use crate::work::Work;
use socket_wire::Dial;
use std::sync::Wait;
use std::time::Clock;

impl<K: Work> EventLoop<K> {
    /// Lets users go: the users' port is closed, and each exchange is the last one of its connection. Once the last user has
    /// gone, every loop stops.
    pub(super) fn drain<R: Wait + Dial + Clock>(
        &mut self,
        rt: &R,
        inboxes: &[Inbox],
    ) -> Result<(), LoopFault>
        ensures { Did K.Work self.old self.new (λ deeds. ⊤) }
    {
        if !self.draining {
            self.begin_drain(rt, inboxes);
            self.drive_all(rt)?;
        }
        if let Some(ports) = &self.ports
            && ports.is_over()
        {
            stop_all(inboxes);
        }
        Ok(())
    }

    /// Closes the users' port, and has each exchange be the last one of its connection.
    fn begin_drain<R: Wait + Dial + Clock>(&mut self, rt: &R, inboxes: &[Inbox])
        ensures { Does K.Work self.old self.new (Drained ∷ []) }
    {
        self.draining = true;
        if let Some(ports) = &mut self.ports {
            ports.close(rt, inboxes.len(), &mut Inboxes::new(inboxes));
        }
        self.work.drain();
    }
}
