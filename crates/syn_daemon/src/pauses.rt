//! Where the workers of a server may be made to wait.
use crate::bell::Bell;
use std::sync::Wait;
use syn_serve::{Pause, Point};

/// Gives each worker of a server its pause.
pub trait Pauses {
    /// It goes to the worker's thread.
    type Pause: Pause + Send + Drop;

    /// The pause of the worker of this connection. Connections count from 1.
    fn pause(&self, connection: u64) -> Self::Pause;
}

/// No worker waits.
#[derive(Clone, Copy, Debug, Default, PartialEq, Eq)]
pub struct NoPauses;

/// Its worker does not wait.
#[derive(Clone, Copy, Debug, Default, PartialEq, Eq)]
pub struct NoPause;

impl Pause for NoPause {
    fn at(&mut self, _point: Point) {}
}

impl Pauses for NoPauses {
    type Pause = NoPause;

    fn pause(&self, _connection: u64) -> NoPause {
        NoPause
    }
}

/// A worker's pause that rings for the checkpointer after each answer.
pub(crate) struct Ringing<'a, H: Wait, G> {
    rt: &'a H,
    bell: &'a Bell,
    pause: G,
}

impl<'a, H: Wait, G> Ringing<'a, H, G> {
    pub(crate) fn new(rt: &'a H, bell: &'a Bell, pause: G) -> Ringing<'a, H, G> {
        Ringing { rt, bell, pause }
    }
}

impl<H: Wait, G: Drop> Drop for Ringing<'_, H, G> {
    fn drop(self) {
        let Ringing {
            rt: _,
            bell: _,
            pause: _,
        } = self;
    }
}

impl<H: Wait, G: Pause> Pause for Ringing<'_, H, G> {
    fn at(&mut self, point: Point) {
        self.pause.at(point);
        if let Point::After(_) = point {
            self.bell.ring(self.rt);
        }
    }
}
