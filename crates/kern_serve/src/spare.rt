//! The passes of the slots whose threads haven't started.
ghost use Rattle.std.specs.Prelude.{◌≡◌, Some, All, IfSome};
ghost use Rattle.std.specs.Arc.{arc_value};
ghost use Rattle.kern_host.specs.Guests.{AreOf};

use crate::connection::Shared;
use kern_desk::seated::Pass;
use kern_host::guest::Passes;
use std::sync::Arc;

/// Passes that no thread has yet, with the server for whose desk they are.
#[derive(Drop)]
pub struct Spare {
    shared: Arc<Shared>,
    passes: Vec<Pass>,
    ghost own: { All (λ p. p.turnstile ≡ (arc_value shared).desk) passes.items },
}

impl Spare {
    /// The passes of a server's desk.
    pub fn new(shared: Arc<Shared>, passes: Vec<Pass>) -> Spare
        requires { All (λ p. p.turnstile ≡ (arc_value shared).desk) passes.items }
    {
        Spare { shared, passes }
    }

    /// Takes the passes of one slot, with the server. None if there are no more.
    pub fn take(&mut self) -> Option<(Arc<Shared>, Passes)>
        ensures { IfSome result (λ taken. AreOf (arc_value taken.0).desk (Some taken.1)) }
    {
        let Ok(shared) = Arc::try_clone(&self.shared) else {
            return None;
        };
        match (self.passes.pop(), self.passes.pop()) {
            (Some(reading), Some(writing)) => Some((shared, Passes { reading, writing })),
            (reading, writing) => {
                drop(reading);
                drop(writing);
                drop(shared);
                None
            }
        }
    }
}
