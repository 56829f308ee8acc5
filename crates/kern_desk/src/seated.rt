//! A kernel with the seats of its entries.
ghost use Rattle.std.specs.Prelude.{◌≡◌, [], option_map, slice_get};
ghost use Rattle.kern_desk.specs.Seats.{calls_of};

use kern_core::call::{Call, Reply};
use kern_core::fault::KernelFault;
use kern_core::kernel::{Kernel, is_entry};
use lab_turn::journaled::Journaled;
use lab_turn::turnstile::Turnstile;
use std::alloc::Global;
use std::marker::Model;

/// A kernel, and the seat that made each of its entries.
#[derive(Drop)]
pub struct Seated {
    kernel: Kernel,
    seats: Vec<u32>,
}

impl Model for Seated {
    ghost use Rattle.std.specs.Prelude.{◌≡◌, length};
    ghost use Rattle.std.specs.List.{zip};
    ghost use Rattle.kern_desk.specs.Seats.{SeatedState};

    ghost Value = { SeatedState };

    ghost view = { λ s. record {
      entries = zip s.seats.items s.kernel.entries;
      limit = s.kernel.limit;
    } };

    ghost invariant = { λ s. length s.seats.items ≡ length s.kernel.entries };
}

/// A kernel that passes take turns to call.
pub type Desk = Turnstile<Seated>;

/// The right to make calls at a desk for a seat.
pub type Pass = lab_turn::pass::Pass<Seated>;

fn seat_at(seats: &[u32], place: usize) -> Option<u32>
    ensures { result ≡ slice_get seats.now place }
{
    seats.get(place).copied()
}

impl Seated {
    /// A kernel on which no call was made yet. Allocates nothing.
    pub fn new(alloc: Global, kernel: Kernel) -> Seated
        requires { kernel.entries ≡ [] }
        ensures { result ≡ record { entries = []; limit = kernel.limit } }
    {
        Seated {
            kernel,
            seats: Vec::new(alloc),
        }
    }

    /// The entry at an index, from 0: the seat that made the call, and the call.
    pub fn entry(&self, place: usize) -> Option<(u32, &Call)>
        ensures { option_map (λ entry. (entry.0, entry.1.now)) result
            ≡ slice_get self.now.entries place }
    {
        let seat = seat_at(self.seats.as_slice(), place)?;
        let call = self.kernel.entry(place)?;
        Some((seat, call))
    }

    /// The kernel, without its seats.
    pub fn into_kernel(self) -> Kernel
        ensures { result ≡ record { entries = calls_of self.entries; limit = self.limit } }
    {
        let Seated { kernel, .. } = self;
        kernel
    }
}

impl Journaled for Seated {
    type Call = Call;

    type Reply = Result<Reply, KernelFault>;

    ghost use Rattle.kern_core.specs.Kernels.{is_entry, is_full};
    ghost use Rattle.kern_desk.specs.Seats.{seated_answer};

    ghost entries = { λ s. s.entries };

    ghost limit = { λ s. s.limit };

    ghost answer = { seated_answer };

    ghost is_entry = { is_entry };

    ghost is_full = { is_full };

    /// Makes the call on the kernel.
    fn act(&mut self, seat: u32, call: Call) -> Result<Reply, KernelFault> {
        if self.seats.reserve(1).is_err() {
            return Err(KernelFault::OutOfMemory);
        }
        let answer = self.kernel.act(call);
        if is_entry(&answer) {
            self.seats.push_reserved(seat);
            return answer;
        }
        answer
    }
}
