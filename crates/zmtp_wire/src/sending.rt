//! Writing to a peer.
ghost use Rattle.std.specs.Prelude.{◌≡◌, true, OnOk, IfErr};
ghost use Rattle.base_streams.specs.Told.{Took, TookPrefix};
ghost use Rattle.zmtp_wire.specs.declared.peer_fault.PeerFault.TheVariants.{WriteFailed};

use crate::peer_fault::PeerFault;
use base_streams::ports::Outlet;
use base_streams::writing::write_all;

/// Writes all the bytes, or a prefix of them if a write fails.
pub(crate) fn send<W: Outlet>(to: &mut W, bytes: &[u8]) -> Result<(), PeerFault>
    ensures front { TookPrefix (W.state to.old) (W.state to.new) bytes.now }
    ensures all { OnOk result (Took (W.state to.old) (W.state to.new) bytes.now) }
    ensures good { OnOk result ((W.state to.new).failed ≡ (W.state to.old).failed) }
    ensures err { IfErr result (λ fault. (fault ≡ WriteFailed) × ((W.state to.new).failed ≡ true)) }
{
    match write_all(to, bytes) {
        Ok(()) => Ok(()),
        Err(_) => Err(PeerFault::WriteFailed),
    }
}
