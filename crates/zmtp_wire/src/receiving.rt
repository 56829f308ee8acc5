//! Reading from a peer.
ghost use Rattle.std.specs.Prelude.{◌<◌, ◌≤◌, [], take, length, IfOk, IfErr, OnOk, MatchResult};
ghost use Rattle.base_streams.specs.States.{IsReadable};
ghost use Rattle.base_streams.specs.Told.{Gave, WasRead};
ghost use Rattle.zmtp_wire.specs.Ends.{Stops};

use crate::peer_fault::PeerFault;
use base_streams::ports::Inlet;

/// The most bytes that a read returns.
pub(crate) const PIECE_SIZE: usize = 512;

/// Reads a piece, which isn't empty, into the front of the buffer, and returns its length.
pub(crate) fn read_piece<I: Inlet>(
    from: &mut I,
    buffer: &mut [u8; PIECE_SIZE],
) -> Result<usize, PeerFault>
    requires { IsReadable (I.state from.old) }
    ensures count { IfOk result (λ n. (0 < n) × (n ≤ length buffer.new)) }
    ensures given { MatchResult result
        (λ n. Gave (I.state from.old) (I.state from.new) (take n buffer.new))
        (λ _. Gave (I.state from.old) (I.state from.new) []) }
    ensures reads { WasRead (I.state from.old) (I.state from.new) 1 }
    ensures good { OnOk result (IsReadable (I.state from.new)) }
    ensures stops { IfErr result (λ fault. Stops fault (I.state from.new)) }
{
    match from.read(buffer) {
        Ok(0) => Err(PeerFault::PeerEnded),
        Ok(count) => Ok(count),
        Err(_) => Err(PeerFault::ReadFailed),
    }
}
