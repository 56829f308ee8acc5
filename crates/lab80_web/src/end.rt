//! How serving ended.
ghost use Rattle.std.specs.Prelude.{◌≡◌};
ghost use Rattle.lab80_web.specs.Ends.{status_of};

use cli_io::status::Status;
use zmtp_wire::peer_fault::PeerFault;

fn status_of(end: PeerFault) -> Status
    ensures { result ≡ status_of end }
{
    match end {
        PeerFault::PeerEnded => Status::Success,
        PeerFault::Wire(_) => Status::Refused,
        PeerFault::OutOfMemory => Status::OutOfMemory,
        PeerFault::ReadFailed | PeerFault::WriteFailed => Status::Failed,
    }
}

/// The exit status for this end. Unless the input ended, standard error says why.
pub fn tell_end(rt: &impl Eprint, end: PeerFault) -> Status
    ensures { result ≡ status_of end }
{
    match end {
        PeerFault::PeerEnded => {}
        PeerFault::Wire(cause) => {
            let _ = eprintln!(rt; "broken stream: {cause}");
        }
        PeerFault::OutOfMemory | PeerFault::ReadFailed | PeerFault::WriteFailed => {
            let _ = eprintln!(rt; "{end}");
        }
    }
    status_of(end)
}
