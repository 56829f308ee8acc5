//! How serving ended.
ghost use Rattle.std.specs.Prelude.{◌≡◌};
ghost use Rattle.lab80_dap.specs.Ends.{status_of};

use cli_io::status::Status;
use dap_debugger::conversation::ConversationEnd;
use dap_debugger::incoming::StreamEnd;
use dap_serve::server::ServerEnd;
use dap_stream::fault::StreamFault;

// Writes to standard error what is wrong with the stream.
fn tell_fault(rt: &impl Eprint, fault: StreamFault) -> Status
    ensures { result ≡ Status.Refused }
{
    let _ = eprintln!(rt; "broken stream: {fault}");
    Status::Refused
}

/// The exit status for this end. Standard error says what is wrong with a broken stream.
pub fn tell_end(rt: &impl Eprint, end: ServerEnd) -> Status
    ensures { result ≡ status_of end }
{
    let end = match end {
        ServerEnd::Conversation(end) => end,
        // the system gives no reason; most likely there is no memory for the thread's stack
        ServerEnd::NoThread => return Status::OutOfMemory,
    };
    match end {
        ConversationEnd::Disconnected | ConversationEnd::Stream(StreamEnd::Ended) => {
            Status::Success
        }
        ConversationEnd::Stream(StreamEnd::Broken(fault)) => tell_fault(rt, fault),
        ConversationEnd::Stream(StreamEnd::OutOfMemory) | ConversationEnd::OutOfMemory => {
            Status::OutOfMemory
        }
        ConversationEnd::Stream(StreamEnd::ReadFailed) | ConversationEnd::WriteFailed => {
            Status::Failed
        }
    }
}
