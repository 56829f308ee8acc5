//! Which of a reader's calls may give the worker something to do.
ghost use Rattle.std.specs.Prelude.{◌≡◌, false, not};
ghost use Rattle.kern_core.specs.States.{KernelState};
ghost use Rattle.kern_net.specs.Wakes.{steers, spared_by, concerns_worker, GivesNone};

use dap_talk::command::DapCommand;
use kern_core::call::Call;
use kern_request::request::RequestBody;

// Whether a command leaves the board as it is.
fn is_look(command: &DapCommand) -> bool
    ensures { result ≡ not (steers command.now) }
{
    match command {
        DapCommand::Initialize
        | DapCommand::ConfigurationDone
        | DapCommand::Threads
        | DapCommand::StackTrace { .. }
        | DapCommand::Scopes { .. }
        | DapCommand::Variables { .. }
        | DapCommand::Disassemble { .. }
        | DapCommand::Source { .. }
        | DapCommand::DebugInfo
        | DapCommand::InspectVariables => true,
        DapCommand::Attach
        | DapCommand::Disconnect
        | DapCommand::SetBreakpoints { .. }
        | DapCommand::SetVariable { .. }
        | DapCommand::Continue
        | DapCommand::Step { .. }
        | DapCommand::Pause
        | DapCommand::DumpCell { .. }
        | DapCommand::BoardSwitches { .. }
        | DapCommand::BoardPress { .. }
        | DapCommand::BoardType { .. }
        | DapCommand::BoardReset
        | DapCommand::BoardAliases { .. } => false,
    }
}

// Whether a request may give the worker something to do.
fn asks_for_work(body: &RequestBody) -> bool
    ensures { result ≡ not (spared_by body.now) }
{
    match body {
        RequestBody::Execute(_)
        | RequestBody::Shutdown { .. }
        | RequestBody::Interrupt
        | RequestBody::InputReply { .. } => true,
        RequestBody::Debug(request) => !is_look(&request.command),
        RequestBody::KernelInfo
        | RequestBody::IsComplete { .. }
        | RequestBody::Complete { .. }
        | RequestBody::Inspect
        | RequestBody::History
        | RequestBody::CommInfo
        | RequestBody::CommOpen { .. }
        | RequestBody::BadDebug(_)
        | RequestBody::BadContent(_)
        | RequestBody::Unknown => false,
    }
}

/// Whether a call may give the worker something to do. A reader's call that doesn't posts only to its own
/// connection and on iopub.
#[tactic(auto, using(crate::proofs::WakeLemmas::gives_none))]
pub(crate) fn concerns_worker(call: &Call) -> bool
    ensures means { result ≡ concerns_worker call.now }
    ensures law { result ≡ false → (s : KernelState) → GivesNone call.now s }
{
    match call {
        Call::Subscribe { .. } => false,
        Call::Arrive { arrival, .. } => asks_for_work(&arrival.get().request.body),
        Call::Join { .. } | Call::Leave { .. } | Call::Slice { .. } | Call::Fetch { .. } => true,
    }
}
