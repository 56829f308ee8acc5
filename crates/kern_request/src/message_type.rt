//! The types of requests.
ghost use Rattle.std.specs.Prelude.{◌≡◌};
ghost use Rattle.kern_request.specs.MessageTypes.{type_text, types_on};

use jup_wire::channel::Channel;

/// The message types that a kernel answers (Jupyter messaging 5.4, "Messages on the shell channel",
/// "Messages on the control channel" and "Messages on the stdin channel").
#[derive(Clone, Copy)]
pub enum MessageType {
    KernelInfo,
    Execute,
    IsComplete,
    Complete,
    Inspect,
    History,
    CommInfo,
    CommOpen,
    Shutdown,
    Interrupt,
    Debug,
    InputReply,
}

const ON_SHELL: [MessageType; 10] = [
    MessageType::KernelInfo,
    MessageType::Execute,
    MessageType::IsComplete,
    MessageType::Complete,
    MessageType::Inspect,
    MessageType::History,
    MessageType::CommInfo,
    MessageType::CommOpen,
    MessageType::Shutdown,
    MessageType::Interrupt,
];

const ON_CONTROL: [MessageType; 4] = [
    MessageType::KernelInfo,
    MessageType::Shutdown,
    MessageType::Interrupt,
    MessageType::Debug,
];

const ON_STDIN: [MessageType; 1] = [MessageType::InputReply];

const ON_IOPUB: [MessageType; 0] = [];

impl MessageType {
    ghost use Rattle.kern_request.specs.MessageTypes.{type_named};

    /// The text that stands at `msg_type` in a header.
    pub fn as_str(self) -> &'static str
        ensures { result.now ≡ type_text self }
    {
        match self {
            MessageType::KernelInfo => "kernel_info_request",
            MessageType::Execute => "execute_request",
            MessageType::IsComplete => "is_complete_request",
            MessageType::Complete => "complete_request",
            MessageType::Inspect => "inspect_request",
            MessageType::History => "history_request",
            MessageType::CommInfo => "comm_info_request",
            MessageType::CommOpen => "comm_open",
            MessageType::Shutdown => "shutdown_request",
            MessageType::Interrupt => "interrupt_request",
            MessageType::Debug => "debug_request",
            MessageType::InputReply => "input_reply",
        }
    }

    /// The type with this text, if the kernel answers it on this channel.
    pub fn from_name(channel: Channel, text: &str) -> Option<MessageType>
        ensures { result ≡ type_named channel text.now }
    {
        types_on(channel)
            .iter()
            .copied()
            .find(|message_type| message_type.as_str() == text)
    }
}

// The types that the kernel answers on a channel.
fn types_on(channel: Channel) -> &'static [MessageType]
    ensures { result.now ≡ types_on channel }
{
    match channel {
        Channel::Shell => &ON_SHELL,
        Channel::Control => &ON_CONTROL,
        Channel::Stdin => &ON_STDIN,
        Channel::Iopub => &ON_IOPUB,
    }
}
