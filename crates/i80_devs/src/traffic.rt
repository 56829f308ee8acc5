//! What went through the ports.
use base_text::sequence::Sequence;
use i80_base::ports::PortOperation;

/// Port operations, in their order.
pub type Traffic = Sequence<PortOperation>;
