//! What is answered and what is seen of a board, as lines of text.
use i80_base::ports::PortOperation;
use i80_exec::registers::Interrupts;
use lab_core::answer::{Answer, End, SliceOutcome, Stop};
use lab_core::fault::EventFault;
use lab_core::lab::Lab;
use lab_shown::shown::{Breakpoint, CodeLine, Shown, SourceBreakpoints, StackFrame, Variable};
use std::alloc::AllocError;

fn put_frame(told: &mut String, frame: &StackFrame) -> Result<(), AllocError> {
    let path = match &frame.source {
        Some(path) => path.as_str(),
        None => "none",
    };
    write!(
        told,
        "{} {} {} {path} {:04X}\n",
        frame.id,
        frame.name.as_str(),
        frame.line,
        frame.address
    )
}

fn put_frames(told: &mut String, frames: &[StackFrame], total: u32) -> Result<(), AllocError> {
    for frame in frames {
        put_frame(told, frame)?;
    }
    write!(told, "of {total}\n")
}

fn put_variables(told: &mut String, variables: &[Variable]) -> Result<(), AllocError> {
    for variable in variables {
        write!(
            told,
            "{}={} ",
            variable.name.as_str(),
            variable.value.as_str()
        )?;
    }
    told.push('\n')
}

fn put_code_line(told: &mut String, line: &CodeLine) -> Result<(), AllocError> {
    write!(told, "{:04X}", line.address)?;
    for byte in line.bytes.as_slice() {
        write!(told, " {byte:02X}")?;
    }
    write!(told, " {}\n", line.text.as_str())
}

fn put_code(told: &mut String, lines: &[CodeLine]) -> Result<(), AllocError> {
    for line in lines {
        put_code_line(told, line)?;
    }
    Ok(())
}

fn put_lists(told: &mut String, lists: &[SourceBreakpoints]) -> Result<(), AllocError> {
    for list in lists {
        write!(told, "{} {:?}\n", list.path.as_str(), list.lines.as_slice())?;
    }
    Ok(())
}

/// A line for each thing that is shown.
pub fn put_shown(told: &mut String, shown: &Shown) -> Result<(), AllocError> {
    match shown {
        Shown::Frames { frames, total } => put_frames(told, frames.as_slice(), *total),
        Shown::Scopes => told.push_str("scopes\n"),
        Shown::Variables(variables) => put_variables(told, variables.as_slice()),
        Shown::Code(lines) => put_code(told, lines.as_slice()),
        Shown::Source(text) => write!(told, "{}\n", text.as_str()),
        Shown::Info {
            is_attached,
            is_stopped,
            breakpoints,
        } => {
            write!(told, "attached {is_attached} stopped {is_stopped}\n")?;
            put_lists(told, breakpoints.as_slice())
        }
    }
}

fn put_lines(told: &mut String, lines: &[Breakpoint]) -> Result<(), AllocError> {
    for line in lines {
        write!(told, "line {} {}\n", line.line, line.is_verified)?;
    }
    Ok(())
}

fn put_outcome(told: &mut String, outcome: SliceOutcome) -> Result<(), AllocError> {
    let word = match outcome {
        SliceOutcome::More => "More",
        SliceOutcome::Waiting => "Waiting",
        SliceOutcome::Stop(Stop::Breakpoint) => "Stop(Breakpoint)",
        SliceOutcome::Stop(Stop::Step) => "Stop(Step)",
        SliceOutcome::End(End::Halted) => "End(Halted)",
        SliceOutcome::End(End::Undefined { opcode, pc }) => {
            return write!(told, "End(Undefined {{ opcode: {opcode}, pc: {pc} }})");
        }
    };
    told.push_str(word)
}

fn put_traffic(told: &mut String, traffic: &[PortOperation]) -> Result<(), AllocError> {
    for operation in traffic {
        let (way, port, byte) = match operation {
            PortOperation::In { port, byte } => ("In", *port, *byte),
            PortOperation::Out { port, byte } => ("Out", *port, *byte),
        };
        write!(told, " {way} {{ port: {port}, byte: {byte} }}")?;
    }
    told.push('\n')
}

// How many steps a slice made, how it ended and its traffic; what a view shows; or else the answer as it is.
fn put_answer(told: &mut String, answer: &Answer) -> Result<(), AllocError> {
    match answer {
        Answer::Loaded { start } => write!(told, "Loaded {{ start: {start:?} }}\n"),
        Answer::Dumped => told.push_str("Dumped\n"),
        Answer::Started => told.push_str("Started\n"),
        Answer::Sliced {
            executed,
            traffic,
            outcome,
        } => {
            write!(told, "{executed} ")?;
            put_outcome(told, *outcome)?;
            put_traffic(told, traffic.as_slice())
        }
        Answer::Accepted => told.push_str("Accepted\n"),
        Answer::Poked(text) => write!(told, "Poked {}\n", text.as_str()),
        Answer::Interrupted => told.push_str("Interrupted\n"),
        Answer::Reset => told.push_str("Reset\n"),
        Answer::BoardSet => told.push_str("BoardSet\n"),
        Answer::Breakpoints(lines) => put_lines(told, lines.as_slice()),
        Answer::Shown(shown) => put_shown(told, shown),
    }
}

/// Adds what an event answered, or why it was refused.
pub fn put_told(told: &mut String, answer: &Result<Answer, EventFault>) -> Result<(), AllocError> {
    match answer {
        Ok(answer) => put_answer(told, answer),
        Err(refused) => write!(told, "refused: {refused}\n"),
    }
}

/// PC, SP, the interrupt state, and how many frames are live.
pub(crate) fn put_registers(told: &mut String, lab: &Lab) -> Result<(), AllocError> {
    let regs = lab.regs();
    let interrupts = match regs.interrupts {
        Interrupts::Off => "Off",
        Interrupts::Arming => "Arming",
        Interrupts::On => "On",
    };
    let live = lab.frames().len();
    write!(
        told,
        "{:04X} {:04X} {interrupts} {live}\n",
        regs.pc, regs.sp
    )
}

/// The innermost frame.
pub(crate) fn put_newest(told: &mut String, lab: &Lab) -> Result<(), AllocError> {
    match lab.frames().newest() {
        Some(frame) => write!(
            told,
            "{:04X} {:04X} {:04X}\n",
            frame.slot, frame.target, frame.site
        ),
        None => Ok(()),
    }
}

/// A byte and its origin.
pub(crate) fn put_byte(told: &mut String, lab: &Lab, address: u16) -> Result<(), AllocError> {
    let byte = lab.peek(address);
    match lab.origin_at(address) {
        Some(origin) => write!(
            told,
            "{byte:02X} {} {} {}\n",
            origin.source, origin.line, origin.is_first
        ),
        None => write!(told, "{byte:02X}\n"),
    }
}
