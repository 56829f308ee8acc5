//! The subcommand `term`.
ghost use Rattle.std.specs.Prelude.{◌≡◌, ◌≤◌, false, IfOk};

use crate::file::read_file;
use crate::line::say;
use base_streams::std_io::{StdInlet, StdOutlet};
use cli_io::reading::read_all;
use cli_io::status::Status;
use jup_wire::connection_file::ConnectionFile;
use kern_serve::fault::ServerFault;
use kern_serve::system::new_session;
use kern_waits::clock::unix_seconds;
use lab_term::cell::{Cell, CellEnd};
use lab_term::fault::TermFault;
use lab_term::run_cell::{Connection, run_cell};
use std::io::Write;
use std::net::{Net, TcpListener, TcpStream};
use std::random::RandomSource;
use std::rt::{Clock, Files};
use std::{io, str};

// What is printed if there is no connection to a kernel that has the file's key.
const NO_KERNEL: &str = "no kernel";

type Socket = Connection<StdInlet<TcpStream>, StdOutlet<TcpStream>>;

// Connects to a port of the kernel.
fn connect<R: Net<Listener = TcpListener, Stream = TcpStream>>(
    rt: &R,
    file: &ConnectionFile,
    port: u16,
) -> io::Result<Socket>
    ensures { IfOk result (λ socket.
        (socket.from.ended ≡ false) × (socket.from.failed ≡ false) × (socket.to.failed ≡ false)) }
{
    let stream = TcpStream::connect(rt, (file.ip, port))?;
    stream.set_nodelay(true)?;
    let other = stream.try_clone()?;
    Ok(Connection {
        from: StdInlet::new(stream),
        to: StdOutlet::new(other),
    })
}

// Connects to shell and to iopub.
fn connect_both<R: Net<Listener = TcpListener, Stream = TcpStream>>(
    rt: &R,
    file: &ConnectionFile,
) -> io::Result<(Socket, Socket)>
    ensures { IfOk result (λ sockets.
        (sockets.0.from.ended ≡ false) × (sockets.0.from.failed ≡ false) × (sockets.0.to.failed ≡ false)
        × (sockets.1.from.ended ≡ false) × (sockets.1.from.failed ≡ false) × (sockets.1.to.failed ≡ false)) }
{
    let shell = connect(rt, file, file.shell_port)?;
    match connect(rt, file, file.iopub_port) {
        Ok(iopub) => Ok((shell, iopub)),
        Err(error) => {
            drop(shell);
            Err(error)
        }
    }
}

// Prints how the cell ended, where that needs a line, and returns the status.
fn tell_end(rt: &impl Print, ran: Result<CellEnd, TermFault>) -> Status {
    match ran {
        Ok(CellEnd::Success) => Status::Success,
        Ok(CellEnd::Error) => Status::Refused,
        Err(TermFault::OutOfMemory) => Status::OutOfMemory,
        Err(TermFault::Ended | TermFault::ReadFailed | TermFault::WriteFailed) => Status::Failed,
        // Somebody else answers there, or a kernel with another key.
        Err(TermFault::Wire(_)) => say(rt, NO_KERNEL, Status::Failed),
    }
}

// Runs the cell over two connections, and prints its output.
fn run_over<R: Print + AllocGlobal>(
    rt: &R,
    shell: &mut Socket,
    iopub: &mut Socket,
    cell: &Cell<'_>,
) -> Status
    requires unix_seconds { cell.now.unix_seconds ≤ 4102444800 }
    requires shell { (shell.old.from.ended ≡ false) × (shell.old.from.failed ≡ false)
        × (shell.old.to.failed ≡ false) }
    requires iopub { (iopub.old.from.ended ≡ false) × (iopub.old.from.failed ≡ false)
        × (iopub.old.to.failed ≡ false) }
{
    let mut output = StdOutlet::new(io::writer(rt));
    let ran = run_cell(rt.alloc(), shell, iopub, &mut output, cell);
    if output.into_inner().flush().is_err() {
        return Status::Failed;
    }
    tell_end(rt, ran)
}

fn run_named<R: Net<Listener = TcpListener, Stream = TcpStream> + Print + AllocGlobal + Clock>(
    rt: &R,
    file: &ConnectionFile,
    code: &str,
    session: &str,
) -> Status {
    match connect_both(rt, file) {
        Ok((mut shell, mut iopub)) => {
            let cell = Cell {
                code,
                key: file.key.as_str().as_bytes(),
                session,
                unix_seconds: unix_seconds(rt),
            };
            let status = run_over(rt, &mut shell, &mut iopub, &cell);
            drop(shell);
            drop(iopub);
            status
        }
        Err(error) => {
            drop(error);
            say(rt, NO_KERNEL, Status::Failed)
        }
    }
}

// Runs the cell on a kernel, and prints its output.
fn run<
    R: Net<Listener = TcpListener, Stream = TcpStream> + Print + AllocGlobal + RandomSource + Clock,
>(rt: &R, file: &ConnectionFile, code: &str) -> Status {
    match new_session(rt.alloc(), rt) {
        Ok(session) => run_named(rt, file, code, session.as_str()),
        Err(ServerFault::OutOfMemory) => Status::OutOfMemory,
        Err(_) => Status::Failed,
    }
}

// Runs the cell on standard input.
fn run_input<
    R: Input
        + Print
        + AllocGlobal
        + Net<Listener = TcpListener, Stream = TcpStream>
        + RandomSource
        + Clock,
>(rt: &R, file: &ConnectionFile) -> Status {
    let input = match read_all(rt.alloc(), &mut StdInlet::new(rt.reader())) {
        Ok(input) => input,
        Err(status) => return status,
    };
    match str::from_utf8(&input) {
        Ok(code) => run(rt, file, code),
        Err(_) => say(rt, "bad text", Status::Refused),
    }
}

/// Runs the cell on standard input on the kernel of a connection file.
pub fn run_term<
    R: Files
        + Input
        + Print
        + AllocGlobal
        + Net<Listener = TcpListener, Stream = TcpStream>
        + RandomSource
        + Clock,
>(rt: &R, file: &str) -> Status {
    match read_file(rt, file) {
        Ok(file) => {
            let status = run_input(rt, &file);
            drop(file);
            status
        }
        Err(status) => status,
    }
}
