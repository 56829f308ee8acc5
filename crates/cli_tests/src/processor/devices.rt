//! The devices over a short past.
use i80_base::ports::{PortOperation, Ports};
use i80_devs::devices::{Devices, PressFault};
use std::alloc::{AllocError, Global};

/// What a table does with the devices, or finds in them.
#[derive(Clone, Copy)]
enum Act {
    /// Types bytes.
    Typed(&'static [u8]),
    /// Sets the switches.
    Switches(u8),
    /// Takes in from a port, which gives this byte.
    In(u8, u8),
    /// Puts a byte out on a port.
    Out(u8, u8),
    /// Presses a button, which is answered so.
    Press(u8, Result<(), PressFault>),
    TakeRequest,
    Clear,
    /// Finds how many typed bytes wait.
    Waiting(usize),
    /// Finds the switches and the lamps.
    Lights(u8, u8),
    /// Finds the latched request.
    Request(Option<u8>),
    /// Takes the traffic, which is this.
    Traffic(&'static [PortOperation]),
}

// Whether a port gives this byte.
fn is_input(devices: &mut Devices, port: u8, byte: u8) -> Result<bool, AllocError> {
    devices.reserve_out(1)?;
    Ok(devices.input(port) == byte)
}

// Does one thing of a table. Whether it finds there what the table tells.
fn perform(devices: &mut Devices, act: Act) -> Result<bool, AllocError> {
    match act {
        Act::Typed(bytes) => devices.type_bytes(bytes)?,
        Act::Switches(byte) => devices.set_switches(byte),
        Act::In(port, byte) => return is_input(devices, port, byte),
        Act::Out(port, byte) => {
            devices.reserve_out(1)?;
            devices.output(port, byte);
        }
        Act::TakeRequest => devices.take_request(),
        Act::Clear => devices.clear(),
        _ => return Ok(finds(devices, act)),
    }
    Ok(true)
}

fn finds(devices: &mut Devices, act: Act) -> bool {
    match act {
        Act::Press(number, answer) => devices.press(number) == answer,
        Act::Waiting(count) => devices.bytes_waiting() == count,
        Act::Lights(switches, lamps) => {
            devices.switches() == switches && devices.lamps() == lamps
        }
        Act::Request(request) => devices.request() == request,
        Act::Traffic(operations) => devices.take_out().as_slice() == operations,
        _ => true,
    }
}

// The first row of a table that finds something else.
fn first_wrong(devices: &mut Devices, acts: &[Act]) -> Result<Option<usize>, AllocError> {
    for (row, act) in acts.iter().enumerate() {
        if !perform(devices, *act)? {
            return Ok(Some(row));
        }
    }
    Ok(None)
}

fn first_wrong_of_new(alloc: Global, acts: &[Act]) -> Result<Option<usize>, AllocError> {
    let mut devices = Devices::new(alloc);
    let wrong = first_wrong(&mut devices, acts);
    drop(devices);
    wrong
}

// Input is told, taken, and kept in the traffic.
const INPUT: [Act; 10] = [
    Act::Typed(&[0x41]),
    Act::Waiting(1),
    Act::In(0, 0x03),
    Act::In(1, 0x41),
    Act::In(0, 0x02),
    Act::In(1, 0x00),
    Act::Waiting(0),
    Act::Traffic(&[
        PortOperation::In {
            port: 0,
            byte: 0x03,
        },
        PortOperation::In {
            port: 1,
            byte: 0x41,
        },
        PortOperation::In {
            port: 0,
            byte: 0x02,
        },
        PortOperation::In {
            port: 1,
            byte: 0x00,
        },
    ]),
    Act::Traffic(&[]),
    Act::In(9, 0xff),
];

// Typed bytes come in order.
const TYPED: [Act; 8] = [
    Act::Typed(b"ab"),
    Act::Typed(b""),
    Act::Typed(b"c"),
    Act::In(1, b'a'),
    Act::In(1, b'b'),
    Act::In(0, 3),
    Act::In(1, b'c'),
    Act::In(1, 0),
];

// Switches and lamps are what was last set.
const LIGHTS: [Act; 9] = [
    Act::Lights(0, 0),
    Act::Switches(0x5a),
    Act::In(2, 0x5a),
    Act::Out(2, 0x0f),
    Act::Out(1, 0x41),
    Act::Out(3, 0x00),
    Act::Out(7, 0xff),
    Act::Lights(0x5a, 0x0f),
    Act::Traffic(&[
        PortOperation::In {
            port: 2,
            byte: 0x5a,
        },
        PortOperation::Out {
            port: 2,
            byte: 0x0f,
        },
        PortOperation::Out {
            port: 1,
            byte: 0x41,
        },
        PortOperation::Out {
            port: 3,
            byte: 0x00,
        },
        PortOperation::Out {
            port: 7,
            byte: 0xff,
        },
    ]),
];

// One request is latched at most.
const REQUESTS: [Act; 11] = [
    Act::Request(None),
    Act::Press(8, Err(PressFault::Vector)),
    Act::Press(7, Ok(())),
    Act::Press(3, Err(PressFault::Latched)),
    Act::Press(8, Err(PressFault::Vector)),
    Act::Request(Some(7)),
    Act::TakeRequest,
    Act::Request(None),
    Act::TakeRequest,
    Act::Press(0, Ok(())),
    Act::Request(Some(0)),
];

// Cleared devices are new ones.
const CLEARED: [Act; 11] = [
    Act::Typed(b"ab"),
    Act::Switches(0x5a),
    Act::Press(7, Ok(())),
    Act::Out(2, 0x0f),
    Act::Clear,
    Act::Lights(0, 0),
    Act::Waiting(0),
    Act::Request(None),
    Act::Traffic(&[]),
    Act::In(0, 2),
    Act::In(1, 0),
];

/// What each table is about.
const TABLES: [(&str, &[Act]); 5] = [
    ("input", &INPUT),
    ("typed bytes", &TYPED),
    ("switches and lamps", &LIGHTS),
    ("requests", &REQUESTS),
    ("cleared devices", &CLEARED),
];

// New devices go through each table.
#[test]
fn devices_do_as_the_tables_tell(rt: HostRuntime) {
    for (about, acts) in TABLES {
        match first_wrong_of_new(rt.alloc(), acts) {
            Ok(None) => {}
            Ok(Some(row)) => panic!(rt; "{about}, row {row}"),
            Err(AllocError) => panic!(rt; "out of memory"),
        }
    }
}
