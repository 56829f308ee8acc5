//! Sessions with a kernel, a row a call.

use jup_wire::channel::Channel;
use kern_test_kit::actions::Action;

/// A first session: what the kernel is, a cell that halts, and the end.
pub const FIRST: &str = r#"join shell
join iopub
subscribe 2
send 1 shell kernel_info_request {}
fetch 2 1
fetch 1 1
send 1 shell execute_request {"code":"HLT\nEND 0"}
slice
slice
slice
slice
send 1 shell shutdown_request {}
slice
fetch 2 5
fetch 1 5"#;

/// Each request, on each channel that has it: cells, what a frontend asks, and a debugger.
pub const REQUESTS: &str = r#"join shell anna
join iopub anna
join control
join stdin anna
join shell anna
subscribe 2
subscribe 1
send 1 shell kernel_info_request {}
send 1 shell is_complete_request {"code":"IF 1"}
send 1 shell complete_request {"code":"MVI A","cursor_pos":5}
send 1 shell inspect_request {"code":"HLT","cursor_pos":3,"detail_level":0}
send 1 shell history_request {"hist_access_type":"tail","n":10}
send 1 shell comm_info_request {}
send 1 shell comm_open {"comm_id":"7","data":{},"target_name":"x"}
send 1 shell list_request {}
send 1 shell execute_request {"code":7}
send 3 control kernel_info_request {}
send 2 iopub kernel_info_request {}
send 1 shell execute_request {"code":"MVI A,1\nJMP NOWHERE\nEND 0"}
slice
send 1 shell execute_request {"code":"MVI A,48H\nOUT 1\nHLT\nEND 0","silent":true}
slice
slice
slice
send 1 shell execute_request {"code":"OUT 3\nWAIT: IN 0\nANI 1\nJZ WAIT\nIN 1\nOUT 1\nHLT\nEND 0"}
slice
slice
slice
send 4 stdin input_reply {"value":"A"}
send 4 stdin input_reply {"value":1}
slice
slice
send 3 control debug_request {"type":"request","seq":1,"command":"initialize"}
send 3 control debug_request {"type":"request","seq":1,"command":"attach","arguments":{}}
send 3 control debug_request {"type":"request","seq":1,"command":"dumpCell","arguments":{"code":"X: INR A\nJMP X\nEND X"}}
send 3 control debug_request {"type":"request","seq":1,"command":"setBreakpoints","arguments":{"source":{"path":"/tmp/i8080_lab/2513983605.asm"},"breakpoints":[{"line":2},{"line":9}]}}
send 3 control debug_request {"type":"request","seq":1,"command":"configurationDone"}
send 1 shell execute_request {"code":"X: INR A\nJMP X\nEND X"}
slice
slice
slice
send 3 control debug_request {"type":"request","seq":1,"command":"threads"}
send 3 control debug_request {"type":"request","seq":1,"command":"stackTrace","arguments":{"threadId":1}}
send 3 control debug_request {"type":"request","seq":1,"command":"scopes","arguments":{"frameId":1}}
send 3 control debug_request {"type":"request","seq":1,"command":"scopes","arguments":{"frameId":2}}
send 3 control debug_request {"type":"request","seq":1,"command":"variables","arguments":{"variablesReference":1}}
send 3 control debug_request {"type":"request","seq":1,"command":"variables","arguments":{"variablesReference":2}}
send 3 control debug_request {"type":"request","seq":1,"command":"variables","arguments":{"variablesReference":3}}
send 3 control debug_request {"type":"request","seq":1,"command":"variables","arguments":{"variablesReference":4}}
send 3 control debug_request {"type":"request","seq":1,"command":"variables","arguments":{"variablesReference":5}}
send 3 control debug_request {"type":"request","seq":1,"command":"variables","arguments":{"variablesReference":6}}
send 3 control debug_request {"type":"request","seq":1,"command":"disassemble","arguments":{"memoryReference":"0x0000","instructionCount":2}}
send 3 control debug_request {"type":"request","seq":1,"command":"disassemble","arguments":{"memoryReference":"0","instructionCount":2}}
send 3 control debug_request {"type":"request","seq":1,"command":"source","arguments":{"source":{"path":"/tmp/i8080_lab/2513983605.asm"}}}
send 3 control debug_request {"type":"request","seq":1,"command":"source","arguments":{"source":{"path":"n"}}}
send 3 control debug_request {"type":"request","seq":1,"command":"debugInfo"}
send 3 control debug_request {"type":"request","seq":1,"command":"inspectVariables"}
send 3 control debug_request {"type":"request","seq":1,"command":"setVariable","arguments":{"variablesReference":1,"name":"A","value":"5AH"}}
send 3 control debug_request {"type":"request","seq":1,"command":"setVariable","arguments":{"variablesReference":1,"name":"X","value":"5AH"}}
send 3 control debug_request {"type":"request","seq":1,"command":"next"}
slice
slice
send 3 control debug_request {"type":"request","seq":1,"command":"stepIn","arguments":{"granularity":"instruction"}}
slice
slice
send 3 control debug_request {"type":"request","seq":1,"command":"continue"}
slice
slice
send 3 control debug_request {"type":"request","seq":1,"command":"setBreakpoints","arguments":{"source":{"path":"/tmp/i8080_lab/2513983605.asm"}}}
send 3 control debug_request {"type":"request","seq":1,"command":"stepOut"}
slice
send 3 control debug_request {"type":"request","seq":1,"command":"pause"}
send 3 control debug_request {"type":"request","seq":1,"command":"continue"}
slice
send 3 control debug_request {"type":"request","seq":1,"command":"boardSwitches","arguments":{"value":90}}
send 3 control debug_request {"type":"request","seq":1,"command":"boardPress","arguments":{"vector":7}}
send 3 control debug_request {"type":"request","seq":1,"command":"boardPress","arguments":{"vector":7}}
send 3 control debug_request {"type":"request","seq":1,"command":"boardType","arguments":{"text":"AB"}}
send 3 control debug_request {"type":"request","seq":1,"command":"boardAliases","arguments":{"aliases":true}}
send 3 control debug_request {"type":"request","seq":1,"command":"nothing"}
send 3 control interrupt_request {}
slice
send 3 control debug_request {"type":"request","seq":1,"command":"boardAliases","arguments":{"aliases":true}}
send 3 control debug_request {"type":"request","seq":1,"command":"boardAliases","arguments":{"aliases":false}}
send 1 shell execute_request {"code":"X: INR A\nJMP X\nEND X"}
slice
slice
slice
send 3 control debug_request {"type":"request","seq":1,"command":"boardReset"}
send 3 control debug_request {"type":"request","seq":1,"command":"disconnect"}
slice
send 1 shell execute_request {"code":"DB 8\nEND 0"}
slice
slice
slice
send 1 shell execute_request {"code":"NOP"}
send 1 shell shutdown_request {"restart":true}
slice
fetch 2 1
fetch 2 65
fetch 2 129
fetch 2 193
fetch 2 257
fetch 1 1
fetch 1 65
fetch 1 129
fetch 1 193
fetch 1 257
fetch 3 1
fetch 3 65
fetch 3 129
fetch 3 193
fetch 3 257
fetch 4 1
fetch 9 1
leave 2
leave 2
leave 1
fetch 1 1"#;

fn channel(word: &str) -> Option<Channel> {
    match word {
        "shell" => Some(Channel::Shell),
        "control" => Some(Channel::Control),
        "stdin" => Some(Channel::Stdin),
        "iopub" => Some(Channel::Iopub),
        _ => None,
    }
}

// A connection's identity stands behind its channel, if it has one.
fn join(rest: &'static str) -> Option<Action> {
    match rest.split_once(" ") {
        Some((word, identity)) => Some(Action::JoinAs(channel(word)?, identity)),
        None => Some(Action::Join(channel(rest)?)),
    }
}

fn fetch(rest: &str) -> Option<Action> {
    let (connection, from) = rest.split_once(" ")?;
    Some(Action::Fetch(connection.parse().ok()?, from.parse().ok()?))
}

// A message: its connection with its channel, its type and its content.
fn send(rest: &'static str) -> Option<Action> {
    let (connection, rest) = rest.split_once(" ")?;
    let (word, rest) = rest.split_once(" ")?;
    let (kind, content) = rest.split_once(" ")?;
    Some(Action::Send(connection.parse().ok()?, channel(word)?, kind, content))
}

/// The call of a row.
pub fn action(row: &'static str) -> Option<Action> {
    let (word, rest) = row.split_once(" ").unwrap_or((row, ""));
    match word {
        "join" => join(rest),
        "leave" => Some(Action::Leave(rest.parse().ok()?)),
        "subscribe" => Some(Action::Subscribe(rest.parse().ok()?)),
        "send" => send(rest),
        "slice" => Some(Action::Slice),
        "fetch" => fetch(rest),
        _ => None,
    }
}
