//! What port operations say of the console.
ghost use Rattle.std.specs.Prelude.{◌≡◌, ◌<◌, ◌≤◌, ◌+◌, ◌++◌, ◌∷◌, [], length, vec_len, vec_capacity};
ghost use Rattle.std.specs.List.{filter_map, list_any};
ghost use Rattle.i80_devs.specs.Console.{written_to_console, wants_line};

use i80_base::ports::PortOperation;

fn print(text: &mut Vec<u8>, operation: &PortOperation)
    requires { vec_len text.old < vec_capacity text.old }
    ensures items { text.new.items ≡ text.old.items ++ filter_map written_to_console (operation.now ∷ []) }
    ensures capacity { vec_capacity text.new ≡ vec_capacity text.old }
    ensures len { vec_len text.new ≤ vec_len text.old + 1 }
{
    match operation {
        PortOperation::Out { port: 1, byte } => text.push_reserved(*byte),
        _ => {}
    }
}

/// The bytes that were written to the console, port 1, in their order, in a text that has room for them.
pub fn print_all(mut text: Vec<u8>, traffic: &[PortOperation]) -> Vec<u8>
    requires empty { text.items ≡ [] }
    requires room { length traffic.now ≤ vec_capacity text }
    ensures { result.items ≡ filter_map written_to_console traffic.now }
{
    for operation in traffic {
        print(&mut text, operation);
    }
    text
}

fn requests_line(operation: &PortOperation) -> bool
    ensures { result ≡ wants_line operation.now }
{
    matches!(operation, PortOperation::Out { port: 3, .. })
}

/// Whether a line was asked for: whether something was written to port 3.
pub fn is_line_requested(traffic: &[PortOperation]) -> bool
    ensures { result ≡ list_any wants_line traffic.now }
{
    traffic.iter().any(requests_line)
}
