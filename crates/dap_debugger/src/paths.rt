//! The path of a file that a request names.
ghost use Rattle.std.specs.Prelude.{◌≡◌, option_map};
ghost use Rattle.dap_debugger.specs.Paths.{path_in, with_path, with_canonical};

use base_text::text::Text;
use dap_requests::request::{EditorCommand, EditorRequest, LoadCommand, RequestContent};

fn path_in(asked: &RequestContent) -> Option<&str>
    ensures { option_map (λ t. t.now) result ≡ path_in asked.now }
{
    match asked {
        RequestContent::Load(LoadCommand::Launch(launch)) => Some(launch.program.as_str()),
        RequestContent::Load(LoadCommand::Restart(Some(launch))) => Some(launch.program.as_str()),
        RequestContent::Editor(EditorCommand::OnSource { path, .. }) => Some(path.as_str()),
        _ => None,
    }
}

// Puts this path in the place of the one that is named, if one is.
fn put_path(path: Text, asked: &mut RequestContent)
    ensures { asked.new ≡ with_path path asked.old }
{
    match asked {
        RequestContent::Load(LoadCommand::Launch(launch)) => launch.canonical = path,
        RequestContent::Load(LoadCommand::Restart(Some(launch))) => launch.canonical = path,
        RequestContent::Editor(EditorCommand::OnSource { path: named, .. }) => *named = path,
        _ => drop(path),
    }
}

/// The path of the file that a request names, as the editor gave it: the program's or a source's.
pub fn named_path(request: &EditorRequest) -> Option<&str>
    ensures { option_map (λ t. t.now) result ≡ path_in request.now.asked }
{
    path_in(&request.asked)
}

/// The same request with this canonical path of the file that it names, if the file has one. A launch keeps
/// the path that the editor gave too.
pub fn with_canonical(request: EditorRequest, path: Option<Text>) -> EditorRequest
    ensures { result ≡ with_canonical path request }
{
    let Some(path) = path else {
        return request;
    };
    let (seq, command, mut asked) = request.into_parts();
    put_path(path, &mut asked);
    EditorRequest {
        seq,
        command,
        asked,
    }
}
