//! Where the bodies of a conversation and the programs' files come from.
ghost use Rattle.std.specs.Prelude.{◌∷◌, [], Option, List, IfOk};
ghost use Rattle.dap_debugger.specs.declared.incoming.Incoming.{Incoming as IncomingOf};
ghost use Rattle.dap_debugger.specs.Given.{Gave};
ghost use Rattle.dap_debugger.specs.KnownFiles.{KnownFiles};

use base_text::sequence::Bytes;
use base_text::text::Text;
use dap_launch::file::FileText;
use dap_stream::fault::StreamFault;
use std::alloc::{AllocError, Global};

/// Why no more bodies come.
#[derive(Clone, Copy, PartialEq, Eq)]
pub enum StreamEnd {
    /// The editor's stream has ended.
    Ended,
    /// The stream has a fault, behind which nothing can be read.
    Broken(StreamFault),
    ReadFailed,
    OutOfMemory,
}

/// What a source of bodies gives.
#[derive(Drop)]
pub enum Incoming {
    Body(Bytes),
    /// No body has come yet.
    Nothing,
    End(StreamEnd),
}

/// A source of the bodies of an editor's messages.
pub trait BodySource {
    /// What it has given, if that is known.
    ghost given: { Self → Option (List IncomingOf) };

    /// The next body, or why none comes. While a program runs it doesn't wait for one.
    fn next(&mut self, is_running: bool) -> Incoming
        ensures { Gave (given self.old) (given self.new) (result ∷ []) };
}

/// The files of programs.
pub trait ProgramFiles {
    /// What is known of them.
    ghost known: { Self → KnownFiles };

    /// What is found at a path. Fails if memory runs out.
    fn read(&self, alloc: Global, path: &str) -> Result<FileText, AllocError>
        ensures { IfOk result (λ found. (known self.now).may_find path.now found) };

    /// The canonical path of the file at a path, if it has one: `None` if there is no such file, or if its
    /// canonical path isn't UTF-8. Fails if memory runs out.
    fn canonical(&self, alloc: Global, path: &str) -> Result<Option<Text>, AllocError>
        ensures { IfOk result (λ found. (known self.now).may_be_at path.now found) };
}
