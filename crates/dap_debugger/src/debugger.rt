//! The debugger.
ghost use Rattle.std.specs.Prelude.{◌≡◌, ◌∷◌, ◌++◌, [], List, IfOk, OnOk, OnErr};
ghost use Rattle.base_text.specs.Bytes.{Bytes};
ghost use Rattle.dap_record.specs.Slices.{Input, request as asks};

use crate::sending::{Progress, put_all};
use base_text::sequence::{Bytes, Sequence};
use dap_launch::file::FileText;
use dap_messages::message::{Message, Numbering};
use dap_record::recorded::RecordedSession;
use dap_requests::request::EditorRequest;
use std::alloc::{AllocError, Global};
use std::marker::Model;

/// A session, how far its messages were sent, and those that wait to be sent.
#[derive(Drop)]
pub struct Debugger {
    session: RecordedSession,
    progress: Progress,
    told: Vec<Sequence<Message>>,
}

impl Model for Debugger {
    ghost use Rattle.std.specs.Coded.{codes};
    ghost use Rattle.asm_expr.specs.contracts.expression.Expr as expr;
    ghost use Rattle.dap_debugger.specs.Debuggers.{DebuggerState};
    ghost use Rattle.dap_debugger.specs.Sending.{concat_messages};

    ghost Value = { DebuggerState };

    ghost coded = { Prim.hlevel (codes, expr.the_row.coded) };

    ghost view = { λ d. record {
      session = d.session;
      progress = d.progress;
      told = concat_messages d.told.items;
    } };
}

impl Debugger {
    ghost use Rattle.dap_debugger.specs.Debuggers.{Past, PastSlice};

    /// A debugger before its first request.
    pub fn new(alloc: Global) -> Result<Debugger, AllocError>
        ensures { IfOk result (λ debugger. Past debugger [] []) }
    {
        let session = RecordedSession::new(alloc)?;
        Ok(Debugger {
            session,
            progress: Progress::start(),
            told: Vec::new(alloc),
        })
    }

    /// Answers a request. `file` is what was found at the path that the request needs (the session's
    /// `wanted_file`). If memory runs out no more messages wait to be sent, but the session can't be used any
    /// more.
    pub fn answer(
        &mut self,
        alloc: Global,
        request: EditorRequest,
        file: Option<FileText>,
    ) -> Result<(), AllocError>
        ensures ok { (inputs : List Input) (bytes : Bytes) → Past self.old inputs bytes
            → OnOk result (Past self.new (inputs ++ asks request file ∷ []) bytes) }
        ensures err { OnErr result
            ((self.new.progress ≡ self.old.progress) × (self.new.told ≡ self.old.told)) }
    {
        self.told.reserve(1)?;
        let messages = self.session.take(alloc, request, file)?;
        self.told.push_reserved(messages);
        Ok(())
    }

    /// Makes a slice of the run, if one goes on. If memory runs out no more messages wait to be sent, but the
    /// session can't be used any more.
    pub fn run(&mut self, alloc: Global) -> Result<(), AllocError>
        ensures ok { (inputs : List Input) (bytes : Bytes) → Past self.old inputs bytes
            → OnOk result (PastSlice self.new inputs bytes) }
        ensures err { OnErr result
            ((self.new.progress ≡ self.old.progress) × (self.new.told ≡ self.old.told)) }
    {
        self.told.reserve(1)?;
        let messages = self.session.run(alloc)?;
        self.told.push_reserved(messages);
        Ok(())
    }

    /// The bytes of the messages that wait to be sent. Fails also if a message's number would pass 2^64 - 1.
    pub fn send(&mut self, alloc: Global) -> Result<Bytes, AllocError>
        ensures ok { (inputs : List Input) (bytes : Bytes) → Past self.old inputs bytes
            → IfOk result (λ more. Past self.new inputs (bytes ++ more)) }
        ensures all { OnOk result (self.new.told ≡ []) }
        ensures err { OnErr result (self.new ≡ self.old) }
    {
        let mut out = Vec::new(alloc);
        self.progress = put_all(alloc, self.progress, &self.told, &mut out)?;
        self.told.clear();
        Ok(Bytes::from(out))
    }

    /// How the editor counts lines and columns, by the messages that were sent.
    pub fn numbering(&self) -> Numbering
        ensures { result ≡ self.now.progress.numbering }
    {
        self.progress.numbering
    }

    /// The session that answers the requests.
    pub fn session(&self) -> &RecordedSession
        ensures { result.now ≡ self.now.session }
    {
        &self.session
    }
}
