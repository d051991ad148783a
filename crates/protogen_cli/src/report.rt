ghost use Rattle.std.specs.Prelude.{◌≡◌, ◌<◌, length, IfOk};
ghost use Rattle.pg_perm.specs.Drafts.{IsWellFormed};
ghost use Rattle.pg_shape.specs.FirstFaults.{shape_fault};
ghost use Rattle.pg_script.specs.Texts.{reading as script_reading};
ghost use Rattle.pg_text.specs.Texts.{reading};
ghost use Rattle.protogen_cli.specs.Replies as replies;

use crate::status::Status;
use crate::words::{Command, Machine};
use pg_atomic_run::atomic_run;
use pg_controller_run::controller_run;
use pg_infer::generate;
use pg_perm::{Draft, Fault, Mode};
use pg_print::table_text;
use pg_script::{Script, ScriptError};
use pg_shape::{Protocol, ShapeError, shape};
use pg_text::TextError;
use std::alloc::{AllocError, Global};
use std::marker::Model;

/// The bytes to write, and the status to end with once they are written.
#[derive(Drop)]
pub struct Report {
    status: Status,
    bytes: Vec<u8>,
}

impl Model for Report {
    ghost use Rattle.protogen_cli.specs.Replies.{Reply};

    ghost Value = { Reply };

    ghost view = { λ r. record { status = r.status; bytes = r.bytes.items } };
}

fn histories_on(
    alloc: Global,
    machine: Machine,
    protocol: &Protocol,
    script: &Script,
) -> Result<Vec<u8>, AllocError>
    ensures { IfOk result (λ text. text.items ≡ replies.histories_on machine protocol.now script.now) }
{
    match machine {
        Machine::Atomic => atomic_run(alloc, protocol, script),
        Machine::Controllers(mode, seed) => controller_run(alloc, protocol, mode, seed, script),
    }
}

impl Report {
    fn new(alloc: Global, status: Status, line: &str) -> Result<Self, AllocError>
        ensures { IfOk result (λ report. report ≡ record { status = status; bytes = line.now }) }
    {
        Ok(Report {
            status,
            bytes: String::from_str(alloc, line)?.into_bytes(),
        })
    }

    fn on_text_fault(alloc: Global, fault: Fault) -> Result<Self, AllocError>
        ensures { IfOk result (λ report. report ≡ replies.text_fault fault) }
    {
        let line = format!(in alloc; "line {} rule {}\n", fault.line, fault.rule.name())?;
        Ok(Report {
            status: Status::Text(fault),
            bytes: line.into_bytes(),
        })
    }

    fn on_script_fault(alloc: Global, fault: Fault) -> Result<Self, AllocError>
        ensures { IfOk result (λ report. report ≡ replies.script_fault fault) }
    {
        let line = format!(in alloc; "script line {} rule {}\n", fault.line, fault.rule.name())?;
        Ok(Report {
            status: Status::Script(fault),
            bytes: line.into_bytes(),
        })
    }

    /// Runs the script on a machine of the protocol.
    fn on_script(
        alloc: Global,
        machine: Machine,
        protocol: &Protocol,
        script: &[u8],
    ) -> Result<Self, AllocError>
        requires { length script.now < 4294967295 }
        ensures { IfOk result (λ report. report ≡ replies.answer_to_script machine protocol.now (script_reading script.now)) }
    {
        match pg_script::read(alloc, script) {
            Ok(script) => Ok(Report {
                status: Status::Done,
                bytes: histories_on(alloc, machine, protocol, &script)?,
            }),
            Err(ScriptError::Fault(fault)) => Report::on_script_fault(alloc, fault),
            Err(ScriptError::Memory) => Err(AllocError),
        }
    }

    /// Generates the tables of the protocol.
    fn on_tables(alloc: Global, protocol: &Protocol, mode: Mode) -> Result<Self, AllocError>
        ensures { IfOk result (λ report. report ≡ replies.tables_reply protocol.now mode) }
    {
        let tables = generate(alloc, protocol, mode)?;
        Ok(Report {
            status: Status::Done,
            bytes: table_text(alloc, &tables)?,
        })
    }

    /// Does what the command asks of a protocol, with what stands after its text.
    fn on_protocol(
        alloc: Global,
        command: Command,
        protocol: &Protocol,
        rest: &[u8],
    ) -> Result<Self, AllocError>
        requires { length rest.now < 4294967295 }
        ensures { IfOk result (λ report. report ≡ replies.answer_to_protocol command protocol.now rest.now) }
    {
        match command {
            Command::Check => Report::new(alloc, Status::Done, "ok\n"),
            Command::Compile(mode) => Report::on_tables(alloc, protocol, mode),
            Command::Run(machine) => Report::on_script(alloc, machine, protocol, rest),
        }
    }

    fn on_draft(
        alloc: Global,
        command: Command,
        draft: Draft,
        rest: &[u8],
    ) -> Result<Self, AllocError>
        requires whole { IsWellFormed draft }
        requires short { length rest.now < 4294967295 }
        ensures { IfOk result (λ report. report ≡ replies.answer_to_draft command draft rest.now (shape_fault draft)) }
    {
        match shape(draft) {
            Ok(protocol) => Report::on_protocol(alloc, command, &protocol, rest),
            Err(ShapeError::Fault(fault)) => Report::on_text_fault(alloc, fault),
        }
    }

    /// Does what the command asks of an input.
    pub fn on_input(alloc: Global, command: Command, input: &[u8]) -> Result<Self, AllocError>
        requires { length input.now < 4294967295 }
        ensures { IfOk result (λ report. report ≡ replies.answer_to_text command input.now (reading input.now)) }
    {
        match pg_text::read(alloc, input) {
            Ok((draft, place)) => {
                let (_, rest) = input.split_at(place as usize);
                Report::on_draft(alloc, command, draft, rest)
            }
            Err(TextError::Form(fault)) => Report::on_text_fault(alloc, fault),
            Err(TextError::Memory) => Err(AllocError),
        }
    }

    pub fn too_long(alloc: Global) -> Result<Self, AllocError>
        ensures { IfOk result (λ report. report ≡ replies.too_long_reply) }
    {
        Report::new(alloc, Status::TooLong, "too long\n")
    }

    pub fn status(&self) -> Status
        ensures { result ≡ self.now.status }
    {
        self.status
    }

    pub fn bytes(&self) -> &[u8]
        ensures { result.now ≡ self.now.bytes }
    {
        self.bytes.as_slice()
    }
}
