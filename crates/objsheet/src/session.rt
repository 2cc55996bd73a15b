// A workbook in memory that answers request lines.
ghost use Rattle.std.specs.Prelude.{◌≡◌, ◌≢◌, ◌≤◌, length, IfOk};
ghost use Rattle.sheet_requests.specs.Bodies.{body};
ghost use Rattle.sheet_requests.specs.Reading.{ReadsAs};
ghost use Rattle.sheet_requests.specs.declared.request.Route.TheVariants.{Line};
ghost use Rattle.std.specs.Prelude.{Err};
ghost use Rattle.objsheet.specs.Sessions.{IsAnswer};
ghost use Rattle.objsheet.specs.Serving.{OpensText, IsAnswered};

use crate::opening::Opening;
use objsheet_check::{definition_line, type_line};
use sheet_columns::Columns;
use sheet_machine::{Answered, App, StartRefusal};
use sheet_outside::Disk;
use sheet_requests::{Refusal, Reply, Route, WireRefusal};
use sheet_values::{Name, NoMemory, Steps};
use sheet_wire::{print_reply, read_request};
use std::alloc::Global;
use std::marker::Model;
use std::sync::ledger::Ledger;

/// The greatest length of a request line that is read, in bytes.
pub const LONGEST_REQUEST: usize = 65_536;

/// A workbook in memory that answers request lines.
#[derive(Drop)]
pub struct Session {
    app: App,
    // The columns that the refusal of a line is printed over, which names none.
    root: Columns,
    alloc: Global,
}

impl Model for Session {
    ghost use Rattle.std.specs.Prelude.{◌≡◌};
    ghost use Rattle.sheet_machine_laws.specs.Machine.{Holding};
    ghost use Rattle.sheet_machine.specs.Answers.{in_memory};
    ghost use Rattle.sheet_columns.specs.contracts.formula.Core as core;
    ghost use Rattle.sheet_columns.specs.contracts.statement.CoreStatement as statement;
    ghost use Rattle.sheet_columns.specs.contracts.statement.Statements as statements;
    ghost use Rattle.std.specs.Coded.{codes};

    ghost Value = { Holding };

    ghost coded = { Prim.hlevel (codes, core.the_row.coded, statement.the_row.coded, statements.the_row.coded) };

    ghost view = { λ s. s.app.machine.held };

    ghost invariant = { λ s. s.app ≡ in_memory s.app.machine.held };
}

/// The workbook at the start of a definition, whose operator has the key `op`; or the line that says why it is refused.
pub fn open_session(alloc: Global, text: &[u8]) -> Result<Opening, NoMemory>
    ensures { IfOk result (OpensText text.now) }
{
    let key = Name::of(alloc, "op")?;
    match App::start(alloc, key, text) {
        Ok(app) => {
            let root = Columns::new(alloc)?;
            Ok(Opening::Started(Session { app, root, alloc }))
        }
        Err(StartRefusal::Definition(refusal)) => {
            let line = definition_line(alloc, refusal)?;
            Ok(Opening::Refused(line))
        }
        Err(StartRefusal::Types(refusal)) => {
            let line = type_line(alloc, &refusal)?;
            Ok(Opening::Refused(line))
        }
        Err(StartRefusal::NoMemory) => Err(NoMemory),
    }
}

impl Session {
    /// Answers a request line. Where there was no memory, the body is empty, and nothing changed. The disk isn't called.
    pub fn answer<D: Disk, G: Ledger>(
        &mut self,
        disk: &mut D,
        line: &[u8],
        steps: &mut Steps<G>,
    ) -> Answered
        requires { length line.now ≤ LONGEST_REQUEST }
        ensures answered { IsAnswered self.old line.now result.reply result.body.items self.new }
        ensures still { disk.new ≡ disk.old }
    {
        match read_request(self.alloc, &Route::Line, line) {
            Ok(request) => self.app.answer(disk, &request, steps),
            Err(refusal) => self.refuse(line, refusal),
        }
    }

    // The answer to a line that holds no request.
    fn refuse(&self, line: &[u8], refusal: WireRefusal) -> Answered
        requires short { length line.now ≤ LONGEST_REQUEST }
        requires reads { ReadsAs Line line.now (Err refusal) }
        ensures { IsAnswered self.now line.now result.reply result.body.items self.now }
    {
        let reply = Reply::Wire(refusal);
        match print_reply(self.alloc, &self.root, &reply) {
            Ok(body) => Answered { reply, body },
            Err(NoMemory) => Answered {
                reply: Reply::Refused(Refusal::NoMemory),
                body: Vec::new(self.alloc),
            },
        }
    }
}
