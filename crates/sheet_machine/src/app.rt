// The App.
ghost use Rattle.std.specs.Prelude.{◌≡◌, ◌≤◌, None, Some, IsSome, IsTrue, IfOk, OnOk};
ghost use Rattle.sheet_outside.specs.Causes.{Rose};
ghost use Rattle.sheet_outside.specs.Told.{WhereTold};
ghost use Rattle.sheet_journal.specs.Journal.{Journal as TheJournal};
ghost use Rattle.sheet_machine_laws.specs.Ranges.{IsInRange, IsKey};
ghost use Rattle.sheet_machine.specs.Answers.{AnswersInMemory, AnswersInJournal};
ghost use Rattle.sheet_machine.specs.Held.{holding, IsReady};
ghost use Rattle.sheet_machine.specs.Opening.{Reopens, IsRecoveredApp, IsSureApp, IsOpenRefusal, HasOpenCause};
ghost use Rattle.sheet_machine.specs.Starts.{Starts};
ghost use Rattle.sheet_machine_laws.specs.Step.{StepInMemory};
ghost use Rattle.sheet_machine.specs.Told.{told, AsksNoReads};
ghost use Rattle.sheet_requests.specs.declared.reply.Refusal.TheVariants.{DiskFault};
ghost use Rattle.sheet_requests.specs.declared.reply.Reply.TheVariants.{Refused};

use crate::acting::act;
use crate::answered::{Answered, starved};
use crate::held::Held;
use crate::opening::{OpenRefusal, Opened, recover};
use crate::recording::answer_recorded;
use crate::starting::{StartRefusal, started};
use sheet_callers::Callers;
use sheet_engine::Engine;
use sheet_journal::Journal;
use sheet_machine_laws::{only_accepted_change, only_disks_fault, sound_stays};
use sheet_outside::Disk;
use sheet_requests::Request;
use sheet_values::{Name, NoMemory, Steps};
use std::alloc::Global;
use std::marker::Model;
use std::sync::ledger::Ledger;

/// A workbook with its callers and perhaps a journal, seen as the abstract machine and that journal. What it holds is always sound: the
/// workbook is well formed and filled. A request is in doubt exactly where its record is.
#[derive(Drop)]
pub struct App {
    held: Held,
    journal: Option<Journal>,
}

impl Model for App {
    ghost use Rattle.sheet_machine.specs.Becoming.{IsApp};
    ghost use Rattle.sheet_machine.specs.Held.{machine_of};
    ghost use Rattle.sheet_machine.specs.Recording.{App as TheApp};
    ghost use Rattle.sheet_columns.specs.contracts.formula.Core as core;
    ghost use Rattle.sheet_columns.specs.contracts.statement.CoreStatement as statement;
    ghost use Rattle.sheet_columns.specs.contracts.statement.Statements as statements;
    ghost use Rattle.std.specs.Coded.{codes};

    ghost Value = { TheApp };

    ghost coded = { Prim.hlevel (codes, core.the_row.coded, statement.the_row.coded, statements.the_row.coded) };

    ghost view = { λ a. record { machine = machine_of a.held; journal = a.journal } };

    ghost invariant = { λ a. IsApp a.held a.journal };
}

// The answer to a request, without a journal: what is accepted is taken in at once.
fn answer_in_memory<G: Ledger>(held: &mut Held, request: &Request, steps: &mut Steps<G>) -> Answered
    requires ready { IsReady held.old }
    requires range { IsInRange request.now }
    requires served { AsksNoReads request.now }
    ensures step { StepInMemory (holding held.old) request.now result.reply (holding held.new) }
    ensures ready { IsReady held.new }
    ensures body { result.body.items ≡ told held.old.engine.book.columns result.reply }
    ensures faultless { result.reply ≡ Refused DiskFault → ⊥ }
{
    sound_stays();
    only_accepted_change();
    only_disks_fault();
    match act(held, request, steps) {
        Ok(answered) => {
            held.take_in();
            answered
        }
        Err(NoMemory) => starved(held.alloc),
    }
}

impl App {
    /// The workbook of a definition at its start, without a journal, with the operator as its one caller, who has a key of 1 to 64 bytes
    /// of 0x21 to 0x7E.
    ///
    /// `Definition` where the text stands for no definition, with the reason; else `Types` where that definition has no book. Want of
    /// memory is always `NoMemory` itself.
    pub fn start(alloc: Global, operator_key: Name, definition: &[u8]) -> Result<App, StartRefusal>
        requires { IsKey operator_key }
        ensures { Starts definition.now operator_key result }
    {
        match started(alloc, operator_key, definition) {
            Ok(held) => Ok(App {
                held,
                journal: None,
            }),
            Err(refusal) => Err(refusal),
        }
    }

    /// The workbook after the records of the journal of this name, which goes on behind them: nothing is in doubt.
    ///
    /// `Journal` where the disk failed; where there is no such file, or it is no journal (`NotAJournal`, with its length); and where
    /// all whole records are good and the one behind them isn't whole (`TornLayout`, with its place). `Damaged` with the number of the
    /// first record, from 1, that can't be read or isn't accepted at its place. What is read of the file stays, and so do the others.
    pub fn open<D: Disk, G: Ledger>(
        alloc: Global,
        disk: &mut D,
        name: &[u8],
        steps: &mut Steps<G>,
    ) -> Result<App, OpenRefusal>
        ensures sure { IfOk result IsSureApp }
        ensures open { OnOk result (IsTrue (D.is_open disk.new)) }
        ensures file { WhereTold (Reopens IsRecoveredApp name.now result) (D.told disk.old) (D.told disk.new) }
        ensures refusal { IsOpenRefusal result }
        ensures cause { HasOpenCause (D.faults disk.old) (D.faults disk.new) result }
    {
        match recover(alloc, disk, name, steps) {
            Ok(Opened { held, journal }) => Ok(App {
                held,
                journal: Some(journal),
            }),
            Err(refusal) => Err(refusal),
        }
    }

    /// The reply to a request in its ranges, with its bytes: one step of the abstract machine. What is asked for in `Reads` isn't served
    /// yet.
    ///
    /// With a journal, what is in doubt is settled first: where that fails the answer is `DiskFault` and all stays. Then an accepted
    /// request is answered so only once its record is on the disk; where that fails the answer is `DiskFault`, and the request is in
    /// doubt. The disk is called for nothing else. Without a journal it isn't called.
    ///
    /// Other refusals come in this order: `UnknownKey`; `NotOperator` of an admission and of the counts; `Past`, `Differs` and `Ahead` of a
    /// number; `UnknownName`; `BadArgument`; of an admission `KeyTaken`, `NameTaken` and `TooMany`; what a procedure or a view refuses;
    /// and `Full` where 1,000,000,000 requests were accepted. After a refusal all is as before. All memory is taken before anything
    /// is written, so after `NoMemory` all is as before too.
    pub fn answer<D: Disk, G: Ledger>(
        &mut self,
        disk: &mut D,
        request: &Request,
        steps: &mut Steps<G>,
    ) -> Answered
        requires range { IsInRange request.now }
        requires served { AsksNoReads request.now }
        requires open { IsSome self.old.journal → IsTrue (D.is_open disk.old) }
        ensures memory { self.old.journal ≡ None → AnswersInMemory self.old request.now result.reply self.new }
        ensures still { self.old.journal ≡ None → disk.new ≡ disk.old }
        ensures journal { (was : TheJournal) → self.old.journal ≡ Some was → AnswersInJournal self.old was request.now result.reply self.new (D.told disk.old) (D.told disk.new) }
        ensures open { IsSome self.old.journal → IsTrue (D.is_open disk.new) }
        ensures body { result.body.items ≡ told self.old.machine.held.book.columns result.reply }
        ensures later { D.faults disk.old ≤ D.faults disk.new }
        ensures failed { result.reply ≡ Refused DiskFault → Rose (D.faults disk.old) (D.faults disk.new) }
    {
        match &mut self.journal {
            None => answer_in_memory(&mut self.held, request, steps),
            Some(journal) => answer_recorded(&mut self.held, journal, disk, request, steps),
        }
    }

    /// The engine, for reading, where no request is in doubt. It takes no memory.
    pub fn engine(&self) -> &Engine
        requires sure { self.now.machine.doubt ≡ None }
        ensures book { result.now.book ≡ self.now.machine.held.book }
        ensures state { result.now.state.present.state ≡ self.now.machine.held.state }
    {
        &self.held.engine
    }

    /// The callers, for reading, where no request is in doubt. It takes no memory.
    pub fn callers(&self) -> &Callers
        requires sure { self.now.machine.doubt ≡ None }
        ensures { result.now ≡ self.now.machine.held.callers }
    {
        &self.held.callers
    }

    /// How many requests were accepted, where none is in doubt. It takes no memory.
    pub fn accepted(&self) -> u64
        requires sure { self.now.machine.doubt ≡ None }
        ensures { result ≡ self.now.machine.held.accepted }
    {
        self.held.accepted
    }

    /// The engine alone, where no request is in doubt. It takes no memory.
    pub fn into_engine(self) -> Engine
        requires sure { self.machine.doubt ≡ None }
        ensures book { result.book ≡ self.machine.held.book }
        ensures state { result.state.present.state ≡ self.machine.held.state }
    {
        self.held.engine
    }
}
