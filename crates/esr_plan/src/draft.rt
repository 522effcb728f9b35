//! Makes the plan of a drive file, line after line, or reports the lowest error number of the first line with a
//! fault.
//!
//! Rejected: to compare a name with that of the previous line before it is looked up. A look-up compares keys of fixed size, and
//! takes fewer instructions than a comparison of two texts.
//!
//! The plan keeps whether a weight was given: an item's line is echoed as it was written.
//!
//! The data kept alongside the plan agrees with it (`IsSound`). That is not an invariant of the type, since an error
//! may leave a draft half changed; it is then dropped.

ghost use Rattle.esr_grammar.specs.declared.limits.TheConstants.{MAX_LINES};
ghost use Rattle.std.specs.Prelude.{◌≡◌, ◌+◌, ◌<◌, ◌≤◌, ◌⊎◌, ◌^◌, true, false, Ok, Err, None, OnOk, IfOk, IfErr, length};
ghost use Rattle.esr_items.specs.Weights.{is_weight};
ghost use Rattle.esr_grammar.specs.Lines.{lines};
ghost use Rattle.esr_grammar.specs.Command.{view};
ghost use Rattle.esr_plan.specs.Plan.{with_session, with_item, with_operation, with_begin, with_command, with_line, plan_from, nothing, new_name, weight_in};
ghost use Rattle.esr_plan.specs.Calls.{begin_command, command_of, place_of, IsCaller, IsOperand, IsResolved};
ghost use Rattle.esr_plan.specs.Blocks.{item_called};
ghost use Rattle.esr_plan.specs.Drafts.{plan_in, current_calls, IsSound, IsPlanError};

use crate::call::{Call, Caller, Operand};
use crate::fault::DriveFault;
use crate::reader::first_line;
use esr_grammar::{Line, Parsed, parse_line};
use esr_history::TxnKind;
use esr_items::{ItemId, MAX_ITEMS, MAX_VALUE, MAX_WEIGHT};
use esr_report::Names;
use esr_session::MAX_SESSIONS;
use std::alloc::Global;

/// The maximum number of blocks in a file: each has its own session.
pub const MAX_BLOCKS: usize = MAX_SESSIONS;

/// A plan that is being made: the items, the completed blocks, and the open one, with the names of the transactions
/// that begin in them.
#[derive(Drop)]
pub struct Draft<'a> {
    pub names: Names,
    pub values: Vec<i64>,
    /// The given weights.
    pub weights: Vec<Option<u32>>,
    pub done: Vec<Vec<Call<'a>>>,
    pub current: Option<Vec<Call<'a>>>,
    pub begun: Names,
    /// The place of each begin in its block.
    pub places: Vec<usize>,
    /// The number of transactions that begin in the completed blocks.
    pub earlier: usize,
}

/// The reason why a line is not added to the plan.
#[derive(Clone, Copy)]
pub enum PlanError {
    /// The number of the line's error.
    Line(u32),
    NoMemory,
}

/// Checks the weight of an item.
fn weight_of(given: Option<u64>) -> Result<Option<u32>, PlanError>
    ensures ok { IfOk result (λ weight. (weight ≡ given) × (is_weight (weight_in given) ≡ true)) }
    ensures err { IfErr result (λ e. (e ≡ PlanError.Line 8) × (is_weight (weight_in given) ≡ false)) }
{
    match given {
        None => Ok(None),
        Some(weight) if weight == 0 || weight > u64::from(MAX_WEIGHT) => Err(PlanError::Line(8)),
        Some(weight) => Ok(Some(weight as u32)),
    }
}

impl<'a> Draft<'a> {
    /// Creates the plan of no lines. Names are hashed from the seed.
    pub fn new(alloc: Global, hash_seed: u64) -> Draft<'a>
        ensures plan { plan_in result ≡ nothing }
        ensures sound { IsSound result }
    {
        Draft {
            names: Names::with_seed(alloc, hash_seed),
            values: Vec::new(alloc),
            weights: Vec::new(alloc),
            done: Vec::new(alloc),
            current: None,
            begun: Names::with_seed(alloc, hash_seed),
            places: Vec::new(alloc),
            earlier: 0,
        }
    }

    /// Declares an item, with a weight if one is given.
    fn add_item(&mut self, name: &str, value: i64, weight: Option<u64>) -> Result<(), PlanError>
        requires { IsSound self.old }
        ensures ok { OnOk result (IsSound self.new × (with_item (plan_in self.old) name.now value weight
            ≡ Ok (plan_in self.new))) }
        ensures err { IfErr result (IsPlanError (with_item (plan_in self.old) name.now value weight)) }
        ensures begun { self.new.begun ≡ self.old.begun }
    {
        if self.current.is_some() {
            return Err(PlanError::Line(2));
        }
        if self.names.number_of(name).is_some() {
            return Err(PlanError::Line(3));
        }
        if value.unsigned_abs() > MAX_VALUE {
            return Err(PlanError::Line(4));
        }
        if self.names.len() >= MAX_ITEMS {
            return Err(PlanError::Line(5));
        }
        let weight = weight_of(weight)?;
        if self.names.bind(name).is_err()
            || self.values.push(value).is_err()
            || self.weights.push(weight).is_err()
        {
            return Err(PlanError::NoMemory);
        }
        Ok(())
    }

    /// Begins a block.
    fn add_session(&mut self, alloc: Global) -> Result<(), PlanError>
        requires { IsSound self.old }
        ensures ok { OnOk result (IsSound self.new × (with_session (plan_in self.old) ≡ Ok (plan_in self.new))) }
        ensures err { IfErr result (IsPlanError (with_session (plan_in self.old))) }
        ensures begun { self.new.begun ≡ self.old.begun }
    {
        match self.current.take() {
            None => {}
            Some(block) => {
                if self.done.len() + 1 >= MAX_BLOCKS {
                    return Err(PlanError::Line(7));
                }
                if self.done.push(block).is_err() {
                    return Err(PlanError::NoMemory);
                }
            }
        }
        self.earlier = self.begun.len();
        self.current = Some(Vec::new(alloc));
        Ok(())
    }

    /// Returns the place in the open block of the line that begins the transaction with this name.
    fn place_of(&self, name: &str) -> Option<usize>
        requires { IsSound self.now }
        ensures { result ≡ place_of (current_calls self.now) name.now }
    {
        let number = self.begun.number_of(name)? as usize;
        if number < self.earlier {
            return None;
        }
        self.places.get(number).copied()
    }

    /// Returns the transaction that a line names.
    fn caller(&self, name: &'a str) -> Caller<'a>
        requires { IsSound self.now }
        ensures name { result.name.now ≡ name.entry.now }
        ensures begin { IsCaller (current_calls self.now) result }
    {
        Caller {
            name,
            begin: self.place_of(name),
        }
    }

    /// Returns the item that a line names.
    fn operand(&self, name: &'a str) -> Operand<'a>
        requires { IsSound self.now }
        ensures name { result.name.now ≡ name.entry.now }
        ensures item { IsOperand self.now.names result }
    {
        Operand {
            name,
            item: self.item_of(name),
        }
    }

    /// Returns the number of an item's name.
    fn item_of(&self, name: &str) -> ItemId
        ensures { result ≡ item_called self.now.names name.now }
    {
        match self.names.number_of(name) {
            Some(position) => ItemId(position),
            None => ItemId(MAX_ITEMS as u32),
        }
    }

    /// Adds a call that begins no transaction.
    fn add_operation(&mut self, call: Call<'a>) -> Result<(), PlanError>
        requires sound { IsSound self.old }
        requires plain { new_name (command_of call) ≡ None }
        requires resolved { IsResolved self.old.names (current_calls self.old) call }
        ensures ok { OnOk result (IsSound self.new × (with_operation (plan_in self.old) (command_of call.entry)
            ≡ Ok (plan_in self.new))) }
        ensures err { IfErr result (IsPlanError (with_operation (plan_in self.old) (command_of call.entry))) }
        ensures begun { self.new.begun ≡ self.old.begun }
    {
        let Some(block) = &mut self.current else {
            return Err(PlanError::Line(1));
        };
        if block.push(call).is_err() {
            return Err(PlanError::NoMemory);
        }
        Ok(())
    }

    /// Adds the call that begins a transaction.
    fn add_begin(&mut self, name: &'a str, kind: TxnKind, limit: u64) -> Result<(), PlanError>
        requires sound { IsSound self.old }
        requires fits { length self.old.begun < 2 ^ 32 }
        ensures ok { OnOk result (IsSound self.new
            × (with_begin (plan_in self.old) name.entry.now (begin_command kind name.entry.now limit)
            ≡ Ok (plan_in self.new))) }
        ensures err { IfErr result
            (IsPlanError (with_begin (plan_in self.old) name.entry.now (begin_command kind name.entry.now limit))) }
        ensures begun { OnOk result (length self.new.begun ≤ length self.old.begun + 1) }
    {
        let Some(block) = &mut self.current else {
            return Err(PlanError::Line(1));
        };
        if self.begun.number_of(name).is_some() {
            return Err(PlanError::Line(3));
        }
        let place = block.len();
        if block.push(Call::Begin { name, kind, limit }).is_err()
            || self.begun.bind(name).is_err()
            || self.places.push(place).is_err()
        {
            return Err(PlanError::NoMemory);
        }
        Ok(())
    }

    /// Adds the command of a line.
    fn add_command(&mut self, line: Line<'a>) -> Result<(), PlanError>
        requires sound { IsSound self.old }
        requires fits { length self.old.begun < 2 ^ 32 }
        ensures ok { OnOk result (IsSound self.new × (with_command (plan_in self.old) (view line.entry)
            ≡ Ok (plan_in self.new))) }
        ensures err { IfErr result (IsPlanError (with_command (plan_in self.old) (view line.entry))) }
        ensures begun { OnOk result (length self.new.begun ≤ length self.old.begun + 1) }
    {
        match line {
            Line::Item { name, value } => self.add_item(name, value, None),
            Line::WeightedItem {
                name,
                value,
                weight,
            } => self.add_item(name, value, Some(weight)),
            Line::BeginUpdate { name, limit } => self.add_begin(name, TxnKind::Update, limit),
            Line::BeginQuery { name, limit } => self.add_begin(name, TxnKind::Query, limit),
            Line::BeginStrictQuery { name, limit } => {
                self.add_begin(name, TxnKind::StrictQuery, limit)
            }
            Line::Read { txn, item } => {
                let txn = self.caller(txn);
                let item = self.operand(item);
                self.add_operation(Call::Read { txn, item })
            }
            Line::Write { txn, item, value } => {
                let txn = self.caller(txn);
                let item = self.operand(item);
                self.add_operation(Call::Write { txn, item, value })
            }
            Line::Commit { txn } => {
                let txn = self.caller(txn);
                self.add_operation(Call::Commit { txn })
            }
            Line::Abort { txn } => {
                let txn = self.caller(txn);
                self.add_operation(Call::Abort { txn })
            }
            _ => Err(PlanError::Line(1)),
        }
    }

    /// Adds a line of a drive file.
    fn add_line(&mut self, alloc: Global, line: &'a [u8]) -> Result<(), PlanError>
        requires sound { IsSound self.old }
        requires fits { length self.old.begun < 2 ^ 32 }
        ensures ok { OnOk result (IsSound self.new × (with_line (plan_in self.old) line.entry.now
            ≡ Ok (plan_in self.new))) }
        ensures err { IfErr result (IsPlanError (with_line (plan_in self.old) line.entry.now)) }
        ensures begun { OnOk result (length self.new.begun ≤ length self.old.begun + 1) }
    {
        let parsed = parse_line(line);
        if let Parsed::Skipped = parsed {
            return Ok(());
        }
        if line == b"session".as_slice() {
            return self.add_session(alloc);
        }
        match parsed {
            Parsed::Command(line) => self.add_command(line),
            _ => Err(PlanError::Line(1)),
        }
    }
}

/// Returns the plan of the lines.
pub fn draft_of<'a>(alloc: Global, bytes: &'a [u8], hash_seed: u64) -> Result<Draft<'a>, DriveFault>
    requires { length (lines bytes.now) ≤ MAX_LINES }
    ensures ok { IfOk result (λ d. IsSound d × (plan_from 1 nothing (lines bytes.entry.now) ≡ Ok (plan_in d))) }
    ensures err { IfErr result (λ e. (e ≡ DriveFault.NoMemory)
        ⊎ (plan_from 1 nothing (lines bytes.entry.now) ≡ Err e)) }
{
    let mut draft = Draft::new(alloc, hash_seed);
    let mut unread = bytes;
    let mut number: u64 = 1;
    while let Some((line, rest)) = first_line(unread) {
        match draft.add_line(alloc, line) {
            Ok(()) => {}
            Err(PlanError::Line(error)) => {
                return Err(DriveFault::BadScript {
                    line: number,
                    error,
                });
            }
            Err(PlanError::NoMemory) => return Err(DriveFault::NoMemory),
        }
        unread = rest;
        number += 1;
    }
    Ok(draft)
}
