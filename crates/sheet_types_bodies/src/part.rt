// The parts of views.
ghost use Rattle.std.specs.Prelude.{◌≡◌, ◌+◌, IfOk, OnOk};
ghost use Rattle.sheet_types_formulas.specs.Answers.{Answers};
ghost use Rattle.sheet_types_bodies.specs.Calls.{here, slots_made};
ghost use Rattle.sheet_types_bodies.specs.Parts.{slot as slot_of, slots as slots_of, numbers_of, table as table_of, part_of, parts as parts_of};

use crate::formula::{Sheet, formula};
use crate::statement::after;
use sheet_columns::{Core, CoreParts, CoreSlot, CoreSlots, CoreView, Sequence};
use sheet_define_data::{Part, Show};
use sheet_syntax_trees::Tree;
use sheet_types_formulas::{TypeRefusal, Variable};
use sheet_values::{Name, NoMemory};
use std::alloc::Global;

// `show n = e`
#[tactic(auto, unfolding(crate::specs::Parts::slot))]
fn slot(
    alloc: Global,
    sheet: &Sheet<'_>,
    variables: &[Variable],
    number: u32,
    written: &Show,
) -> Result<CoreSlot, TypeRefusal>
    ensures { Answers result (slot_of written.now (here sheet.now variables.now) number) }
{
    let name = written.name.copy()?;
    let shown = formula(alloc, sheet, variables, &written.shown)?;
    Ok(CoreSlot {
        number,
        name,
        shown: shown.core,
    })
}

// Slots in order, of which the first has that number.
fn slots(
    alloc: Global,
    sheet: &Sheet<'_>,
    variables: &[Variable],
    number: u32,
    written: &[Show],
) -> Result<CoreSlots, TypeRefusal>
    ensures { Answers result (slots_of written.now (here sheet.now variables.now) number) }
{
    let mut list = Sequence::new(alloc);
    let mut next = number;
    for show in written {
        match slot(alloc, sheet, variables, next, show) {
            Ok(slot) => {
                list.push(slot)?;
                next = after(next)?;
            }
            Err(refusal) => return Err(refusal),
        }
    }
    Ok(list)
}

// `table n = x in e { .. }`, where its slots aren't refused.
fn with_slots(
    number: u32,
    name: Name,
    source: Core,
    slots: Result<CoreSlots, TypeRefusal>,
) -> Result<CoreView, TypeRefusal>
    ensures { result ≡ slots_made slots (λ xs. CoreView.Table number name source xs) }
{
    match slots {
        Ok(slots) => Ok(CoreView::Table {
            number,
            name,
            source,
            slots,
        }),
        Err(refusal) => Err(refusal),
    }
}

// `table n = x in e { .. }`
#[tactic(auto, unfolding(crate::specs::Parts::table))]
fn table(
    alloc: Global,
    sheet: &Sheet<'_>,
    variables: &mut Vec<Variable>,
    number: u32,
    name: &Name,
    variable: &Name,
    source: &Tree,
    shows: &[Show],
) -> Result<CoreView, TypeRefusal>
    ensures told { Answers result (table_of name.now variable.now source.now shows.now (here sheet.now variables.old.items) number) }
    ensures same { OnOk result (variables.new.items ≡ variables.old.items) }
{
    let first = after(number)?;
    let name = name.copy()?;
    let variable = variable.copy()?;
    variables.reserve(1)?;
    let count = variables.len();
    let source = formula(alloc, sheet, variables.as_slice(), source)?;
    variables.push_reserved(Variable {
        name: variable,
        kind: source.kind,
    });
    let slots = slots(alloc, sheet, variables.as_slice(), first, shows);
    variables.truncate(count);
    with_slots(number, name, source.core, slots)
}

// A part of a view.
#[tactic(auto, unfolding(crate::specs::Parts::part_of))]
fn part(
    alloc: Global,
    sheet: &Sheet<'_>,
    variables: &mut Vec<Variable>,
    number: u32,
    written: &Part,
) -> Result<CoreView, TypeRefusal>
    ensures told { Answers result (part_of written.now (here sheet.now variables.old.items) number) }
    ensures same { OnOk result (variables.new.items ≡ variables.old.items) }
{
    match written {
        Part::Show(show) => {
            let slot = slot(alloc, sheet, variables.as_slice(), number, show)?;
            Ok(CoreView::Show(slot))
        }
        Part::Table {
            name,
            variable,
            source,
            shows,
            ..
        } => table(
            alloc,
            sheet,
            variables,
            number,
            name,
            variable,
            source,
            shows.as_slice(),
        ),
    }
}

// The number behind those of a part. One that fits no number is answered as want of memory.
fn behind(number: u32, part: &Part) -> Result<u32, NoMemory>
    ensures { IfOk result (λ next. next ≡ number + numbers_of part.now) }
{
    let first = after(number)?;
    match part {
        Part::Show(_) => Ok(first),
        Part::Table { shows, .. } => {
            let Ok(count) = u32::try_from(shows.len()) else {
                return Err(NoMemory);
            };
            match first.checked_add(count) {
                Some(next) => Ok(next),
                None => Err(NoMemory),
            }
        }
    }
}

/// The parts of a view in order, of which the first has the number 1.
pub(crate) fn parts(
    alloc: Global,
    sheet: &Sheet<'_>,
    variables: &mut Vec<Variable>,
    written: &[Part],
) -> Result<CoreParts, TypeRefusal>
    ensures { Answers result (parts_of written.now (here sheet.now variables.old.items) 1) }
{
    let mut list = Sequence::new(alloc);
    let mut next = 1;
    for one in written {
        match part(alloc, sheet, variables, next, one) {
            Ok(part) => {
                list.push(part)?;
                next = behind(next, one)?;
            }
            Err(refusal) => return Err(refusal),
        }
    }
    Ok(list)
}
