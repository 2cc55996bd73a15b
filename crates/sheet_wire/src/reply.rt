// Replies as JSON.
ghost use Rattle.std.specs.Prelude.{◌≡◌, codes, IfOk, IfErr, OnOk, IsErr};
ghost use Rattle.serde_json.specs.Events.{SendsValue};
ghost use Rattle.serde_json.specs.View.{view};
ghost use Rattle.sheet_requests.specs.Bodies.{field, list_data, item_data, answer_data, stats_data, reply_data, body};
ghost use Rattle.sheet_requests.specs.declared.reply.Answer.TheVariants.{Values, Caller};

use crate::page::send_page;
use crate::path::path_of;
use crate::refusal::{refusal_json, wire_json};
use crate::value::send_values;
use serde::{Described, Serialize, Serializer};
use serde_json::{Value as Json, json, to_vec};
use sheet_columns::{Columns, Item};
use sheet_requests::{Answer, Reply};
use sheet_values::{NoMemory, Value};
use std::alloc::Global;

/// The body of a reply: compact JSON with the fields in the order of their bytes. A column that isn't there has the
/// empty path.
pub fn print_reply(alloc: Global, columns: &Columns, reply: &Reply) -> Result<Vec<u8>, NoMemory>
    ensures { IfOk result (λ text. text.items ≡ body columns.now reply.now) }
{
    let body = Body {
        alloc,
        columns,
        reply,
    };
    match to_vec(alloc, &body) {
        Ok(text) => Ok(text),
        // (nothing that a reply has is refused but for want of memory)
        Err(_) => Err(NoMemory),
    }
}

// The body of a reply, which is sent as its data.
#[derive(Clone, Copy)]
struct Body<'a> {
    alloc: Global,
    columns: &'a Columns,
    reply: &'a Reply,
}

impl Described for Body<'_> {
    ghost writes = { λ b. SendsValue (reply_data b.columns.now b.reply.now) };
}

impl Serialize for Body<'_> {
    fn serialize<S: Serializer>(&self, out: &mut S) -> Result<(), S::Error> {
        send_reply(self.alloc, self.columns, self.reply, out)
    }
}

fn send_reply<S: Serializer>(
    alloc: Global,
    columns: &Columns,
    reply: &Reply,
    out: &mut S,
) -> Result<(), S::Error>
    ensures { OnOk result (SendsValue (reply_data columns.now reply.now) (S.written out.old) (S.written out.new)) }
{
    match reply {
        Reply::Accepted { number, answer } | Reply::Kept { number, answer } => {
            send_answer(*number, answer, out)
        }
        Reply::Page(page) => send_page(alloc, columns, page.as_slice(), out),
        Reply::Reads(items) => send_json(reads_json(alloc, columns, items.as_slice()), out),
        Reply::Stats {
            accepted,
            callers,
            kept,
            objects,
        } => send_json(stats_json(alloc, *accepted, *callers, *kept, *objects), out),
        Reply::Wire(refusal) => send_json(wire_json(alloc, refusal), out),
        Reply::Refused(refusal) => send_json(refusal_json(alloc, columns, refusal), out),
    }
}

// Sends what was made. It fails too where there was no memory to make it.
fn send_json<S: Serializer>(made: Result<Json, NoMemory>, out: &mut S) -> Result<(), S::Error>
    ensures sent { IfOk made (λ v. OnOk result (SendsValue (view v) (S.written out.old) (S.written out.new))) }
    ensures failed { IfErr made (λ e. IsErr result) }
{
    match made {
        Ok(json) => json.serialize(out),
        Err(NoMemory) => Err(out.custom("no memory")),
    }
}

fn send_answer<S: Serializer>(number: u64, answer: &Answer, out: &mut S) -> Result<(), S::Error>
    ensures { OnOk result (SendsValue (answer_data number answer.now) (S.written out.old) (S.written out.new)) }
{
    match answer {
        Answer::Values(set) => send_values_answer(number, set.as_slice(), out),
        Answer::Caller(caller) => send_caller_answer(number, *caller, out),
    }
}

fn send_values_answer<S: Serializer>(
    number: u64,
    values: &[Value],
    out: &mut S,
) -> Result<(), S::Error>
    ensures { OnOk result (SendsValue (answer_data number (Values values.now)) (S.written out.old) (S.written out.new)) }
{
    out.begin_map(Some(2))?;
    out.key("number")?;
    out.u64(number)?;
    out.key("reply")?;
    send_values(values, out)?;
    out.end_map()
}

fn send_caller_answer<S: Serializer>(number: u64, caller: u32, out: &mut S) -> Result<(), S::Error>
    ensures { OnOk result (SendsValue (answer_data number (Caller caller)) (S.written out.old) (S.written out.new)) }
{
    out.begin_map(Some(2))?;
    out.key("caller")?;
    out.u64(u64::from(caller))?;
    out.key("number")?;
    out.u64(number)?;
    out.end_map()
}

fn stats_json(
    alloc: Global,
    accepted: u64,
    callers: u32,
    kept: u64,
    objects: u64,
) -> Result<Json, NoMemory>
    ensures { IfOk result (λ v. view v ≡ stats_data accepted callers kept objects) }
{
    Ok(
        json!(in alloc; {"accepted": accepted, "callers": callers, "kept": kept, "objects": objects})?,
    )
}

fn reads_json(alloc: Global, columns: &Columns, items: &[Item]) -> Result<Json, NoMemory>
    ensures { IfOk result (λ v. view v ≡ field (codes "reads") (list_data (item_data columns.now) items.now)) }
{
    let items = items_json(alloc, columns, items)?;
    Ok(json!(in alloc; {"reads": items})?)
}

fn items_json(alloc: Global, columns: &Columns, items: &[Item]) -> Result<Json, NoMemory>
    ensures { IfOk result (λ v. view v ≡ list_data (item_data columns.now) items.now) }
{
    let mut list = Vec::new(alloc);
    for item in items {
        list.push(item_json(alloc, columns, *item)?)?;
    }
    Ok(Json::Array(list))
}

fn item_json(alloc: Global, columns: &Columns, item: Item) -> Result<Json, NoMemory>
    ensures { IfOk result (λ v. view v ≡ item_data columns.now item) }
{
    match item {
        Item::Live(object) => Ok(json!(in alloc; ["live", object])?),
        Item::Up(object) => Ok(json!(in alloc; ["up", object])?),
        Item::Extent(object, column) => {
            let path = path_of(alloc, columns, column)?;
            Ok(json!(in alloc; ["extent", object, path.text()])?)
        }
        Item::Stored(object, column) => {
            let path = path_of(alloc, columns, column)?;
            Ok(json!(in alloc; ["stored", object, path.text()])?)
        }
    }
}
