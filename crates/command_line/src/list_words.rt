// The request that the words of `list` make.
ghost use Rattle.std.specs.Prelude.{◌≡◌, IfOk, option_map};
ghost use Rattle.std.specs.Option.{option_copied};
ghost use Rattle.command_words.specs.Words.{text_in};
ghost use Rattle.command_line.specs.Asking as asking;

use crate::asked::text_if;
use archive_files::Refusal;
use case_listing::ListWords;
use case_tables::{Order, Wanted, Zone, read_signal};
use command_words::Given;
use journal_layout::Kind;

// The request of these words.
pub(crate) fn list_words<'a>(given: &Given<'a>) -> Result<ListWords<'a>, Refusal>
    ensures listed { IfOk result (asking.IsListed given.now) }
{
    Ok(ListWords {
        wanted: Wanted {
            kind: kind_said(given.text("kind"))?,
            numbers: None,
            name: text_said(given, "name")?,
            pid: number_said(given.number("pid"))?,
            user: number_said(given.number("user"))?,
            program: text_said(given, "program")?,
            signal: signal_said(given.text("signal"))?,
            since: None,
            until: None,
            label: text_said(given, "label")?,
            pinned: given.flag("pinned"),
            last: count_said(given.number("last")),
            order: order_said(given.text("sort"))?,
            zone: Zone::Utc,
        },
        since: given.text("since"),
        until: given.text("until"),
        is_json: given.flag("json"),
        by_lines: given.flag("json-lines"),
    })
}

fn text_said<'a>(given: &Given<'a>, name: &str) -> Result<Option<&'a [u8]>, Refusal>
    ensures { IfOk result (λ text. option_map (λ (t : _). t.now) text ≡ text_in given.now name.now) }
{
    match text_if(given, name)? {
        Some(text) => Ok(Some(text.as_bytes())),
        None => Ok(None),
    }
}

fn kind_said(text: Option<&str>) -> Result<Option<Kind>, Refusal>
    ensures { IfOk result (asking.IsKind (option_copied text.entry)) }
{
    let Some(text) = text else {
        return Ok(None);
    };
    if text == "core" {
        return Ok(Some(Kind::Core));
    }
    if text == "exec" {
        return Ok(Some(Kind::Exec));
    }
    Err(Refusal::BadLine)
}

// A number of 32 bits, if there is one.
fn number_said(number: Option<u64>) -> Result<Option<u32>, Refusal>
    ensures { IfOk result (λ said. said ≡ number) }
{
    let Some(number) = number else {
        return Ok(None);
    };
    match u32::try_from(number) {
        Ok(number) => Ok(Some(number)),
        Err(_) => Err(Refusal::BadLine),
    }
}

fn order_said(text: Option<&str>) -> Result<Order, Refusal>
    ensures { IfOk result (asking.IsOrder (option_copied text.entry)) }
{
    let Some(text) = text else {
        return Ok(Order::Number);
    };
    if text == "time" {
        return Ok(Order::Time);
    }
    if text == "size" {
        return Ok(Order::Size);
    }
    if text == "name" {
        return Ok(Order::Name);
    }
    Err(Refusal::BadLine)
}

fn signal_said(text: Option<&str>) -> Result<Option<u32>, Refusal>
    ensures { IfOk result (asking.IsThereWith (option_copied text.entry)) }
{
    let Some(text) = text else {
        return Ok(None);
    };
    match read_signal(text) {
        Some(signal) => Ok(Some(signal)),
        None => Err(Refusal::BadLine),
    }
}

fn count_said(count: Option<u64>) -> Option<usize>
    ensures { result ≡ count }
{
    match count {
        Some(count) => Some(count as usize),
        None => None,
    }
}
