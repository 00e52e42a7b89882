//! Prints the rows that a list of changes makes. The first line of standard input is `columns C`, each other one
//! `put KEY SETS` or `remove KEY`. A line that says nothing prints `bad line`, and one that breaks a limit `refused N`;
//! both change nothing. The last line printed is `rows K`, and each row as KEY:VERSION:VALUES.
#![tactic(auto)]

ghost use Rattle.std.specs.Prelude.{◌≡◌, IfOk};
ghost use Rattle.mtrows.specs.Lines.{change_said, line_said};

use anyhow::{Context, Result, bail};
use mt_rows::rows::after;
use mt_script::fault::LineError;
use mt_script::reading::read_request;
use mt_script::showing::push_answer;
use mt_types::event::{Answer, Request};
use mt_types::key::Key;
use mt_types::limits::{MAX_COLUMNS, request_fault};
use mt_types::row::Change;
use std::alloc::Global;

// What a line of input says.
#[derive(Drop)]
enum Line {
    Says(Change),
    Refused(u8),
    Bad,
}

// The change that a request asks for, if it asks for one. A conditional put is none: what it does depends on the rows.
fn change_of(request: Request) -> Result<Line>
    ensures { IfOk result (λ line. line ≡ change_said request) }
{
    match request {
        Request::Put { key, sets } => Ok(Line::Says(Change::Put(Key::new(key)?, sets))),
        Request::Remove { key } => Ok(Line::Says(Change::Drop(Key::new(key)?))),
        _ => Ok(Line::Bad),
    }
}

fn read(alloc: Global, columns: u8, text: &str) -> Result<Line>
    ensures { IfOk result (λ line. line ≡ line_said columns text.now) }
{
    match read_request(alloc, text.as_bytes()) {
        Ok(request) => match request_fault(columns, &request) {
            Some(refusal) => Ok(Line::Refused(refusal.number())),
            None => change_of(request),
        },
        Err(LineError::Bad) => Ok(Line::Bad),
        Err(LineError::Memory) => bail!("out of memory"),
    }
}

fn columns_of(text: &str) -> Result<u8> {
    let Some(number) = text.strip_prefix("columns ") else {
        bail!("the first line is `columns C`")
    };
    let columns = number.parse::<u8>().context("how many columns")?;
    if columns == 0 || u64::from(columns) > MAX_COLUMNS {
        bail!("an index has 1 to {MAX_COLUMNS} columns")
    }
    Ok(columns)
}

fn print_rows(rt: &(impl Print + AllocGlobal), columns: u8, changes: &[Change]) -> Result<()> {
    let rows = after(rt.alloc(), columns, changes)?;
    let all = rows.page(rt.alloc(), &Key::new(bytes::Bytes::new())?, rows.len())?;
    let mut text = String::new(rt.alloc());
    push_answer(rt.alloc(), &mut text, &Answer::Rows(all))?;
    rt.println(text)?;
    Ok(())
}

fn run(rt: &(impl Input + Print + AllocGlobal)) -> Result<()> {
    let mut columns = None;
    let mut changes = Vec::new(rt.alloc());
    for line in rt.lines(rt.alloc()) {
        let line = line?;
        let Some(count) = columns else {
            columns = Some(columns_of(line.as_str())?);
            continue;
        };
        match read(rt.alloc(), count, line.as_str())? {
            Line::Says(change) => changes.push(change)?,
            Line::Refused(number) => println!(rt; "refused {number}")?,
            Line::Bad => rt.println("bad line")?,
        }
    }
    let Some(count) = columns else {
        bail!("the first line is `columns C`")
    };
    print_rows(rt, count, changes.as_slice())
}

fn main(rt: HostRuntime) -> Result<()> {
    run(&rt)
}
