ghost use Rattle.std.specs.Prelude.{◌≡◌, ◌<◌, ◌≤◌, ◌+◌, ◌-◌, ◌^◌, ◌++◌, ◌∷◌, [], false, length, take, All, IsTrue, Ok, Err, IfOk, IfErr, OnOk, slice_index_or};
ghost use Rattle.std.specs.List.{list_any, AllByRecursion};
ghost use Rattle.net_model.specs.Rules.{names_of};
ghost use Rattle.func_table.specs.Table.{table};
ghost use Rattle.func_table.specs.Rules.{IsTable};
ghost use Rattle.func_table.specs.Function.{table_function};
ghost use Rattle.func_table.specs.Sound.{AreSound};
ghost use Rattle.spike_eval.specs.Outputs.{output_function};
ghost use Rattle.causality.specs.Window.{time_lists, is_start, window_lists, entry_at, row_at, window_rows, IsInReach, IsCause};
ghost use Rattle.causality.specs.Reached.{time_of};
ghost use Rattle.causality.specs.Walk.{IsWithin, window_time, is_earliest, is_first, valued, visited, walked, behind, Gives};

use crate::fault::TabError;
use crate::output::Output;
use func_table::{Row, Table, the_matching_row_decides};
use net_model::Network;
use rl_text::copy_names;
use rl_time::{NoMemory, Time};
use spike_eval::outputs_are_causal;
use std::alloc::Global;

/// The table of a network's output at a place, from 0, within a window of cycles: at the lists of times from 0 to
/// `window`, or never, of which the least is 0. They are walked with the first input slowest, and never last. A list at
/// which the output is a number gives a row, in which each time greater than that is `-`; a row that is there already isn't
/// repeated. `TooWide` is answered if there are more than 65,536 lists of such times; else `TooLate` with the first value that
/// is greater than 255; else `TooManyRows` where there are more than 256 rows. Each list is valued once.
pub fn tabulate(alloc: Global, n: &Network, out: u32, window: u32) -> Result<Table, TabError>
    requires output { out < length n.now.outputs }
    requires small { window ≤ 1000000 }
    ensures inputs { IfOk result (λ t. t.inputs ≡ n.now.inputs) }
    ensures output { IfOk result (λ t. t.output ≡ slice_index_or (names_of n.now.outputs) out []) }
    ensures rows { IfOk result (λ t. t.rows ≡ window_rows (output_function n.now out) window (length n.now.inputs)) }
    ensures reach { OnOk result (IsInReach (output_function n.now out) window (length n.now.inputs)) }
    ensures sound { IfOk result (λ t. AreSound t.rows) }
    ensures values { IfOk result (λ t. All (λ v. table_function t.rows v ≡ output_function n.now out v) (window_lists window (length n.now.inputs))) }
    ensures cause { IfErr result (IsCause (output_function n.now out) window (length n.now.inputs)) }
{
    n.rules();
    the_matching_row_decides();
    outputs_are_causal();
    let inputs = n.inputs().len();
    if is_too_wide(window, inputs) {
        return Err(TabError::TooWide);
    }
    let rows = window_rows(alloc, n, out, window)?;
    if rows.len() > 256 {
        return Err(TabError::TooManyRows);
    }
    Ok(named(alloc, n, out, rows)?)
}

/// Whether there are more than 65,536 lists of the window's times.
fn is_too_wide(window: u32, inputs: usize) -> bool
    requires small { window ≤ 1000000 }
    requires few { inputs ≤ 64 }
    ensures wide { IsTrue result → 65536 < (window + 2) ^ inputs }
    ensures narrow { result ≡ false → (window + 2) ^ inputs ≤ 65536 }
{
    u64::from(window + 2).saturating_pow(inputs as u32) > 65536
}

/// The table of these rows, under the network's names.
fn named(alloc: Global, n: &Network, out: u32, rows: Vec<Row>) -> Result<Table, NoMemory>
    requires output { out < length n.now.outputs }
    requires table { IsTable (table n.now.inputs (slice_index_or (names_of n.now.outputs) out []) rows.items) }
    ensures { IfOk result (λ t. t ≡ table n.now.inputs (slice_index_or (names_of n.now.outputs) out []) rows.items) }
{
    let inputs = copy_names(alloc, n.inputs())?;
    let output = n.outputs()[out as usize].name().copy(alloc)?;
    Ok(Table::new(inputs, output, rows))
}

/// The rows of a window.
fn window_rows(alloc: Global, n: &Network, out: u32, last: u32) -> Result<Vec<Row>, TabError>
    requires output { out < length n.now.outputs }
    requires small { last ≤ 1000000 }
    ensures rows { IfOk result (λ rows.
        walked (output_function n.now out) last [] (time_lists last (length n.now.inputs)) ≡ Ok rows.items) }
    ensures late { IfErr result (λ e. Gives (walked (output_function n.now out) last [] (time_lists last (length n.now.inputs))) [] (Err e)) }
{
    n.rules();
    let mut output = Output::new(alloc, n, out)?;
    let mut list = nevers(alloc, n.inputs().len())?;
    let mut rows = Vec::new(alloc);
    walk(alloc, &mut output, last, 0, &mut list, &mut rows)?;
    Ok(rows)
}

fn nevers(alloc: Global, count: usize) -> Result<Vec<Time>, NoMemory>
    requires { count ≤ 64 }
    ensures { IfOk result (λ list. length list.items ≡ count) }
{
    Ok(vec![in alloc; Time::Never; count]?)
}

/// Walks through the lists that begin as this one does up to a place, and puts their new rows last.
fn walk(
    alloc: Global,
    output: &mut Output,
    last: u32,
    place: usize,
    list: &mut [Time],
    rows: &mut Vec<Row>,
) -> Result<(), TabError>
    requires small { last ≤ 1000000 }
    requires place { place ≤ length list.old }
    requires within { AllByRecursion (IsWithin last) (take place list.old) }
    ensures rows { Gives (walked (time_of output.old) last rows.old.items (behind (take place list.old) (time_lists last (length list.old - place)))) rows.new.items result }
    ensures front { take place list.new ≡ take place list.old }
    ensures length { length list.new ≡ length list.old }
    ensures output { output.new ≡ output.old }
{
    if place == list.len() {
        return visit(alloc, output, last, list, rows);
    }
    for step in 0..last + 2 {
        list[place] = window_time(last, step);
        walk(alloc, output, last, place + 1, list, rows)?;
    }
    Ok(())
}

fn window_time(last: u32, step: u32) -> Time
    ensures { result ≡ window_time last step }
{
    if step <= last {
        Time::At(u64::from(step))
    } else {
        Time::Never
    }
}

/// Puts the row of one list last, where it is new.
fn visit(
    alloc: Global,
    output: &mut Output,
    last: u32,
    list: &[Time],
    rows: &mut Vec<Row>,
) -> Result<(), TabError>
    requires small { last ≤ 1000000 }
    requires within { AllByRecursion (IsWithin last) list.now }
    ensures rows { Gives (visited (time_of output.old) last rows.old.items list.now) rows.new.items result }
    ensures output { output.new ≡ output.old }
{
    if !has_start(list) {
        return Ok(());
    }
    match output_time(output, last, list) {
        Time::Never => Ok(()),
        Time::At(y) if y > 255 => Err(TabError::TooLate(y)),
        Time::At(y) => {
            if is_first(last, y as u8, list) {
                put_row(alloc, y as u8, list, rows)?;
            }
            Ok(())
        }
    }
}

/// The output's time, at times within a window.
fn output_time(output: &mut Output, last: u32, list: &[Time]) -> Time
    requires small { last ≤ 1000000 }
    requires within { AllByRecursion (IsWithin last) list.now }
    ensures time { result ≡ time_of output.old list.now }
    ensures output { output.new ≡ output.old }
{
    output.time(list)
}

fn is_start(time: Time) -> bool
    ensures { result ≡ is_start time }
{
    matches!(time, Time::At(0))
}

/// Whether the least of some times is 0.
fn has_start(list: &[Time]) -> bool
    ensures { result ≡ list_any is_start list.now }
{
    list.iter().any(|time| is_start(*time))
}

/// Whether no list before this one in the walk has the same row, which has this output. A list that differs from this one
/// only in times after the output has the same row, and the walk meets the one with the earliest such times first.
fn is_first(last: u32, out: u8, list: &[Time]) -> bool
    requires small { last ≤ 1000000 }
    ensures { result ≡ is_first last out list.now }
{
    list.iter().all(|time| is_earliest(last, out, *time))
}

/// Whether a time isn't after the output, or is the first of the window that is.
fn is_earliest(last: u32, out: u8, time: Time) -> bool
    ensures { result ≡ is_earliest last out time }
{
    match time {
        Time::At(a) => a <= u64::from(out) + 1,
        Time::Never => last <= u32::from(out),
    }
}

fn put_row(alloc: Global, out: u8, list: &[Time], rows: &mut Vec<Row>) -> Result<(), NoMemory>
    ensures { OnOk result (rows.new.items ≡ rows.old.items ++ row_at out list.now ∷ []) }
{
    let row = row_at(alloc, out, list)?;
    rows.push(row)?;
    Ok(())
}

/// The row of a list at which the output is this.
fn row_at(alloc: Global, out: u8, list: &[Time]) -> Result<Row, NoMemory>
    ensures { IfOk result (λ r. r ≡ row_at out list.now) }
{
    let mut entries = Vec::new(alloc);
    for time in list {
        entries.push(entry_at(out, *time))?;
    }
    Ok(Row::new(entries, out))
}

fn entry_at(out: u8, time: Time) -> Option<u8>
    ensures { result ≡ entry_at out time }
{
    match time {
        Time::At(a) if a <= u64::from(out) => Some(a as u8),
        _ => None,
    }
}
