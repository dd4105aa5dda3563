// The statements of a session, drawn.
ghost use Rattle.std.specs.Prelude.{◌≡◌, ◌+◌, ◌<◌, ◌^◌, IfOk, OnOk, pos};
ghost use Rattle.drill.specs.Calls.{chosen, delete_drawn, get_drawn, insert_drawn, row_drawn, scan_drawn, statement_drawn, ten_from, text_drawn, update_drawn, value_drawn, values_drawn};

use crate::draws::Draws;
use crate::table::{number_name, table_name};
use mv_model::{Call, NoMemory, Pred, Test, Text, Value, Values};
use std::alloc::Global;

/// A number in a row.
fn draw_value(draws: &mut Draws) -> u8
    requires fits { draws.old.next + 1 < 2 ^ 32 }
    ensures drawn { result ≡ value_drawn draws.old.number draws.old.next }
    ensures taken { draws.new ≡ record draws.old { next = draws.old.next + 1 } }
{
    draws.take_below(200) as u8
}

/// The number of a row.
fn draw_row(draws: &mut Draws) -> u32
    requires fits { draws.old.next + 1 < 2 ^ 32 }
    ensures drawn { result ≡ row_drawn draws.old.number draws.old.next }
    ensures taken { draws.new ≡ record draws.old { next = draws.old.next + 1 } }
{
    draws.take_below(300) as u32
}

/// The text in a row.
fn draw_text(alloc: Global, draws: &mut Draws) -> Result<Text, NoMemory>
    requires fits { draws.old.next + 1 < 2 ^ 32 }
    ensures drawn { IfOk result (λ text. text ≡ text_drawn draws.old.number draws.old.next) }
    ensures taken { draws.new ≡ record draws.old { next = draws.old.next + 1 } }
{
    let number = draws.take_below(50);
    let text = format!(in alloc; "w{number}")?;
    Text::of(alloc, text.as_str().as_bytes())
}

/// The values of a row.
fn draw_values(alloc: Global, draws: &mut Draws) -> Result<Values, NoMemory>
    requires fits { draws.old.next + 2 < 2 ^ 32 }
    ensures drawn { IfOk result (λ values. values ≡ values_drawn draws.old.number draws.old.next) }
    ensures taken { OnOk result (draws.new ≡ record draws.old { next = draws.old.next + 2 }) }
{
    let mut values = Values::with_room(alloc, 2)?;
    let number = draw_value(draws);
    values.push(Value::Int(i64::from(number)));
    let text = draw_text(alloc, draws)?;
    values.push(Value::Text(text));
    Ok(Values::from(values))
}

fn draw_insert(alloc: Global, draws: &mut Draws) -> Result<Call, NoMemory>
    requires fits { draws.old.next + 2 < 2 ^ 32 }
    ensures drawn { IfOk result (λ call.
        record { call = call; next = draws.new.next } ≡ insert_drawn draws.old.number draws.old.next) }
    ensures same { OnOk result (draws.new.number ≡ draws.old.number) }
{
    let values = draw_values(alloc, draws)?;
    Ok(Call::Insert {
        table: table_name(),
        values,
    })
}

fn draw_update(alloc: Global, draws: &mut Draws) -> Result<Call, NoMemory>
    requires fits { draws.old.next + 3 < 2 ^ 32 }
    ensures drawn { IfOk result (λ call.
        record { call = call; next = draws.new.next } ≡ update_drawn draws.old.number draws.old.next) }
    ensures same { OnOk result (draws.new.number ≡ draws.old.number) }
{
    let row = draw_row(draws);
    let values = draw_values(alloc, draws)?;
    Ok(Call::Update {
        table: table_name(),
        row,
        values,
    })
}

fn draw_delete(draws: &mut Draws) -> Call
    requires fits { draws.old.next + 1 < 2 ^ 32 }
    ensures drawn { record { call = result; next = draws.new.next } ≡ delete_drawn draws.old.number draws.old.next }
    ensures same { draws.new.number ≡ draws.old.number }
{
    Call::Delete {
        table: table_name(),
        row: draw_row(draws),
    }
}

fn draw_get(draws: &mut Draws) -> Call
    requires fits { draws.old.next + 1 < 2 ^ 32 }
    ensures drawn { record { call = result; next = draws.new.next } ≡ get_drawn draws.old.number draws.old.next }
    ensures same { draws.new.number ≡ draws.old.number }
{
    Call::Get {
        table: table_name(),
        row: draw_row(draws),
    }
}

/// The rows with a number from this one to the ninth behind it.
fn ten_from(least: u8) -> Pred
    ensures { result ≡ ten_from least }
{
    let least = i64::from(least);
    Pred {
        column: number_name(),
        test: Test::Between(Value::Int(least), Value::Int(least + 9)),
    }
}

fn draw_scan(draws: &mut Draws) -> Call
    requires fits { draws.old.next + 1 < 2 ^ 32 }
    ensures drawn { record { call = result; next = draws.new.next } ≡ scan_drawn draws.old.number draws.old.next }
    ensures same { draws.new.number ≡ draws.old.number }
{
    Call::Scan {
        table: table_name(),
        pred: Some(ten_from(draw_value(draws))),
    }
}

/// The statement of a choice, 0 to 15.
fn draw_chosen(alloc: Global, choice: u64, draws: &mut Draws) -> Result<Call, NoMemory>
    requires fits { draws.old.next + 3 < 2 ^ 32 }
    ensures drawn { IfOk result (λ call.
        record { call = call; next = draws.new.next } ≡ chosen draws.old.number choice draws.old.next) }
    ensures same { OnOk result (draws.new.number ≡ draws.old.number) }
{
    match choice {
        0..=5 => draw_insert(alloc, draws),
        6 | 7 => draw_update(alloc, draws),
        8 => Ok(draw_delete(draws)),
        9 | 10 => Ok(draw_get(draws)),
        11 => Ok(draw_scan(draws)),
        12 => Ok(Call::Count {
            table: table_name(),
            pred: None,
        }),
        13 => Ok(Call::Sum {
            table: table_name(),
            column: number_name(),
            pred: None,
        }),
        14 => Ok(Call::Abort),
        _ => Ok(Call::Commit),
    }
}

/// What a session says that has a transaction open, or has none.
pub(crate) fn draw_statement(
    alloc: Global,
    is_open: bool,
    draws: &mut Draws,
) -> Result<Call, NoMemory>
    requires fits { draws.old.next + 4 < 2 ^ 32 }
    ensures drawn { IfOk result (λ call.
        record { call = call; next = draws.new.next } ≡ statement_drawn draws.old.number is_open draws.old.next) }
    ensures same { OnOk result (draws.new.number ≡ draws.old.number) }
{
    if !is_open {
        return Ok(Call::Begin);
    }
    let choice = draws.take_below(16);
    draw_chosen(alloc, choice, draws)
}
