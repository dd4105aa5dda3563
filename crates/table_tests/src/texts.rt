//! Texts in rows and predicates, and their copies.
use mv_model::{Name, NoMemory, Pred, Reply, RowList, TableRow, Test, Text, Value, Values};
use std::alloc::Global;
use std::test::Fail;

fn text_row(alloc: Global) -> Result<TableRow, NoMemory> {
    let mut list = Values::with_room(alloc, 1)?;
    list.push(Value::Text(Text::of(alloc, b"say")?));
    Ok(TableRow {
        row: 5,
        values: Values::from(list),
    })
}

fn rows(alloc: Global) -> Result<Reply, NoMemory> {
    let mut rows = RowList::with_room(alloc, 1)?;
    rows.push(text_row(alloc)?);
    Ok(Reply::Rows(RowList::from(rows)))
}

fn is_say(value: &Value) -> bool {
    match value {
        Value::Text(text) => text.as_str() == "say",
        Value::Int(_) => false,
    }
}

fn is_say_alone(values: &Values) -> bool {
    match values.as_slice() {
        [value] => is_say(value),
        _ => false,
    }
}

/// Whether the reply is row 5 with the text alone.
fn is_text_row(reply: &Reply) -> bool {
    let Reply::Rows(rows) = reply else {
        return false;
    };
    match rows.as_slice() {
        [row] => row.row == 5 && is_say_alone(&row.values),
        _ => false,
    }
}

fn is_copied(reply: &Reply) -> Result<bool, NoMemory> {
    let copy = reply.copy()?;
    let same = is_text_row(&copy);
    drop(copy);
    Ok(same)
}

#[test]
fn rows_are_copied(rt: HostRuntime) -> Result<(), Fail> {
    let reply = rows(rt.alloc())?;
    let copied = is_copied(&reply);
    drop(reply);
    assert!(rt; copied?);
    Ok(())
}

fn is_copied_pred(pred: &Pred) -> Result<bool, NoMemory> {
    let copy = pred.copy()?;
    let same = copy == *pred;
    drop(copy);
    Ok(same)
}

#[test]
fn predicates_are_copied(rt: HostRuntime) -> Result<(), Fail> {
    let pred = Pred {
        column: Name::default(),
        test: Test::Below(Value::Int(3)),
    };
    let copied = is_copied_pred(&pred);
    drop(pred);
    assert!(rt; copied?);
    Ok(())
}
