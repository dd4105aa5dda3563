use arrayvec::ArrayVec;
use csv_load::{LoadError, rows_text, typed_rows};
use mv_model::{Column, Kind, Name, NoMemory, Shape, Value, Values};
use sf_value::print_value;
use std::alloc::Global;
use std::test::Fail;

/// The columns `a`, `b` and so on, integers at an `i` and texts at a `t`.
fn shape_of(kinds: &str) -> Option<Shape> {
    let names = "abcdefghijklmnop";
    let mut columns = ArrayVec::new();
    for (i, kind) in kinds.bytes().enumerate() {
        let name = Name::read(names.get(i..i + 1)?)?;
        let kind = if kind == b'i' { Kind::Int } else { Kind::Text };
        columns.try_push(Column { name, kind }).ok()?;
    }
    Shape::of(columns)
}

/// The rows of a text of fewer than 40,000,000 bytes.
fn rows_of(alloc: Global, kinds: &str, text: &[u8]) -> Result<Vec<Values>, LoadError> {
    match shape_of(kinds) {
        Some(shape) if text.len() < 40_000_000 => typed_rows(alloc, text, &shape),
        _ => Err(LoadError::NoMemory),
    }
}

/// The values as scripts write them, with a bar behind each row.
fn spelled(alloc: Global, rows: &[Values]) -> Result<Vec<u8>, NoMemory> {
    let mut text = Vec::new(alloc);
    for row in rows {
        for value in row.as_slice() {
            print_value(value, &mut text)?;
            text.push(b' ')?;
        }
        text.push(b'|')?;
    }
    Ok(text)
}

fn refusal(alloc: Global, error: LoadError) -> Result<String, NoMemory> {
    match error {
        LoadError::WrongCount { nth } => format!(in alloc; "count {nth}"),
        LoadError::BadField { nth, column } => format!(in alloc; "field {nth} {column}"),
        LoadError::NoMemory => format!(in alloc; "memory"),
    }
}

/// Whether the text has these rows, or is refused so.
fn is_read_as(alloc: Global, kinds: &str, text: &[u8], said: &str) -> Result<bool, NoMemory> {
    match rows_of(alloc, kinds, text) {
        Ok(rows) => Ok(spelled(alloc, rows.as_slice())?.as_slice() == said.as_bytes()),
        Err(error) => Ok(refusal(alloc, error)?.as_str() == said),
    }
}

#[test]
fn records_and_fields(rt: HostRuntime) -> Result<(), Fail> {
    for (kinds, text, said) in [
        ("i", "7\n x", "field 2 1"),
        ("i", "7,8", "count 1"),
        ("i", "", ""),
        ("i", "a\n7\n", "field 1 1"),
        ("it", "7,\"a,b\"\n", "7 \"a,b\" |"),
        ("it", "7,\"say \"\"hi\"\"\"\n", "7 \"say \\\"hi\\\"\" |"),
        ("t", "a\"b\n", "\"a\\\"b\" |"),
        ("it", "7,a\n8,b", "7 \"a\" |8 \"b\" |"),
        ("it", "7,a\r\n8,b\r\n", "7 \"a\" |8 \"b\" |"),
        ("it", "7,\"a\nb\"\n8,c\n", "7 \"a\\nb\" |8 \"c\" |"),
        ("it", "7,\"a\r\nb\"\n8,c\n", "7 \"a\\r\\nb\" |8 \"c\" |"),
        ("tt", ",\n", "\"\" \"\" |"),
        ("t", "\"\"\n", "\"\" |"),
        ("t", "\n\r\na\n\n", "\"a\" |"),
        ("tt", "a b , c\n", "\"a b \" \" c\" |"),
        ("t", "\u{feff}a\n", "\"a\" |"),
        ("i", "\u{feff}7\n", "7 |"),
        ("t", "a\n\u{feff}b\n", "\"a\" |\"\u{feff}b\" |"),
    ] {
        assert!(rt; is_read_as(rt.alloc(), kinds, text.as_bytes(), said)?);
    }
    Ok(())
}

#[test]
fn integers_and_counts(rt: HostRuntime) -> Result<(), Fail> {
    for (kinds, text, said) in [
        ("i", "\"7\"", "7 |"),
        ("i", "-0", "0 |"),
        ("i", "-9223372036854775808", "-9223372036854775808 |"),
        ("i", "9223372036854775808", "field 1 1"),
        ("i", "+7", "field 1 1"),
        ("i", "7 ", "field 1 1"),
        ("i", "\"\"", "field 1 1"),
        ("ii", "7", "count 1"),
        ("ii", "1,2\nx\n", "count 2"),
        ("ii", "1,2\n3,x\n4\n", "field 2 2"),
        ("ii", "x,y\n", "field 1 1"),
        ("i", "7,\n", "count 1"),
        (
            "iiiiiiiiiiiiiiii",
            "1,2,3,4,5,6,7,8,9,10,11,12,13,14,15,16\n",
            "1 2 3 4 5 6 7 8 9 10 11 12 13 14 15 16 |",
        ),
        (
            "iiiiiiiiiiiiiiit",
            "1,2,3,4,5,6,7,8,9,10,11,12,13,14,x,16\n",
            "field 1 15",
        ),
    ] {
        assert!(rt; is_read_as(rt.alloc(), kinds, text.as_bytes(), said)?);
    }
    Ok(())
}

#[test]
fn bytes_that_are_no_text(rt: HostRuntime) -> Result<(), Fail> {
    let alloc = rt.alloc();
    assert!(rt; is_read_as(alloc, "tt", b"a,\xff\n".as_slice(), "field 1 2")?);
    assert!(rt; is_read_as(alloc, "i", b"\xff".as_slice(), "field 1 1")?);
    assert!(rt; is_read_as(alloc, "t", b"a\n\xff,\xff\n".as_slice(), "count 2")?);
    Ok(())
}

/// So many times the character.
fn repeated(alloc: Global, character: char, times: usize) -> Result<String, NoMemory> {
    let mut text = String::new(alloc);
    for _ in 0..times {
        text.push(character)?;
    }
    Ok(text)
}

/// Whether a text of so many times the character is read as itself, or refused as a bad field.
fn is_settled(alloc: Global, character: char, times: usize, taken: bool) -> Result<bool, NoMemory> {
    let text = repeated(alloc, character, times)?;
    let said = if taken {
        format!(in alloc; "\"{}\" |", text.as_str())?
    } else {
        format!(in alloc; "field 1 1")?
    };
    is_read_as(alloc, "t", text.as_str().as_bytes(), said.as_str())
}

#[test]
fn texts_of_up_to_2000_bytes(rt: HostRuntime) -> Result<(), Fail> {
    for (character, times, taken) in [
        ('x', 2_000, true),
        ('x', 2_001, false),
        ('\u{20ac}', 666, true),
        ('\u{20ac}', 667, false),
    ] {
        assert!(rt; is_settled(rt.alloc(), character, times, taken)?);
    }
    Ok(())
}

/// A text of so many records of six fields.
fn sales(alloc: Global, records: u32) -> Result<String, NoMemory> {
    let mut text = String::new(alloc);
    for i in 0..records {
        let (customer, city, day) = (i % 1_000, i % 50, 20_000 + i % 365);
        let (quantity, price) = (i % 100, 100 + u64::from(i) * 37 % 500);
        let record = format!(in alloc;
            "{i},customer-{customer},city-{city},{quantity},{price},{day}\n"
        )?;
        text.push_str(record.as_str())?;
    }
    Ok(text)
}

/// The text of the rows.
fn printed(alloc: Global, rows: &[Values]) -> Result<Vec<u8>, NoMemory> {
    let mut slices: Vec<&[Value]> = Vec::new(alloc);
    for row in rows {
        slices.push(row.as_slice())?;
    }
    rows_text(alloc, slices.as_slice())
}

/// The rows of two texts, of one field and of two, are written one after the other.
fn is_written_in_turn(alloc: Global) -> Result<bool, LoadError> {
    let mut rows = rows_of(alloc, "i", b"7\n")?;
    for row in rows_of(alloc, "it", b"8,\"a,b\"\n")? {
        rows.push(row)?;
    }
    let text = printed(alloc, rows.as_slice())?;
    Ok(text.as_slice() == b"7\n8,\"a,b\"\n".as_slice())
}

#[test]
fn rows_of_other_lengths(rt: HostRuntime) -> Result<(), Fail> {
    assert!(rt; is_written_in_turn(rt.alloc())?);
    Ok(())
}

/// A record of each number of columns, integers and texts in turn.
const WIDTHS: [(&str, &str); 16] = [
    ("i", "1\n"),
    ("it", "1,b\n"),
    ("iti", "1,b,3\n"),
    ("itit", "1,b,3,d\n"),
    ("ititi", "1,b,3,d,5\n"),
    ("ititit", "1,b,3,d,5,f\n"),
    ("itititi", "1,b,3,d,5,f,7\n"),
    ("itititit", "1,b,3,d,5,f,7,h\n"),
    ("ititititi", "1,b,3,d,5,f,7,h,9\n"),
    ("ititititit", "1,b,3,d,5,f,7,h,9,j\n"),
    ("itititititi", "1,b,3,d,5,f,7,h,9,j,11\n"),
    ("itititititit", "1,b,3,d,5,f,7,h,9,j,11,l\n"),
    ("ititititititi", "1,b,3,d,5,f,7,h,9,j,11,l,13\n"),
    ("ititititititit", "1,b,3,d,5,f,7,h,9,j,11,l,13,n\n"),
    ("itititititititi", "1,b,3,d,5,f,7,h,9,j,11,l,13,n,15\n"),
    ("itititititititit", "1,b,3,d,5,f,7,h,9,j,11,l,13,n,15,p\n"),
];

/// How many values the text's only row has, if it is written as the text again.
fn width(alloc: Global, kinds: &str, text: &[u8]) -> Result<usize, LoadError> {
    let rows = rows_of(alloc, kinds, text)?;
    let written = printed(alloc, rows.as_slice())?;
    match rows.as_slice() {
        [row] if written.as_slice() == text => Ok(row.as_slice().len()),
        _ => Ok(0),
    }
}

#[test]
fn one_to_sixteen_columns(rt: HostRuntime) -> Result<(), Fail> {
    for (kinds, text) in WIDTHS {
        let width = width(rt.alloc(), kinds, text.as_bytes())?;
        assert_eq!(rt; width, kinds.len());
    }
    Ok(())
}

/// Whether each text is refused for its count wherever there are more or fewer columns.
fn are_refused_elsewhere(alloc: Global) -> Result<bool, NoMemory> {
    for (kinds, _) in WIDTHS {
        for (others, text) in WIDTHS {
            if kinds != others && !is_read_as(alloc, kinds, text.as_bytes(), "count 1")? {
                return Ok(false);
            }
        }
    }
    Ok(true)
}

#[test]
fn one_to_sixteen_columns_and_no_other_number(rt: HostRuntime) -> Result<(), Fail> {
    assert!(rt; are_refused_elsewhere(rt.alloc())?);
    Ok(())
}

/// How many rows the text has, if they are written as the text again, and these read and written once more.
fn round_trip(alloc: Global, text: &[u8]) -> Result<usize, LoadError> {
    let rows = rows_of(alloc, "ittiii", text)?;
    let written = printed(alloc, rows.as_slice())?;
    let again = rows_of(alloc, "ittiii", written.as_slice())?;
    let rewritten = printed(alloc, again.as_slice())?;
    if written.as_slice() == text && rewritten.as_slice() == text {
        Ok(again.len())
    } else {
        Ok(0)
    }
}

#[test]
fn twenty_thousand_records(rt: HostRuntime) -> Result<(), Fail> {
    let text = sales(rt.alloc(), 20_000)?;
    assert_eq!(rt; round_trip(rt.alloc(), text.as_str().as_bytes())?, 20_000);
    Ok(())
}
