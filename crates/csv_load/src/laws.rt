//! Laws of the texts, each the contract of a function that does nothing.
ghost use Rattle.csv_load.specs.Laws.{NamesFirstBad, TypesEach};
ghost use Rattle.csv_load.specs.Written.{ReadsBack};

/// The text of rows of a table is read as these rows.
pub fn written_rows_read_back()
    ensures { ReadsBack }
{}

/// A text that is refused is refused for its first record that is no row: the count of its fields where that is wrong,
/// and else the first field that is no value.
pub fn first_bad_record_is_named()
    ensures { NamesFirstBad }
{}

/// The rows of a text are its records, each at its place, value by value.
pub fn each_record_is_typed()
    ensures { TypesEach }
{}
