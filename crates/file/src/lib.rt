// Grounds 1 and 2: a file as lines of twelve fields and a newline, and the numbers of its lines, laid into a table.
#![tactic(auto)]

ghost use Rattle.std.specs.Prelude.{◌≡◌, true, ◌+◌, ◌*◌, ◌≤◌, ◌<◌, length, replicate};
ghost use Rattle.numbers.specs.Bytes.{shorts};
ghost use Rattle.numbers.specs.Laid.{laid};
ghost use Rattle.numbers.specs.Search.{first};
ghost use Rattle.table.specs.Table.{max_rows, row_numbers, table_numbers, table_of};
ghost use Rattle.file.specs.File.{line_length, not_lines, well_formed, malformed, file_table, number_in};
ghost use Rattle.file.specs.EmptyFile.{ending_text};

// The characters of a line.
pub const LINE: usize = text::LINE;

// The fields of a line, laid into the table behind the fields of the lines before; whether all of the line is well formed.
#[tactic(auto, using(crate::proofs::Lines::fields_read))]
fn read_line(file: &[u8], table: &mut [u8], line: usize) -> bool
    requires line_lt_max_rows { line < max_rows }
    requires line_length_in_bounds { line * line_length + line_length ≤ length file.now }
    requires table_value { shorts table.old ≡ laid (number_in file.now) (line * row_numbers) table_numbers }
    ensures value { result ≡ well_formed file.now line }
    ensures table_after { result ≡ true → shorts table.new ≡ laid (number_in file.now) (line * row_numbers + row_numbers) table_numbers }
{
    for column in 0..table::ROW_NUMBERS {
        match text::read_field(text::field(file, line, column)) {
            Some(v) => numbers::put_short(table, line * table::ROW_NUMBERS + column, v),
            None => return false,
        }
    }
    file[line * LINE + table::ROW_NUMBERS * text::FIELD] == b'\n'
}

// The lines of a file, laid into a table of zeros; the first malformed line, n where there is none.
#[tactic(auto, using(crate::proofs::Lines::lines_read))]
pub fn read_lines(file: &[u8], table: &mut [u8], n: usize) -> usize
    requires n_le_max_rows { n ≤ max_rows }
    requires line_length_in_bounds { n * line_length ≤ length file.now }
    requires table_value { shorts table.old ≡ laid (number_in file.now) 0 table_numbers }
    ensures value { result ≡ first (malformed file.now) n }
    ensures table_after { result ≡ n → shorts table.new ≡ laid (number_in file.now) (n * row_numbers) table_numbers }
{
    for line in 0..n {
        if !read_line(file, table, line) {
            return line;
        }
    }
    n
}

// Ground 1: whether the file is anything but 1 to 865 whole lines.
#[tactic(auto, unfolding(crate::specs::File::not_lines))]
pub fn not_lines(file: &[u8]) -> bool
    ensures { result ≡ not_lines file.now }
{
    !(1..=table::MAX_ROWS).contains(&(file.len() / LINE)) || file.len() % LINE != 0
}

// The rows of the procedure that ends, for which a file of no bytes stands, laid into a table of zeros: a header that counts one definition and one node,
// the definition, and its node, an end.
pub fn lay_ending(table: &mut [u8])
    requires { shorts table.old ≡ replicate table_numbers 0 }
    ensures { table_of table.new ≡ file_table ending_text }
{
    let definition = table::ROW_NUMBERS;
    let node = 2 * table::ROW_NUMBERS;
    numbers::put_short(table, table::field::KIND, 1);
    numbers::put_short(table, table::field::DEFINITIONS, 1);
    numbers::put_short(table, table::field::NODES, 1);
    numbers::put_short(table, definition + table::field::KIND, 3);
    numbers::put_short(table, definition + table::field::OWN_NODES, 1);
    numbers::put_short(table, node + table::field::KIND, 5);
}
