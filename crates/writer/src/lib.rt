// Writing a procedure file (document 02, S-1): the printed form of a table, laid into the caller's buffer. Grounds 8, 9 and 15.
#![tactic(auto)]

ghost use Rattle.std.specs.Prelude.{◌≡◌, [], ◌+◌, ◌*◌, ◌≤◌, ◌<◌, length, get_or, take};
ghost use Rattle.std.proofs.lemmas.List.Edits.{sets};
ghost use Rattle.text.specs.Text.{line_length, line_text, file_text};
ghost use Rattle.table.specs.Table.{max_rows};
ghost use Rattle.writer.specs.Write.{Whole, Outcome, write_call};

use table::Table;

// Why a write is refused: a buffer's length, the table, or no room for the file.
#[derive(Clone, Copy, PartialEq, Eq)]
pub enum WriteRefusal {
    WrongLength,
    WrongTable,
    ShortBuffer,
}

// A row of the table as a line, laid into the buffer behind the lines of the rows before.
fn put_line(table: &Table, file: &mut [u8], line: usize)
    requires whole { Whole table.now }
    requires line_lt_max_rows { line < max_rows }
    requires line_length_in_bounds { line * line_length + line_length ≤ length file.old }
    ensures { file.new ≡ sets file.old (line * line_length) (line_text (get_or table.now line [])) }
{
    let at = line * text::LINE;
    for column in 0..table::ROW_NUMBERS {
        let number = table.cell(line, column);
        text::put_field(file, at + column * text::FIELD, number as u16);
    }
    file[at + table::ROW_NUMBERS * text::FIELD] = b'\n';
}

// The first n rows of the table as lines, laid into the buffer from its front.
fn put_lines(table: &Table, file: &mut [u8], n: usize)
    requires whole { Whole table.now }
    requires n_le_max_rows { n ≤ max_rows }
    requires line_length_in_bounds { n * line_length ≤ length file.old }
    ensures { file.new ≡ sets file.old 0 (file_text (take n table.now)) }
{
    for line in 0..n {
        put_line(table, file, line);
    }
}

// Writes the file of a table: into the front of the buffer, if the table has its length, is one that loading yields, and its file has room there.
// Else nothing changes.
pub fn write(table: &[u8], file: &mut [u8]) -> Result<usize, WriteRefusal>
    ensures { ◌≡◌ {A = Outcome} (record { answer = result; file = file.new }) (write_call table.now file.old) }
{
    if table.len() != table::BYTES {
        return Err(WriteRefusal::WrongLength);
    }
    let mut index = [0u32; table::INDEX];
    let mut gaps = [0u32; loader::GAPS];
    let accepted = loader::accept(table, &mut index, &mut gaps).ok_or(WriteRefusal::WrongTable)?;
    let n = table::line_total(table);
    let bytes = n * text::LINE;
    if file.len() < bytes {
        return Err(WriteRefusal::ShortBuffer);
    }
    put_lines(accepted.table(), file, n);
    Ok(bytes)
}
