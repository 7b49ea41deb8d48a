// The fields of a procedure file: where they stand, the numbers that they print, and how they are printed.
#![tactic(auto)]

ghost use Rattle.std.specs.Prelude.{◌≡◌, ◌+◌, ◌*◌, ◌<◌, ◌≤◌, length};
ghost use Rattle.std.proofs.lemmas.List.Edits.{sets};
ghost use Rattle.text.specs.Text.{text, line_length, field_of, figure_of, size_from, read_number};
ghost use Rattle.text.specs.Columns.{letter_of, columns, blank_of};

// The characters of a line: twelve fields and a newline.
pub const LINE: usize = 73;

// The characters of a field.
pub const FIELD: usize = 6;

// The field at a line and a column, as its bytes in the file.
pub fn field(file: &[u8], line: usize, column: usize) -> &[u8]
    requires { line * line_length + column * 6 + 6 ≤ length file.now }
    ensures { result.now ≡ field_of file.now line column }
{
    let at = line * LINE + column * FIELD;
    &file[at..at + FIELD]
}

// The number of a figure, and 0 of any other character.
#[tactic(auto, unfolding(crate::specs::Text::figure_of))]
fn figure(c: u8) -> u32
    ensures value { result ≡ figure_of c }
    ensures upper_bound { result < 10 }
{
    if c.is_ascii_digit() {
        (c - b'0') as u32
    } else {
        0
    }
}

// The number of six columns, read as figures.
#[tactic(auto, using(crate::proofs::Laws::value_is))]
fn value(field: [u8; FIELD]) -> u32
    ensures { result ≡ size_from 0 field }
{
    let [a, b, c, d, e, f] = field;
    ((((figure(a) * 10 + figure(b)) * 10 + figure(c)) * 10 + figure(d)) * 10 + figure(e)) * 10
        + figure(f)
}

// A column of a number's printed form.
#[tactic(auto, unfolding(crate::specs::Columns::letter_of))]
fn letter(negative: bool, here: u32, right: u32) -> u8
    ensures { result ≡ letter_of negative here right }
{
    if 0 < here {
        b'0' + (here % 10) as u8
    } else if negative && 0 < right {
        b'-'
    } else {
        b' '
    }
}

// The six columns of a size below 100000 and its sign.
#[tactic(auto, unfolding(crate::specs::Columns::columns))]
fn columns(negative: bool, size: u32) -> [u8; FIELD]
    ensures { result ≡ columns negative size }
{
    [
        letter(negative, size / 100000, size / 10000),
        letter(negative, size / 10000, size / 1000),
        letter(negative, size / 1000, size / 100),
        letter(negative, size / 100, size / 10),
        letter(negative, size / 10, 1),
        b'0' + (size % 10) as u8,
    ]
}

// The number that six columns print.
#[tactic(auto, using(crate::proofs::Laws::neg_reads, crate::proofs::Laws::pos_reads, crate::proofs::Laws::refusals))]
fn read_columns(field: [u8; FIELD]) -> Option<u16>
    ensures { result ≡ read_number field }
{
    let size = value(field);
    match (field.contains(&b'-'), size) {
        (true, 1..=32768) if field == columns(true, size) => Some((65536 - size) as u16),
        (false, 0..=32767) if field == columns(false, size) => Some(size as u16),
        _ => None,
    }
}

// Whether five columns are blank; the last first, since it tells most fields apart.
#[tactic(auto, unfolding(crate::specs::Columns::blank_of))]
fn blank(a: u8, b: u8, c: u8, d: u8, e: u8) -> bool
    ensures { result ≡ blank_of a b c d e }
{
    e == b' ' && d == b' ' && c == b' ' && b == b' ' && a == b' '
}

// The number that a field prints. Most fields are one figure, which is read at once.
#[tactic(auto, using(crate::proofs::Laws::figure_reads, crate::proofs::Laws::columns_read))]
pub fn read_field(field: &[u8]) -> Option<u16>
    requires { length field.now ≡ 6 }
    ensures { result ≡ read_number field.now }
{
    let last = field[5];
    if blank(field[0], field[1], field[2], field[3], field[4]) && last.is_ascii_digit() {
        Some((last - b'0') as u16)
    } else {
        read_columns([field[0], field[1], field[2], field[3], field[4], last])
    }
}

// The six columns that print the number with the pattern v.
#[tactic(auto, using(crate::proofs::Laws::text_printed, crate::proofs::Laws::minus_printed))]
fn printed(v: u16) -> [u8; FIELD]
    ensures { result ≡ text v }
{
    if v <= 32767 {
        columns(false, v as u32)
    } else {
        columns(true, 65536 - v as u32)
    }
}

// The field of the number with the pattern v, laid into a buffer from a place on. Most are one figure, which is laid at once.
#[tactic(auto, using(crate::proofs::Laws::field_laid))]
pub fn put_field(buffer: &mut [u8], at: usize, v: u16)
    requires { at + 6 ≤ length buffer.old }
    ensures { buffer.new ≡ sets buffer.old at (text v) }
{
    let field = &mut buffer[at..at + FIELD];
    if v < 10 {
        field.copy_from_slice(&[b' '; FIELD]);
        field[FIELD - 1] = b'0' + v as u8;
    } else {
        field.copy_from_slice(&printed(v));
    }
}
