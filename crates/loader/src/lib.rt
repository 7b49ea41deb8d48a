// Loading a procedure file: grounds 1 to 8, and ground 9 for a table that is handed in.
#![tactic(auto)]

ghost use Rattle.std.specs.Prelude.{Some, None, ◌≡◌, suc, cond, ltb, Ok, Err, ◌≤◌, length, replicate};
ghost use Rattle.numbers.specs.Search.{every};
ghost use Rattle.table.specs.Table.{table_of, max_rows, max_nodes, line_total};
ghost use Rattle.table.specs.Index.{index_length, Indexed};
ghost use Rattle.flow.specs.Flow.{flow};
ghost use Rattle.flow.specs.Gaps.{gaps_of};
ghost use Rattle.file.specs.File.{file_table};
ghost use Rattle.file.specs.EmptyFile.{procedure_text};
ghost use Rattle.loader.specs.Verdict.{judged_flow, judged_rows, judged, verdict, rest_zero};
ghost use Rattle.loader.specs.Load.{Outcome, loaded, accepted, table_length};

pub use flow::{Flow, GAPS};
use table::Table;

// Why a file is refused. Ground 3 has its four tests apart, in their order: header, total, kind, sums.
#[derive(Clone, Copy, PartialEq, Eq)]
pub enum Ground {
    Lines,
    Field,
    Header,
    Total,
    Kind,
    Sums,
    Range,
    Types,
    Unwritten,
    Unreachable,
}

// Why a load is refused: the file's lowest ground and its first line, counted from 1 (0 for `Lines`), or the table's length.
#[derive(Clone, Copy, PartialEq, Eq)]
pub enum LoadRefusal {
    FileRefused(Ground, usize),
    WrongLength,
}

// The bytes of one buffer into another of the same length.
fn copy_table(from: &[u8], to: &mut [u8])
    requires { length from.now ≡ length to.old }
    ensures { to.new ≡ from.now }
{
    to.copy_from_slice(from);
}

// No fault where a test has passed all of n rows, as it tells by the row n; else a ground, at the line of the first row that fails.
fn pass(ground: Ground, row: usize, n: usize) -> Result<(), (Ground, usize)>
    ensures { result ≡ cond (ltb row n) (Err (ground, suc row)) (Ok tt) }
{
    if row < n {
        Err((ground, row + 1))
    } else {
        Ok(())
    }
}

// Grounds 6 and 7, of a table that has passed those before. The gaps of its flow are left in `gaps`, which comes as zeros.
#[tactic(auto, unfolding(crate::specs::Verdict::judged_flow, crate::specs::Verdict::at_fault))]
fn judge_flow(table: Table, gaps: &mut [u32], n: usize) -> Result<(), (Ground, usize)>
    requires gaps_value { gaps.old ≡ replicate max_nodes 0 }
    ensures value { result ≡ judged_flow table.entry n }
    ensures gaps_after { gaps_of gaps.new ≡ flow table.entry }
{
    flow::find_gaps(&table, gaps);
    let flow = Flow::new(table, gaps);
    let unwritten = paths::first_reads_unwritten(&flow, n);
    pass(Ground::Unwritten, unwritten, n)?;
    pass(
        Ground::Unreachable,
        paths::first_unreachable(flow.table().bytes(), flow.gaps(), n),
        n,
    )
}

// Grounds 4 and on, of a table that has passed ground 3. The gaps of the flow of a table in which there is no fault are left in `gaps`, which comes as zeros.
#[tactic(auto, unfolding(crate::specs::Verdict::judged_rows, crate::specs::Verdict::at_fault))]
fn judge_rows(table: Table, gaps: &mut [u32], n: usize) -> Result<(), (Ground, usize)>
    requires gaps_value { gaps.old ≡ replicate max_nodes 0 }
    ensures value { result ≡ judged_rows table.entry n }
    ensures gaps_after { result ≡ Ok tt → gaps_of gaps.new ≡ flow table.entry }
{
    pass(Ground::Range, ranges::first_out_of_range(&table, n), n)?;
    pass(Ground::Types, types::first_types_disagree(&table, n), n)?;
    judge_flow(table, gaps, n)
}

// Grounds 3 and on, of a table of n lines. The index of a table in which there is no fault is left in `index`, and the gaps of its flow in `gaps`; both come as
// zeros.
#[tactic(auto, unfolding(crate::specs::Verdict::judged, crate::specs::Verdict::at_fault), using(crate::specs::Verdict::Laws::indexed_is))]
fn judge(table: &[u8], index: &mut [u32], gaps: &mut [u32], n: usize) -> Result<(), (Ground, usize)>
    requires table_len { length table.now ≡ table_length }
    requires index_value { index.old ≡ replicate index_length 0 }
    requires gaps_value { gaps.old ≡ replicate max_nodes 0 }
    ensures value { result ≡ judged (table_of table.now) n }
    ensures indexed { result ≡ Ok tt → Indexed (table_of table.now) index.new }
    ensures gaps_after { result ≡ Ok tt → gaps_of gaps.new ≡ flow (table_of table.now) }
{
    // The length is asked once more for the compiler, which then tests it at no look-up.
    if table.len() != table::BYTES {
        return Err((Ground::Total, 1));
    }
    if !form::header_in_range(table) {
        return Err((Ground::Header, 1));
    }
    if n != table::line_total(table) {
        return Err((Ground::Total, 1));
    }
    pass(Ground::Kind, form::first_kind_wrong(table, n), n)?;
    if !form::sums_agree(table) {
        return Err((Ground::Sums, 1));
    }
    table::indexing::fill_index(table, index);
    judge_rows(Table::new(table, index), gaps, n)
}

// The verdict on a file; the numbers of a file in which there is no fault are left in `table`, which comes as zeros.
#[tactic(auto, unfolding(crate::specs::Verdict::verdict, crate::specs::Verdict::at_fault))]
fn judge_file(file: &[u8], table: &mut [u8]) -> Result<(), (Ground, usize)>
    requires { table.old ≡ replicate table_length 0 }
    ensures value { result ≡ verdict file.now }
    ensures table_after { result ≡ Ok tt → table_of table.new ≡ file_table file.now }
{
    if file::not_lines(file) {
        return Err((Ground::Lines, 0));
    }
    let n = file.len() / file::LINE;
    pass(Ground::Field, file::read_lines(file, table, n), n)?;
    let mut index = [0u32; table::INDEX];
    let mut gaps = [0u32; GAPS];
    judge(table, &mut index, &mut gaps, n)
}

// The verdict on the text that a file stands for: its own, or the lines of the procedure that ends if it has no bytes. The numbers of a text in which
// there is no fault are left in `table`, which comes as zeros.
fn judge_procedure(file: &[u8], table: &mut [u8]) -> Result<(), (Ground, usize)>
    requires { table.old ≡ replicate table_length 0 }
    ensures value { result ≡ verdict (procedure_text file.now) }
    ensures table_after { result ≡ Ok tt → table_of table.new ≡ file_table (procedure_text file.now) }
{
    if file.is_empty() {
        file::lay_ending(table);
        Ok(())
    } else {
        judge_file(file, table)
    }
}

// Loads a file: its table into the buffer if the file is in order and the buffer has the table's length. Else nothing changes.
#[tactic(auto, using(crate::proofs::Outcomes::answers))]
pub fn load(file: &[u8], table: &mut [u8]) -> Result<(), LoadRefusal>
    ensures { ◌≡◌ {A = Outcome} (record { answer = result; table = table.new }) (loaded file.now table.old) }
{
    let mut own = [0u8; table::BYTES];
    if let Err((ground, line)) = judge_procedure(file, &mut own) {
        return Err(LoadRefusal::FileRefused(ground, line));
    }
    if table.len() != table::BYTES {
        return Err(LoadRefusal::WrongLength);
    }
    copy_table(&own, table);
    Ok(())
}

// Whether the rows behind the first n, the header's number of lines, are 0: so is then every bit that one of their bytes has. (All bytes are
// joined, with no way out of the loop: that takes them sixteen at a time, and a search for one that is not 0 would not.)
fn rest_is_zero(table: &[u8], n: usize) -> bool
    requires table_len { length table.now ≡ table_length }
    requires n_le_max_rows { n ≤ max_rows }
    requires n_value { n ≡ line_total (table_of table.now) }
    ensures { result ≡ every (rest_zero (table_of table.now)) max_rows }
{
    let from = n * table::ROW_BYTES;
    let mut all: u8 = 0;
    for i in from..table::BYTES {
        all |= table[i];
    }
    all == 0
}

// Ground 9: the table that a buffer holds, if it is one that loading yields. It comes with its index and the gaps of its flow, which are laid into `index` and
// `gaps`; both come as zeros.
#[tactic(auto, unfolding(crate::specs::Load::accepted, crate::specs::Verdict::acceptable, crate::specs::Verdict::is_sound), using(crate::specs::Verdict::Laws::sound_few))]
pub fn accept<'a, 'b>(
    table: &'a [u8],
    index: &'a mut [u32],
    gaps: &'b mut [u32],
) -> Option<Flow<'a, 'b>>
    requires index_value { index.old ≡ replicate index_length 0 }
    requires gaps_value { gaps.old ≡ replicate max_nodes 0 }
    ensures value { result ≡ cond (accepted table.now) (Some (table_of table.now)) None }
{
    if table.len() != table::BYTES {
        return None;
    }
    let n = table::line_total(table);
    if judge(table, index, gaps, n).is_ok() && rest_is_zero(table, n) {
        Some(Flow::new(Table::new(table, index), gaps))
    } else {
        None
    }
}
