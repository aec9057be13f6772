// One run over a packed file: its length, then every mark, then every code and
// where names end.
#![tactic(auto)]

ghost use Rattle.std.specs.Prelude.{◌≡◌, IfOk};
ghost use Rattle.std.specs.Option.{option_or};
ghost use Rattle.std.specs.Result.{result_err};
ghost use Rattle.layout.specs.Layout.{layout_of};
ghost use Rattle.scan.specs.Faults.{Scanned, marks_in, codes_in, marks_fault, codes_fault, fault_of};

use checks::{check_code, check_length, check_mark, note_wrong};
use component::fault::Fault;
use layout::{Layout, Table, letters, read_layout};

// One run over a table: a wrong mark is refused at once, and the first wrong
// code is handed on behind `earlier`, since a wrong mark further on comes
// before it.
fn check_table(
    bytes: &[u8],
    layout: &Layout,
    table: Table,
    earlier: Option<Fault>,
) -> Result<Option<Fault>, Fault>
    ensures { Scanned result (marks_in bytes.now layout.now table) (option_or earlier (codes_in bytes.now layout.now table)) }
{
    let extent = layout.extent(table);
    let size = table.record_size();
    let mark = table.mark();
    let mut found = earlier;
    // By number, as the laws count: a place is one product of it.
    for i in 0..extent.count {
        let at = extent.start as usize + size * i as usize;
        check_mark(bytes, at, mark)?;
        note_wrong(&mut found, table, bytes, layout.text.count, at);
    }
    Ok(found)
}

// One run over all records: a line to a table, each handed what was found before. A loop
// over the tables is no shorter, since each answer goes into the next call.
fn check_records(bytes: &[u8], layout: &Layout) -> Result<Option<Fault>, Fault>
    ensures { Scanned result (marks_fault bytes.now layout.now) (codes_fault bytes.now layout.now) }
{
    check_mark(bytes, 0, letters(b'P', b'C'))?;
    let found = check_code(bytes, 20, 3).err();
    let found = check_table(bytes, layout, Table::Names, found)?;
    let found = check_table(bytes, layout, Table::Values, found)?;
    let found = check_table(bytes, layout, Table::Functions, found)?;
    let found = check_table(bytes, layout, Table::Blocks, found)?;
    let found = check_table(bytes, layout, Table::Predecessors, found)?;
    let found = check_table(bytes, layout, Table::Phis, found)?;
    let found = check_table(bytes, layout, Table::Instructions, found)?;
    let found = check_table(bytes, layout, Table::Mentions, found)?;
    let text = layout.mentions.start as usize + 18 * layout.mentions.count as usize;
    check_mark(bytes, text, letters(b'T', b'X'))?;
    Ok(found)
}

// The layout of a packed file, or why the bytes are none.
pub fn check_file(bytes: &[u8]) -> Result<Layout, Fault>
    ensures judged { result_err result ≡ fault_of bytes.now }
    ensures made { IfOk result (λ l. l ≡ layout_of bytes.now) }
{
    let layout = read_layout(bytes);
    check_length(
        bytes,
        layout.text.start as usize + layout.text.count as usize,
    )?;
    check_records(bytes, &layout)?.map_or(Ok(layout), Err)
}
