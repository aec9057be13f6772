// Builds a packed panel file, one record at a time.
ghost use Rattle.std.specs.Prelude.{◌≡◌, ◌≢◌, ◌+◌, ◌<◌, ◌≤◌, [], ◌++◌, length, IfOk, Ok, Err, vec_items, vec_len, OnOk, IsOkUnless};
ghost use Rattle.assemble.specs.declared.error.BuildError.TheVariants.{Memory, RawWidth, TableFull, TextFull};
ghost use Rattle.std.specs.Borrow.{sem};
ghost use Rattle.assemble.specs.Lending.{LendsRows};
ghost use Rattle.assemble.specs.Files.{Empty, rows_of, with_rows, with_kind, with_text, header_after, tables_after, file_after};
ghost use Rattle.assemble.specs.Layout.{name_after, record_after, table_of};
ghost use Rattle.assemble.specs.Tables.{mark_of, width_of};

use super::bytes::{put_mark, put16};
use super::error::BuildError;
use super::records::{NameRecord, Record};
use super::rows::Rows;
use super::table::Table;
use std::alloc::{AllocError, Global};

// The longest text that a file can say.
pub const TEXT_MAX: usize = 65535;

// What a file will hold. After an error it may hold part of a record, and is
// of no more use. The tables are eight fields and no array, since the loan of an
// array's element gets no proof.
#[derive(Drop)]
pub struct PanelBuilder {
    kind: u16,
    names: Rows,
    values: Rows,
    functions: Rows,
    blocks: Rows,
    predecessors: Rows,
    phis: Rows,
    instructions: Rows,
    mentions: Rows,
    text: Vec<u8>,
}

impl PanelBuilder {
    // An empty panel: kind 0, no records, no text.
    pub fn new(heap: Global) -> PanelBuilder
        ensures { Empty result }
    {
        PanelBuilder {
            kind: 0,
            names: Rows::new(heap),
            values: Rows::new(heap),
            functions: Rows::new(heap),
            blocks: Rows::new(heap),
            predecessors: Rows::new(heap),
            phis: Rows::new(heap),
            instructions: Rows::new(heap),
            mentions: Rows::new(heap),
            text: Vec::new(heap),
        }
    }

    // Sets the code of the kind of function 0.
    pub fn set_kind(&mut self, code: u16)
        ensures { self.new ≡ with_kind self.old code }
    {
        self.kind = code;
    }

    // The table of that name, to be changed.
    fn rows_mut(&mut self, table: Table) -> &mut Rows
        ensures* lends { sem 𝓛 (LendsRows self.entry table result) }
        ensures now { result.now ≡ rows_of self.old table }
    {
        match table {
            Table::Names => &mut self.names,
            Table::Values => &mut self.values,
            Table::Functions => &mut self.functions,
            Table::Blocks => &mut self.blocks,
            Table::Predecessors => &mut self.predecessors,
            Table::Phis => &mut self.phis,
            Table::Instructions => &mut self.instructions,
            Table::Mentions => &mut self.mentions,
        }
    }

    // Appends a record to its table.
    pub fn add(&mut self, row: &Record) -> Result<(), BuildError>
        ensures bytes { OnOk result (vec_items (rows_of self.new (table_of row.now)).bytes ≡ record_after (vec_items (rows_of self.old (table_of row.now)).bytes) row.now) }
        ensures count { OnOk result ((rows_of self.new (table_of row.now)).count ≡ (rows_of self.old (table_of row.now)).count + 1) }
        ensures rest { self.new ≡ with_rows self.old (table_of row.now) (rows_of self.new (table_of row.now)) }
        ensures full { (rows_of self.old (table_of row.now)).count ≡ 65535 → result ≡ Err (TableFull (table_of row.now)) }
        ensures room { (rows_of self.old (table_of row.now)).count < 65535 → IsOkUnless result Memory }
    {
        self.rows_mut(row.table()).add(row)
    }

    // Appends a record by the bytes behind its mark, whatever they mean.
    pub fn add_raw(&mut self, table: Table, fields: &[u8]) -> Result<(), BuildError>
        ensures bytes { OnOk result (vec_items (rows_of self.new table).bytes ≡ vec_items (rows_of self.old table).bytes ++ mark_of table ++ fields.now) }
        ensures count { OnOk result ((rows_of self.new table).count ≡ (rows_of self.old table).count + 1) }
        ensures width { OnOk result (length fields.now ≡ width_of table) }
        ensures misfit { length fields.now ≢ width_of table → result ≡ Err (RawWidth table) }
        ensures full { length fields.now ≡ width_of table → (rows_of self.old table).count ≡ 65535 → result ≡ Err (TableFull table) }
        ensures room { length fields.now ≡ width_of table → (rows_of self.old table).count < 65535 → IsOkUnless result Memory }
        ensures rest { self.new ≡ with_rows self.old table (rows_of self.new table) }
    {
        self.rows_mut(table).add_raw(table, fields)
    }

    // Appends bytes to the text.
    pub fn add_text(&mut self, bytes: &[u8]) -> Result<(), BuildError>
        ensures bytes { OnOk result (self.new.text.items ≡ self.old.text.items ++ bytes.now) }
        ensures rest { self.new ≡ with_text self.old self.new.text }
        ensures full { 65535 < vec_len self.old.text + length bytes.now → result ≡ Err TextFull }
        ensures room { vec_len self.old.text + length bytes.now ≤ 65535 → IsOkUnless result Memory }
    {
        if self.text.len().saturating_add(bytes.len()) > TEXT_MAX {
            return Err(BuildError::TextFull);
        }
        self.text.extend_from_slice(bytes)?;
        Ok(())
    }

    // Appends a word to the text, and the name record for it.
    pub fn add_name(&mut self, word: &[u8]) -> Result<(), BuildError>
        ensures text { OnOk result (self.new.text.items ≡ self.old.text.items ++ word.now) }
        ensures name { OnOk result (self.new.names.bytes.items ≡ name_after self.old.names.bytes.items (record { start = vec_len self.old.text; length = length word.now })) }
        ensures count { OnOk result (self.new.names.count ≡ self.old.names.count + 1) }
        ensures rest { self.new ≡ with_text (with_rows self.old Table.Names self.new.names) self.new.text }
        ensures text_full { 65535 < vec_len self.old.text + length word.now → result ≡ Err TextFull }
        ensures room { vec_len self.old.text + length word.now ≤ 65535 → self.old.names.count < 65535 → IsOkUnless result Memory }
    {
        let start = short(self.text.len())?;
        let length = short(word.len())?;
        self.add_text(word)?;
        self.names.add(&Record::Name(NameRecord { start, length }))
    }

    // A line to a table, as the header has them, here and in `put_tables`. A loop over an array of eight references
    // is no plainer: the array would be those eight lines.
    fn put_header(&self, out: &mut Vec<u8>, text: u16) -> Result<(), AllocError>
        ensures { OnOk result (out.new.items ≡ header_after out.old.items self.now text) }
    {
        put_mark(out, b"PC")?;
        put16(out, self.names.count)?;
        put16(out, self.values.count)?;
        put16(out, self.functions.count)?;
        put16(out, self.blocks.count)?;
        put16(out, self.predecessors.count)?;
        put16(out, self.phis.count)?;
        put16(out, self.instructions.count)?;
        put16(out, self.mentions.count)?;
        put16(out, text)?;
        put16(out, self.kind)
    }

    fn put_tables(&self, out: &mut Vec<u8>) -> Result<(), AllocError>
        ensures { OnOk result (out.new.items ≡ tables_after out.old.items self.now) }
    {
        self.names.put(out)?;
        self.values.put(out)?;
        self.functions.put(out)?;
        self.blocks.put(out)?;
        self.predecessors.put(out)?;
        self.phis.put(out)?;
        self.instructions.put(out)?;
        self.mentions.put(out)
    }

    fn put_file(&self, out: &mut Vec<u8>, text: u16) -> Result<(), AllocError>
        ensures { OnOk result (out.new.items ≡ file_after out.old.items self.now text) }
    {
        self.put_header(out, text)?;
        self.put_tables(out)?;
        put_mark(out, b"TX")?;
        out.extend_from_slice(&self.text)
    }

    // The packed file.
    pub fn finish(&self, heap: Global) -> Result<Vec<u8>, BuildError>
        ensures file { IfOk result (λ v. v.items ≡ file_after [] self.now (vec_len self.now.text)) }
        ensures full { 65535 < vec_len self.now.text → result ≡ Err TextFull }
        ensures room { vec_len self.now.text ≤ 65535 → IsOkUnless result Memory }
    {
        let text = short(self.text.len())?;
        let mut out = Vec::new(heap);
        self.put_file(&mut out, text)?;
        Ok(out)
    }
}

// A place in the text, or a length, as a field of two bytes.
fn short(n: usize) -> Result<u16, BuildError>
    ensures fits { n ≤ 65535 → result ≡ Ok n }
    ensures full { 65535 < n → result ≡ Err TextFull }
{
    u16::try_from(n).map_err(|_| BuildError::TextFull)
}
