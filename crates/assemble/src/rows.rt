// One table as it grows: its records' bytes, and how many records they are. The
// count is no length of the bytes: it stands in the header, and what it counts
// has a width for each table.
ghost use Rattle.std.specs.Prelude.{◌≡◌, ◌≢◌, ◌<◌, ◌+◌, [], ◌++◌, length, Err, OnOk, IsOkUnless};
ghost use Rattle.assemble.specs.Layout.{record_after, table_of};
ghost use Rattle.assemble.specs.Tables.{mark_of, width_of};
ghost use Rattle.assemble.specs.declared.error.BuildError.TheVariants.{Memory, RawWidth, TableFull};

use super::bytes::put_mark;
use super::error::BuildError;
use super::records::Record;
use super::table::Table;
use std::alloc::{AllocError, Global};

#[derive(Drop)]
pub struct Rows {
    pub bytes: Vec<u8>,
    pub count: u16,
}

impl Rows {
    pub fn new(heap: Global) -> Rows
        ensures bytes { result.bytes.items ≡ [] }
        ensures count { result.count ≡ 0 }
    {
        Rows {
            bytes: Vec::new(heap),
            count: 0,
        }
    }

    // Appends a record, unless the count is the largest that a file can say.
    pub fn add(&mut self, row: &Record) -> Result<(), BuildError>
        ensures bytes { OnOk result (self.new.bytes.items ≡ record_after self.old.bytes.items row.now) }
        ensures count { OnOk result (self.new.count ≡ self.old.count + 1) }
        ensures full { self.old.count ≡ 65535 → result ≡ Err (TableFull (table_of row.now)) }
        ensures room { self.old.count < 65535 → IsOkUnless result Memory }
    {
        if self.count == u16::MAX {
            return Err(BuildError::TableFull(row.table()));
        }
        row.write(&mut self.bytes)?;
        self.count += 1;
        Ok(())
    }

    // Appends the whole table to a file.
    pub fn put(&self, out: &mut Vec<u8>) -> Result<(), AllocError>
        ensures { OnOk result (out.new.items ≡ out.old.items ++ self.now.bytes.items) }
    {
        out.extend_from_slice(&self.bytes)
    }

    // Appends a record by the bytes behind its mark.
    pub fn add_raw(&mut self, table: Table, fields: &[u8]) -> Result<(), BuildError>
        ensures bytes { OnOk result (self.new.bytes.items ≡ self.old.bytes.items ++ mark_of table ++ fields.now) }
        ensures count { OnOk result (self.new.count ≡ self.old.count + 1) }
        ensures width { OnOk result (length fields.now ≡ width_of table) }
        ensures misfit { length fields.now ≢ width_of table → result ≡ Err (RawWidth table) }
        ensures full { length fields.now ≡ width_of table → self.old.count ≡ 65535 → result ≡ Err (TableFull table) }
        ensures room { length fields.now ≡ width_of table → self.old.count < 65535 → IsOkUnless result Memory }
    {
        if fields.len() != table.width() {
            return Err(BuildError::RawWidth(table));
        }
        if self.count == u16::MAX {
            return Err(BuildError::TableFull(table));
        }
        put_mark(&mut self.bytes, &table.mark())?;
        self.bytes.extend_from_slice(fields)?;
        self.count += 1;
        Ok(())
    }
}
