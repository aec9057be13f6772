// A component that reads its records out of the bytes of a packed file.
#![tactic(auto)]

ghost use Rattle.std.specs.Prelude.{◌≡◌, ℕ, ◌+◌, ◌*◌, ◌<◌, ◌≤◌, IfOk, MatchOption};
ghost use Rattle.std.specs.Result.{result_err};
ghost use Rattle.std.specs.List.{slice_get};
ghost use Rattle.component.specs.Codes.{CodesBelow};
ghost use Rattle.component.specs.Meaning.{Meaning};
ghost use Rattle.fields.specs.Fields.{le16};
ghost use Rattle.layout.specs.Layout.{extent_in, size_of};
ghost use Rattle.scan.specs.Faults.{fault_of};
ghost use Rattle.scan.specs.Files.{AcceptedExactly};
ghost use Rattle.packed.specs.Decoding.{record_part, table_of, name_in, text_of, meaning_at, decoded};
ghost use Rattle.packed.specs.Laws.{UnusedNotRead, OverlongByHeader};

use component::Component;
use component::fault::Fault;
use component::records::{
    Block, Function, Instruction, Mention, Phi, Predecessor, ReactFunctionType, Sizes, Value,
};
use fields::codes::function_type;
use fields::readers::PackedRecord;
use fields::{part_at, read16};
pub use layout::max_length;
use layout::{Layout, Table, read_layout};
use scan::check_file;

// What holds of every file; nothing comes of it but these laws. The last rests
// on the longest end that a header can give.
fn file_laws(bytes: &[u8])
    ensures accepted { AcceptedExactly bytes.now }
    ensures codes { CodesBelow }
    ensures unused { UnusedNotRead bytes.now }
    ensures overlong { OverlongByHeader bytes.now }
{
    let _layout = read_layout(bytes);
}

// Byte `i` of a name.
fn byte_of(name: &[u8], i: usize) -> Option<u8>
    ensures { result ≡ slice_get name.now i }
{
    name.get(i).copied()
}

#[derive(Clone, Copy)]
pub struct Packed<'a> {
    bytes: &'a [u8],
    kind: ReactFunctionType,
    layout: Layout,
}

impl<'a> Packed<'a> {
    // The component of a packed file, or why the bytes are none.
    pub fn open(bytes: &'a [u8]) -> Result<Packed<'a>, Fault>
        ensures judged { result_err result ≡ fault_of bytes.now }
        ensures accepted { AcceptedExactly bytes.now }
        ensures codes { CodesBelow }
        ensures meaning { IfOk result (λ p. meaning_at p.bytes.now p.kind p.layout ≡ decoded bytes.now) }
        ensures unused { UnusedNotRead bytes.now }
        ensures overlong { OverlongByHeader bytes.now }
        ensures text { IfOk result (λ p. p.layout.text.count ≡ le16 bytes.now 18) }
    {
        file_laws(bytes);
        let layout = check_file(bytes)?;
        Ok(Packed {
            bytes,
            kind: function_type(read16(bytes, 20)),
            layout,
        })
    }

    // The part of the bytes that record `n` of a table takes.
    fn record_part(&self, table: Table, n: usize) -> Option<&'a [u8]>
        ensures { MatchOption result ((extent_in self.now.layout table).count ≤ n) (λ s. (n < (extent_in self.now.layout table).count) × (s.now ≡ record_part (size_of table) self.now.bytes.now (extent_in self.now.layout table) n)) }
    {
        let extent = self.layout.extent(table);
        // Not by `then`: a closure would not know that the place is in bounds.
        if n < extent.count as usize {
            let size = table.record_size();
            Some(part_at(self.bytes, extent.start as usize + size * n, size))
        } else {
            None
        }
    }

    // Record `n` of a table.
    fn record<R: PackedRecord>(&self, table: Table, n: usize) -> Option<R>
        ensures { result ≡ slice_get (table_of R.PackedRecord.of (size_of table) self.now.bytes.now (extent_in self.now.layout table)) n }
    {
        Some(R::read(self.record_part(table, n)?))
    }

    fn text(&self) -> &'a [u8]
        ensures { result.now ≡ text_of self.now.bytes.now self.now.layout.text }
    {
        let extent = self.layout.text;
        part_at(self.bytes, extent.start as usize, extent.count as usize)
    }

    // The bytes of name `n`.
    fn name(&self, n: usize) -> Option<&'a [u8]>
        ensures { MatchOption result (self.now.layout.names.count ≤ n) (λ s. (n < self.now.layout.names.count) × (s.now ≡ name_in (text_of self.now.bytes.now self.now.layout.text) (record_part 6 self.now.bytes.now self.now.layout.names n))) }
    {
        let part = self.record_part(Table::Names, n)?;
        let (start, length) = (read16(part, 2) as usize, read16(part, 4) as usize);
        Some(part_at(self.text(), start, length))
    }

    // How many bytes of text the file has.
    pub fn text_length(&self) -> usize
        ensures { result ≡ self.now.layout.text.count }
    {
        self.layout.text.count as usize
    }
}

impl<'a> Component for Packed<'a> {
    ghost meaning = { λ p. meaning_at p.bytes.now p.kind p.layout };

    fn kind(&self) -> ReactFunctionType {
        self.kind
    }

    fn sizes(&self) -> Sizes {
        self.layout.sizes()
    }

    fn name_length(&self, n: usize) -> Option<usize> {
        Some(self.name(n)?.len())
    }

    fn name_byte(&self, n: usize, i: usize) -> Option<u8> {
        byte_of(self.name(n)?, i)
    }

    fn value(&self, n: usize) -> Option<Value> {
        self.record::<Value>(Table::Values, n)
    }

    fn function(&self, n: usize) -> Option<Function> {
        self.record::<Function>(Table::Functions, n)
    }

    fn block(&self, n: usize) -> Option<Block> {
        self.record::<Block>(Table::Blocks, n)
    }

    fn predecessor(&self, n: usize) -> Option<Predecessor> {
        self.record::<Predecessor>(Table::Predecessors, n)
    }

    fn phi(&self, n: usize) -> Option<Phi> {
        self.record::<Phi>(Table::Phis, n)
    }

    fn instruction(&self, n: usize) -> Option<Instruction> {
        self.record::<Instruction>(Table::Instructions, n)
    }

    fn mention(&self, n: usize) -> Option<Mention> {
        self.record::<Mention>(Table::Mentions, n)
    }
}
