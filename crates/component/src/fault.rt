// Why a call refuses: a number and a place.
ghost use Rattle.std.specs.Prelude.{◌≡◌, Some};
ghost use Rattle.std.specs.Result.{result_err};
ghost use Rattle.component.specs.Refusals.{number_of, fault_unless, fault_text};

use std::error::Error;
use std::fmt;

// The reasons, under the numbers that programs print.
#[derive(Clone, Copy, PartialEq, Eq, Debug)]
pub enum Reason {
    TableSize = 1,
    RecordNumber = 2,
    ListOrder = 3,
    NameText = 4,
    FileLength = 5,
    RecordMark = 6,
    FieldCode = 7,
    ShortMemory = 8,
    StrayMemory = 9,
    UnknownEffect = 10,
    UseTableFull = 11,
    TooManyPasses = 12,
    NothingChanged = 13,
    StillChanging = 14,
    NoEffectLeft = 15,
    ReportsFull = 16,
    NoSuchReport = 17,
    SourceCycle = 18,
    PoolFull = 19,
    BufferFull = 20,
}

impl From<Reason> for u8 {
    ghost from_gives = { λ r n. n ≡ number_of r };

    fn from(reason: Reason) -> u8 {
        reason as u8
    }
}

impl Reason {
    // The number under which programs print it.
    pub fn number(self) -> u8
        ensures { result ≡ number_of self }
    {
        u8::from(self)
    }

    // Refuses at a place, unless `holds`.
    pub fn unless(self, holds: bool, place: usize) -> Result<(), Fault>
        ensures { result_err result ≡ fault_unless holds self place }
    {
        if holds {
            Ok(())
        } else {
            Err(Fault {
                reason: self,
                place,
            })
        }
    }
}

// A refusal. The place is a record, a byte, a position or 0, as the reason
// has it.
#[derive(Clone, Copy, PartialEq, Eq, Debug)]
pub struct Fault {
    pub reason: Reason,
    pub place: usize,
}

impl fmt::Display for Fault {
    ghost output = { λ f. Some (fault_text f) };

    fn fmt<W: fmt::Write>(&self, f: &mut fmt::Formatter<W>) -> fmt::Result {
        write!(f, "refused {} at {}", u8::from(self.reason), self.place)
    }
}

impl Error for Fault {}
