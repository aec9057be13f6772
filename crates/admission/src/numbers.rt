// The second rule: numbers inside their tables, forms, lengths of lists.
ghost use Rattle.std.specs.Prelude.{◌≡◌, ◌≤◌, length};
ghost use Rattle.std.specs.Result.{result_err};
ghost use Rattle.rules.specs.Admission.{number_fault};

use component::Component;
use component::fault::{Fault, Reason};
use inspection::Inspection;
use inspection::mentions::{BEFORE_MENTIONS, Counted};
use rules::firsts::refuse;

// Table by table, in the order of the tables.
pub fn admit_numbers<C: Component>(inspection: &Inspection<'_, C>) -> Result<(), Fault>
    requires { length inspection.now.mentions ≤ 32768 }
    ensures { result_err result ≡ number_fault inspection.now }
{
    // An array, since admission uses local memory alone.
    let mut before = [0u16; BEFORE_MENTIONS];
    let mention = inspection.read_mentions(&mut before);
    let counted = Counted {
        inspection,
        before: &before,
    };
    refuse(Reason::RecordNumber, inspection.value_breach())?;
    refuse(Reason::RecordNumber, inspection.function_breach())?;
    refuse(Reason::RecordNumber, inspection.block_breach())?;
    refuse(Reason::RecordNumber, counted.phi_breach())?;
    refuse(Reason::RecordNumber, counted.instruction_breach())?;
    refuse(Reason::RecordNumber, mention)
}
