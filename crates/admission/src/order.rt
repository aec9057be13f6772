// The third rule: lists that follow each other, and functions that are the body of
// one function expression at most.
ghost use Rattle.std.specs.Prelude.{◌≡◌, ◌≤◌, length, None};
ghost use Rattle.std.specs.Result.{result_err};
ghost use Rattle.rules.specs.Admission.{order_fault, number_fault};

use component::Component;
use component::fault::{Fault, Reason};
use inspection::Inspection;
use rules::firsts::refuse;

// Table by table, in the order of the tables.
pub fn admit_order<C: Component>(inspection: &Inspection<'_, C>) -> Result<(), Fault>
    requires few { length inspection.now.functions ≤ 256 }
    requires fitting { number_fault inspection.now ≡ None }
    ensures { result_err result ≡ order_fault inspection.now }
{
    refuse(Reason::ListOrder, inspection.function_order())?;
    refuse(Reason::ListOrder, inspection.block_order())?;
    refuse(Reason::ListOrder, inspection.phi_order())?;
    refuse(Reason::ListOrder, inspection.instruction_order())
}
