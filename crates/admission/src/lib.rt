// Whether a component is admitted, whoever implements it, and else the first rule
// that it breaks and the first record that breaks it.
#![tactic(auto)]

ghost use Rattle.std.specs.Prelude.{◌≡◌, if◌then◌else◌, Some, None};
ghost use Rattle.std.specs.Result.{result_err};
ghost use Rattle.component.specs.declared.fault.Reason.TheVariants.{TableSize};
ghost use Rattle.component.specs.Answers.{AnswersTell};
ghost use Rattle.rules.specs.Lists.{refused};
ghost use Rattle.rules.specs.Rules.{sizes_fit};
ghost use Rattle.rules.specs.Admission.{admission};
ghost use Rattle.nesting.specs.Nesting.{NestingStands};
ghost use Rattle.nesting.specs.Order.{VisitingStands};
ghost use Rattle.admission.specs.Laws.{AdmittedExactly, FirstRuleBroken, FirstRecordFailing, RenumberingJudgedAlike};

use component::Component;
use component::fault::{Fault, Reason};
use component::records::Sizes;
use inspection::Inspection;
use names::first_failing_name;
use nesting::{nesting_stands, visiting_stands};
use numbers::admit_numbers;
use order::admit_order;
use rules::firsts::refuse;
use rules::records::sizes_fit;

pub mod numbers;
pub mod order;

// The first rule: no table is larger than its limit.
fn admit_sizes(sizes: Sizes) -> Result<(), Fault>
    ensures { result_err result ≡ refused TableSize (if sizes_fit sizes then None else Some 0) }
{
    refuse(Reason::TableSize, (!sizes_fit(sizes)).then_some(0))
}

// Rule by rule, in their order.
fn admit_inspected<C: Component>(inspection: &Inspection<'_, C>) -> Result<(), Fault>
    ensures { result_err result ≡ admission inspection.now }
{
    let component = inspection.component();
    let sizes = inspection.sizes();
    admit_sizes(sizes)?;
    admit_numbers(inspection)?;
    admit_order(inspection)?;
    refuse(Reason::NameText, first_failing_name(component, sizes.names))
}

// What holds of every component; nothing comes of it but these laws.
fn admission_laws()
    ensures exactly { AdmittedExactly }
    ensures rule { FirstRuleBroken }
    ensures place { FirstRecordFailing }
    ensures answers { AnswersTell }
    ensures renumbered { RenumberingJudgedAlike }
    ensures nesting { NestingStands }
    ensures visiting { VisitingStands }
{
    nesting_stands();
    visiting_stands();
}

// Admits a component, or says why it is not one.
pub fn admit<C: Component>(component: &C) -> Result<(), Fault>
    ensures judged { result_err result ≡ admission (C.Component.meaning component.now) }
    ensures exactly { AdmittedExactly }
    ensures rule { FirstRuleBroken }
    ensures place { FirstRecordFailing }
    ensures answers { AnswersTell }
    ensures renumbered { RenumberingJudgedAlike }
    ensures nesting { NestingStands }
    ensures visiting { VisitingStands }
{
    admission_laws();
    admit_inspected(&Inspection::new(component))
}
