// The blueprint of a text.
ghost use Rattle.std.specs.Prelude.{◌≡◌, Some, IfOk, Err};
ghost use Rattle.blue_modules.specs.Plain.{plain};
ghost use Rattle.blue_modules.specs.Text.{plain_text};
ghost use Rattle.blue_modules.specs.Fitness.{IsFlat};
ghost use Rattle.blue_check.specs.declared.fault.CheckFault.{CheckFault};
ghost use Rattle.blue_check.specs.Meaning.{as_check_fault, modules_fault};

use crate::check::CheckEnd;
use crate::fault::CheckFault;
use blue_modules::fault::ModuleFault;
use blue_modules::flatten as modules;
use blue_modules::text::BlueText;
use std::alloc::Global;
use stream_model::blueprint::Blueprint;

/// A rule on modules, among all rules.
fn as_check_fault(fault: ModuleFault) -> CheckFault
    ensures { result ≡ as_check_fault fault }
{
    match fault {
        ModuleFault::TwoNames(name) => CheckFault::TwoNames(name),
        ModuleFault::NoSuchModule(name) => CheckFault::NoSuchModule(name),
        ModuleFault::NoSuchName(name) => CheckFault::NoSuchName(name),
        ModuleFault::PortName(name, port) => CheckFault::PortName(name, port),
        ModuleFault::TooLarge => CheckFault::TooLarge,
    }
}

// Choice: docs/DECISIONS.md#modules-before-all
/// The blueprint of a text: each instance is replaced by the body of its module. The first rule on modules that is broken decides;
/// those of `check` come behind it, on the blueprint.
pub fn flatten(alloc: Global, text: &BlueText) -> Result<Blueprint, CheckEnd>
    ensures flat { IfOk result (λ b. IsFlat (plain_text text.now) (plain b)) }
    ensures fault { (f : CheckFault) → result ≡ Err (CheckEnd.Fault f) → modules_fault (plain_text text.now) ≡ Some f }
{
    match modules::flatten(alloc, text) {
        Ok(blueprint) => Ok(blueprint),
        Err(modules::FlatEnd::Fault(fault)) => Err(CheckEnd::Fault(as_check_fault(fault))),
        Err(modules::FlatEnd::NoMemory) => Err(CheckEnd::NoMemory),
    }
}

/// The same of a text that is given away: of one without modules nothing is copied.
pub fn flatten_own(alloc: Global, text: BlueText) -> Result<Blueprint, CheckEnd>
    ensures flat { IfOk result (λ b. IsFlat (plain_text text) (plain b)) }
    ensures fault { (f : CheckFault) → result ≡ Err (CheckEnd.Fault f) → modules_fault (plain_text text) ≡ Some f }
{
    match modules::flatten_own(alloc, text) {
        Ok(blueprint) => Ok(blueprint),
        Err(modules::FlatEnd::Fault(fault)) => Err(CheckEnd::Fault(as_check_fault(fault))),
        Err(modules::FlatEnd::NoMemory) => Err(CheckEnd::NoMemory),
    }
}
