//! Why an operation does not apply, as text.
ghost use Rattle.std.specs.Prelude.{◌≡◌, ◌++◌, IfOk, string_bytes};
ghost use Rattle.mol_base.specs.Identity.{spelled_id};
ghost use Rattle.mol_report_logs.specs.OpFaults.{fault_id, fault_name, op_fault_text};

use mol_base::{Id, OutOfMemory};
use mol_op::OpFault;
use std::alloc::Global;

/// The text of why an operation does not apply: the fault's name, a space and the identity concerned, without its address.
pub(crate) fn op_fault_text(alloc: Global, fault: &OpFault) -> Result<String, OutOfMemory>
    ensures { IfOk result (λ text. string_bytes text ≡ op_fault_text fault.now) }
{
    let id = fault_id(fault).write(alloc)?;
    Ok(format!(in alloc; "{} {}", fault_name(fault), id.as_str())?)
}

/// The name of a fault.
fn fault_name(fault: &OpFault) -> &'static str
    ensures { result.now ≡ fault_name fault.now }
{
    match fault {
        OpFault::Unknown(_) => "unknown",
        OpFault::WrongKind(_) => "wrong-kind",
        OpFault::NotStatic(_) => "not-static",
        OpFault::BadTag(_) => "bad-tag",
        OpFault::NotFresh(_) => "not-fresh",
    }
}

/// The identity that a fault is about.
fn fault_id(fault: &OpFault) -> &Id
    ensures { result.now ≡ fault_id fault.now }
{
    match fault {
        OpFault::Unknown(id)
        | OpFault::WrongKind(id)
        | OpFault::NotStatic(id)
        | OpFault::BadTag(id)
        | OpFault::NotFresh(id) => id,
    }
}
