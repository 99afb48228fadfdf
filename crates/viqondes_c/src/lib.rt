//! What C links: the library's calls under the symbols of c/viqondes.h.
#![tactic(auto)]

ghost use Rattle.viqondes.specs.Numbers.{FaultNumber};

/// The number of the fault of a plan record or of its graph, or 0 where there is none.
#[unsafe(no_mangle)]
pub extern "C" fn viqondes_plan_fault(bytes: &[u8]) -> u8
    ensures { FaultNumber bytes.now result }
{
    viqondes::viqondes_plan_fault(bytes)
}
