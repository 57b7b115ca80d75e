//! Programs from bytes, and bytes from programs.
//!
//! The promise to the layers above: `decode` answers a program exactly if the bytes spell it (clauses `found` and
//! `only`), unless memory runs out. Otherwise it names the first faulty unit and that unit's least-numbered fault
//! (`first_fault` and `refused`). `encode` gives the spelling (`spelled`), so decoding what you encoded gives it back.
//! bpf_model defines spelling, after RFC 9669. `specs/Faults.antt` says which fault is first, `specs/UnitFaults.antt`
//! which fault a unit has, and `specs/Opcodes.antt` which fields an opcode uses. Each call asks for memory once, for
//! its result. Never waits.
#![tactic(auto)]

mod codes;
mod decoder;
mod encoder;
mod fault;
mod opcode;
mod operands;
mod sameness;
mod spelling;
mod unit;

pub use decoder::decode;
pub use encoder::encode;
pub use fault::DecodeFault;
pub use sameness::spells;
