//! Programs from text, and text from programs: one instruction per line.
//!
//! The promise to the layers above: `assemble` answers a program exactly if the text is its canonical text (clauses
//! `found` and `only`). Exactly if a line is faulty, it names the first one (`first_fault` and `refused`). The
//! exception is a refusal of memory, which can come only after a line was read (`memory`). `disassemble` gives the
//! canonical text (`text`), so each undoes the other. `instruction_text` gives the text of one instruction (`text`).
//! `specs/Text.antt` defines the grammar by its forms, with the names of `specs/Names.antt`; it says nothing about
//! reading. A line's fault is the first one from left to right (`specs/Reading.antt`, which uses
//! `specs/Operands.antt`). No call waits; all ask for memory only for their results.
#![tactic(auto)]

mod assembler;
mod cursor;
mod fault;
mod line;
mod mnemonic;
mod number;
mod operands;
mod printer;
mod tables;

pub use assembler::assemble;
pub use fault::AsmFault;
pub use printer::{disassemble, instruction_text};
