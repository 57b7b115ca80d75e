//! Made-up programs: a fixed sequence of them, and a checksum of all their answers. A new machine has to give the same
//! one.
ghost use Rattle.std.specs.Prelude.{◌<◌, ◌≤◌};

use anyhow::{Result, bail, ensure};
use bpf_machine::{Machine, run_into};
use bpf_model::{
    AccessSize, AluOp, ByteOrder, Input, Insn, JumpOp, Key, LoadKind, Operand, Program, Reg,
    SignExtension, Sizes, SwapWidth, Value, Width, fits, value_bytes,
};
use flow_shape::shape;
use std::alloc::Global;
use verifier::verify;

const SIZES: Sizes = Sizes {
    key: 64,
    old: 64,
    arg: 64,
    result: 64,
};

/// Numbers are loaded, stored or answered at one of the first 57 bytes of a window, so that 8 bytes fit.
const PLACES: u64 = 57;

const OPS: [AluOp; 13] = [
    AluOp::Add,
    AluOp::Sub,
    AluOp::Mul,
    AluOp::Div,
    AluOp::SDiv,
    AluOp::Or,
    AluOp::And,
    AluOp::Lsh,
    AluOp::Rsh,
    AluOp::Mod,
    AluOp::SMod,
    AluOp::Xor,
    AluOp::Arsh,
];

const TESTS: [JumpOp; 11] = [
    JumpOp::Eq,
    JumpOp::Gt,
    JumpOp::Ge,
    JumpOp::Set,
    JumpOp::Ne,
    JumpOp::SGt,
    JumpOp::SGe,
    JumpOp::Lt,
    JumpOp::Le,
    JumpOp::SLt,
    JumpOp::SLe,
];

const KINDS: [LoadKind; 7] = [
    LoadKind::Byte,
    LoadKind::HalfWord,
    LoadKind::Word,
    LoadKind::DoubleWord,
    LoadKind::SignedByte,
    LoadKind::SignedHalfWord,
    LoadKind::SignedWord,
];

const ACCESSES: [AccessSize; 4] = [
    AccessSize::Byte,
    AccessSize::HalfWord,
    AccessSize::Word,
    AccessSize::DoubleWord,
];

const EXTENSIONS: [SignExtension; 5] = [
    SignExtension::From8To32,
    SignExtension::From16To32,
    SignExtension::From8To64,
    SignExtension::From16To64,
    SignExtension::From32To64,
];

const ORDERS: [ByteOrder; 3] = [ByteOrder::Little, ByteOrder::Big, ByteOrder::Swap];

const SWAPS: [SwapWidth; 3] = [SwapWidth::S16, SwapWidth::S32, SwapWidth::S64];

fn reg(number: u8) -> Reg
    requires { number ≤ 10 }
{
    Reg::new(number).unwrap()
}

/// Numbers, each made from the last: a linear congruential generator.
#[derive(Drop)]
struct Numbers {
    last: u64,
}

impl Numbers {
    fn word(&mut self) -> u64 {
        self.last = self
            .last
            .wrapping_mul(6_364_136_223_846_793_005)
            .wrapping_add(1_442_695_040_888_963_407);
        self.last ^ (self.last >> 29)
    }

    fn below(&mut self, bound: u64) -> u64
        requires { 0 < bound }
        ensures { result < bound }
    {
        (self.word() >> 20) % bound
    }

    fn width(&mut self) -> Width {
        if self.below(2) == 0 {
            Width::W32
        } else {
            Width::W64
        }
    }

    /// Picks r0, r5 or r9, which hold numbers.
    fn register(&mut self) -> Reg {
        match self.below(3) {
            0 => reg(0),
            1 => reg(5),
            _ => reg(9),
        }
    }

    /// Picks an immediate, small or not.
    fn immediate(&mut self) -> i32 {
        let word = ((self.word() >> 32) as u32).cast_signed();
        match self.below(3) {
            0 => word % 8,
            1 => word % 128,
            _ => word,
        }
    }

    fn operand(&mut self) -> Operand {
        if self.below(2) == 0 {
            Operand::Immediate(self.immediate())
        } else {
            Operand::Register(self.register())
        }
    }

    /// Picks a register that holds a window's address, and an offset from it; for a write, in result or stack.
    fn address(&mut self, is_written: bool) -> (Reg, i16) {
        let place = self.below(PLACES) as i16;
        match self.below(5) {
            0 | 1 | 2 if is_written => (reg(4), place),
            0 => (reg(1), place),
            1 => (reg(2), place),
            2 => (reg(3), place),
            3 => (reg(4), place),
            _ => (reg(10), place - 64),
        }
    }

    fn alu(&mut self) -> Insn {
        Insn::Alu {
            op: OPS[self.below(13) as usize],
            width: self.width(),
            dst: self.register(),
            src: self.operand(),
        }
    }

    fn load(&mut self) -> Insn {
        let (src, offset) = self.address(false);
        Insn::Load {
            kind: KINDS[self.below(7) as usize],
            dst: self.register(),
            src,
            offset,
        }
    }

    fn store(&mut self) -> Insn {
        let (dst, offset) = self.address(true);
        Insn::Store {
            size: ACCESSES[self.below(4) as usize],
            dst,
            src: self.operand(),
            offset,
        }
    }

    /// Picks a jump over at most two instructions of one unit.
    fn jump(&mut self) -> Insn {
        let far = self.below(3);
        match self.below(8) {
            0 => Insn::Jump {
                distance: far as i16,
            },
            1 => Insn::JumpLong {
                distance: far as i32,
            },
            _ => Insn::Branch {
                test: TESTS[self.below(11) as usize],
                width: self.width(),
                dst: self.register(),
                src: self.operand(),
                distance: far as i16,
            },
        }
    }

    /// Picks an instruction of one unit that is no jump.
    fn straight(&mut self) -> Insn {
        match self.below(16) {
            0 => Insn::Negate {
                width: self.width(),
                dst: self.register(),
            },
            1 => Insn::Mov {
                width: self.width(),
                dst: self.register(),
                src: self.operand(),
            },
            2 => Insn::SignExtend {
                extension: EXTENSIONS[self.below(5) as usize],
                dst: self.register(),
                src: self.register(),
            },
            3 => Insn::Reorder {
                order: ORDERS[self.below(3) as usize],
                size: SWAPS[self.below(3) as usize],
                dst: self.register(),
            },
            4 | 5 | 6 => self.load(),
            7 | 8 | 9 => self.store(),
            _ => self.alu(),
        }
    }

    /// Picks a wide instruction.
    fn wide(&mut self) -> Insn {
        let value = self.word();
        let dst = self.register();
        Insn::Wide { dst, value }
    }

    /// Appends an instruction, and at times a wide one, or a jump and the instructions that it may skip.
    fn append_some(&mut self, program: &mut Vec<Insn>) -> Result<()> {
        append(program, &[self.straight()])?;
        if self.below(4) > 0 {
            return Ok(());
        }
        if self.below(4) == 0 {
            return append(program, &[self.wide()]);
        }
        append(program, &[self.jump(), self.straight(), self.straight()])
    }
}

fn append(program: &mut Vec<Insn>, more: &[Insn]) -> Result<()> {
    Ok(program.extend_from_slice(more)?)
}

fn load_number(dst: u8, src: u8) -> Insn
    requires dst { dst ≤ 10 }
    requires src { src ≤ 10 }
{
    Insn::Load {
        kind: LoadKind::DoubleWord,
        dst: reg(dst),
        src: reg(src),
        offset: 8,
    }
}

fn store_number(dst: u8, src: u8, offset: i16) -> Insn
    requires dst { dst ≤ 10 }
    requires src { src ≤ 10 }
{
    Insn::Store {
        size: AccessSize::DoubleWord,
        dst: reg(dst),
        src: Operand::Register(reg(src)),
        offset,
    }
}

/// Appends stores of a number to 8 bytes of the result, and of one to 8 bytes of the stack's upper 64.
fn append_stores(program: &mut Vec<Insn>, slot: u8) -> Result<()>
    requires { slot < 8 }
{
    let offset = i16::from(slot) * 8;
    let stores = [store_number(4, 5, offset), store_number(10, 9, offset - 64)];
    append(program, &stores)
}

/// Appends numbers for r0, r5 and r9, for the result and for the 64 upper bytes of the stack.
fn begin(program: &mut Vec<Insn>) -> Result<()> {
    let loads = [load_number(0, 2), load_number(5, 3), load_number(9, 1)];
    append(program, &loads)?;
    for slot in 0..8 {
        append_stores(program, slot)?;
    }
    Ok(())
}

/// Appends stores of the registers to the result, all of which is answered.
fn end(program: &mut Vec<Insn>) -> Result<()> {
    let stores = [
        store_number(4, 0, 0),
        store_number(4, 5, 8),
        store_number(4, 9, 16),
    ];
    append(program, &stores)?;
    let all = Insn::Mov {
        width: Width::W64,
        dst: reg(0),
        src: Operand::Immediate(64),
    };
    append(program, &[all, Insn::Exit])
}

fn made_up(alloc: Global, numbers: &mut Numbers) -> Result<Program> {
    let mut instructions = Vec::new(alloc);
    begin(&mut instructions)?;
    for _ in 0..numbers.below(40) {
        numbers.append_some(&mut instructions)?;
    }
    end(&mut instructions)?;
    match Program::new(instructions) {
        Some(program) => Ok(program),
        None => bail!("no program"),
    }
}

fn value(numbers: &mut Numbers) -> Result<Value> {
    let mut bytes = [0; 64];
    let mut left = numbers.below(64);
    for byte in &mut bytes {
        if left > 0 {
            *byte = (numbers.word() % 256) as u8;
            left -= 1;
        }
    }
    Ok(Value::from_slice(&bytes)?)
}

fn input(numbers: &mut Numbers) -> Result<Input> {
    let key = value(numbers)?;
    let old = value(numbers)?;
    let arg = value(numbers)?;
    Ok(Input {
        key: Key::from_slice(key.as_slice())?,
        old: if numbers.below(8) == 0 {
            None
        } else {
            Some(old)
        },
        arg: if numbers.below(8) == 0 {
            None
        } else {
            Some(arg)
        },
    })
}

/// Adds these bytes to the checksum: FNV-1a.
fn mixed(sum: u64, bytes: &[u8]) -> u64 {
    let mut sum = sum;
    for byte in bytes {
        sum = (sum ^ u64::from(*byte)).wrapping_mul(0x100_0000_01b3);
    }
    sum
}

/// The answers of the made-up programs so far: how many programs are safe, and the checksum of the answers. One machine
/// runs them all.
#[derive(Drop)]
struct Answers {
    safe: u64,
    sum: u64,
    machine: Machine,
    answer: Value,
}

impl Answers {
    /// Runs the next program on the next input, if it is safe.
    fn add(&mut self, alloc: Global, numbers: &mut Numbers) -> Result<()> {
        let program = made_up(alloc, numbers)?;
        let input = input(numbers)?;
        let Ok(verified) = verify(alloc, shape(program)?, SIZES) else {
            return Ok(());
        };
        ensure!(fits(&verified.sizes(), &input).is_ok(), "unfit");
        self.safe = self.safe.saturating_add(1);
        let (old, arg) = (
            value_bytes(input.old.as_ref()),
            value_bytes(input.arg.as_ref()),
        );
        let (machine, answer) = (&mut self.machine, &mut self.answer);
        if run_into(&verified, &input.key, old, arg, machine, answer) {
            self.sum = mixed(self.sum, self.answer.as_slice());
        }
        Ok(())
    }
}

/// Returns how many of the first `count` made-up programs are safe, and the checksum of their answers.
pub fn checksum(alloc: Global, count: u64) -> Result<(u64, u64)> {
    let mut numbers = Numbers { last: 1 };
    let mut answers = Answers {
        safe: 0,
        sum: 0xcbf2_9ce4_8422_2325,
        machine: Machine::new(),
        answer: Value::new(),
    };
    for _ in 0..count {
        answers.add(alloc, &mut numbers)?;
    }
    Ok((answers.safe, answers.sum))
}
