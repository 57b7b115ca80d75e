//! The numbers in opcodes that stand for operations, conditions and sizes.
ghost use Rattle.std.specs.Prelude.{◌≡◌, ◌<◌, ◌≤◌, IfSome, IfNone, false};
ghost use Rattle.bpf_model.specs.Spelling.{code_of, test_code as code_of_test, size_code as code_of_size, mode_of, mode_mem, mode_memsx};
ghost use Rattle.bpf_model.specs.Accesses.{loaded_size};
ghost use Rattle.bpf_decode.specs.Opcodes.{is_alu_code, is_test_code, used_by_load};

use bpf_model::{AccessSize, AluOp, JumpOp, LoadKind};

/// Returns the operation of an arithmetic code (the unsigned one for DIV and MOD), or `None` if it is a code of another
/// kind.
pub(crate) fn alu_op(code: u8) -> Option<AluOp>
    ensures some { IfSome result (λ op. code_of op ≡ code) }
    ensures none { IfNone result (is_alu_code code ≡ false) }
{
    match code {
        0 => Some(AluOp::Add),
        1 => Some(AluOp::Sub),
        2 => Some(AluOp::Mul),
        3 => Some(AluOp::Div),
        4 => Some(AluOp::Or),
        5 => Some(AluOp::And),
        6 => Some(AluOp::Lsh),
        7 => Some(AluOp::Rsh),
        9 => Some(AluOp::Mod),
        10 => Some(AluOp::Xor),
        12 => Some(AluOp::Arsh),
        _ => None,
    }
}

/// The code of an operation.
pub(crate) fn alu_code(op: AluOp) -> u8
    ensures value { result ≡ code_of op }
    ensures bounded { result < 16 }
{
    match op {
        AluOp::Add => 0,
        AluOp::Sub => 1,
        AluOp::Mul => 2,
        AluOp::Div | AluOp::SDiv => 3,
        AluOp::Or => 4,
        AluOp::And => 5,
        AluOp::Lsh => 6,
        AluOp::Rsh => 7,
        AluOp::Mod | AluOp::SMod => 9,
        AluOp::Xor => 10,
        AluOp::Arsh => 12,
    }
}

/// Returns the test of a jump code, or `None` if the jump has no condition or no jump has the code.
pub(crate) fn jump_test(code: u8) -> Option<JumpOp>
    ensures some { IfSome result (λ test. code_of_test test ≡ code) }
    ensures none { IfNone result (is_test_code code ≡ false) }
{
    match code {
        1 => Some(JumpOp::Eq),
        2 => Some(JumpOp::Gt),
        3 => Some(JumpOp::Ge),
        4 => Some(JumpOp::Set),
        5 => Some(JumpOp::Ne),
        6 => Some(JumpOp::SGt),
        7 => Some(JumpOp::SGe),
        10 => Some(JumpOp::Lt),
        11 => Some(JumpOp::Le),
        12 => Some(JumpOp::SLt),
        13 => Some(JumpOp::SLe),
        _ => None,
    }
}

/// The code of a test.
pub(crate) fn test_code(test: JumpOp) -> u8
    ensures value { result ≡ code_of_test test }
    ensures bounded { result < 16 }
{
    match test {
        JumpOp::Eq => 1,
        JumpOp::Gt => 2,
        JumpOp::Ge => 3,
        JumpOp::Set => 4,
        JumpOp::Ne => 5,
        JumpOp::SGt => 6,
        JumpOp::SGe => 7,
        JumpOp::Lt => 10,
        JumpOp::Le => 11,
        JumpOp::SLt => 12,
        JumpOp::SLe => 13,
    }
}

/// Returns the size of a size code, 0 to 3.
pub(crate) fn access_size(code: u8) -> AccessSize
    requires { code < 4 }
    ensures { code_of_size result ≡ code }
{
    match code {
        0 => AccessSize::Word,
        1 => AccessSize::HalfWord,
        2 => AccessSize::Byte,
        _ => AccessSize::DoubleWord,
    }
}

/// The code of a size.
pub(crate) fn size_code(size: AccessSize) -> u8
    ensures value { result ≡ code_of_size size }
    ensures bounded { result < 4 }
{
    match size {
        AccessSize::Word => 0,
        AccessSize::HalfWord => 1,
        AccessSize::Byte => 2,
        AccessSize::DoubleWord => 3,
    }
}

/// Returns what a load of this mode and size reads, or `None` if there is no such load.
pub(crate) fn load_kind(mode: u8, size: AccessSize) -> Option<LoadKind>
    ensures mode { IfSome result (λ kind. mode_of kind ≡ mode) }
    ensures size { IfSome result (λ kind. loaded_size kind ≡ size) }
    ensures none { IfNone result (used_by_load mode (code_of_size size) ≡ None) }
{
    match (mode, size) {
        (3, AccessSize::Byte) => Some(LoadKind::Byte),
        (3, AccessSize::HalfWord) => Some(LoadKind::HalfWord),
        (3, AccessSize::Word) => Some(LoadKind::Word),
        (3, AccessSize::DoubleWord) => Some(LoadKind::DoubleWord),
        (4, AccessSize::Byte) => Some(LoadKind::SignedByte),
        (4, AccessSize::HalfWord) => Some(LoadKind::SignedHalfWord),
        (4, AccessSize::Word) => Some(LoadKind::SignedWord),
        _ => None,
    }
}

/// The mode of a load.
pub(crate) fn mode(kind: LoadKind) -> u8
    ensures value { result ≡ mode_of kind }
    ensures bounded { result < 8 }
{
    match kind {
        LoadKind::Byte | LoadKind::HalfWord | LoadKind::Word | LoadKind::DoubleWord => 3,
        LoadKind::SignedByte | LoadKind::SignedHalfWord | LoadKind::SignedWord => 4,
    }
}
