//! Arithmetic on register values.
ghost use Rattle.std.specs.Prelude.{◌≡◌, ◌≢◌, ◌<◌, ℕ, ◌+◌, ◌-◌, ◌%◌, ◌^◌, Some, ℤ, pos, ◌+ℤ◌};
ghost use Rattle.bpf_model.specs.declared.window.Window.{Window};
ghost use Rattle.bpf_model.specs.Arithmetic.{alu_value, mov_value};
ghost use Rattle.value_ranges.specs.declared.range.Range.{Range as Bounds};
ghost use Rattle.value_ranges.specs.In.{IsIn, IsSingle};
ghost use Rattle.stack_slots.specs.Offsets.{AreInReach};
ghost use Rattle.stack_slots.specs.Values.{StandsFor, PointsTo, IsPointerIn, IsNumberIn};

use bpf_model::{AluOp, Width};
use stack_slots::{Pointer, RegValue};
use value_ranges::{Range, alu, mov};

/// Returns the value of an operation's result, on any words for which these values stand. At 64 bits a pointer plus a
/// number is a pointer, and so is a pointer minus a number; everything else is arithmetic on numbers.
pub fn operate(op: AluOp, width: Width, a: RegValue, b: RegValue) -> RegValue
    ensures holds { (x y : ℕ) → StandsFor a (Some x) → StandsFor b (Some y)
        → StandsFor result (Some (alu_value op width x y)) }
    ensures mask { op ≡ AluOp.And → width ≡ Width.W64 → (m : ℕ) (r : Bounds)
        → b ≡ RegValue.Number r → IsSingle r m → m < 2 ^ 63 → IsNumberIn (pos 0) (pos m) result }
    ensures sum { op ≡ AluOp.Add → width ≡ Width.W64 → (w : Window) (lo hi from to : ℤ)
        → AreInReach (lo +ℤ from) (hi +ℤ to) → IsPointerIn w lo hi a → IsNumberIn from to b
        → IsPointerIn w (lo +ℤ from) (hi +ℤ to) result }
    ensures value { result ≢ RegValue.Unwritten }
{
    match (op, width, a, b) {
        (AluOp::Add, Width::W64, RegValue::Pointer(pointer), RegValue::Number(number)) => sum(
            pointer, number,
        ),
        (AluOp::Add, Width::W64, RegValue::Number(number), RegValue::Pointer(pointer)) => sum(
            pointer, number,
        ),
        (AluOp::Sub, Width::W64, RegValue::Pointer(pointer), RegValue::Number(number)) =>
            difference(pointer, number),
        _ => RegValue::Number(alu(op, width, a.as_number(), b.as_number())),
    }
}

/// Returns the value of a moved word: at 64 bits the same value.
pub fn moved(width: Width, value: RegValue) -> RegValue
    ensures holds { (x : ℕ) → StandsFor value (Some x)
        → StandsFor result (Some (mov_value width x)) }
    ensures value { value ≢ RegValue.Unwritten → result ≢ RegValue.Unwritten }
    ensures whole { width ≡ Width.W64 → result ≡ value }
{
    match width {
        Width::W64 => value,
        Width::W32 => RegValue::Number(mov(width, value.as_number())),
    }
}

/// if the sum is out of a pointer's reach, it may be any word
fn sum(pointer: Pointer, number: Range) -> RegValue
    ensures holds { (x y : ℕ) → PointsTo pointer x → IsIn y number
        → StandsFor result (Some ((x + y) % 2 ^ 64)) }
    ensures near { (w : Window) (lo hi from to : ℤ) → AreInReach (lo +ℤ from) (hi +ℤ to)
        → IsPointerIn w lo hi (RegValue.Pointer pointer)
        → IsNumberIn from to (RegValue.Number number)
        → IsPointerIn w (lo +ℤ from) (hi +ℤ to) result }
    ensures value { result ≢ RegValue.Unwritten }
{
    match pointer.plus(number) {
        Some(moved) => RegValue::Pointer(moved),
        None => RegValue::Number(Range::full()),
    }
}

fn difference(pointer: Pointer, number: Range) -> RegValue
    ensures holds { (x y : ℕ) → PointsTo pointer x → IsIn y number
        → StandsFor result (Some ((x + (2 ^ 64 - y)) % 2 ^ 64)) }
    ensures value { result ≢ RegValue.Unwritten }
{
    match pointer.minus(number) {
        Some(moved) => RegValue::Pointer(moved),
        None => RegValue::Number(Range::full()),
    }
}
