//! Operands that stand in several lines.
use script_types::Operand;

pub const REGISTER: Operand = Operand::Lettered(b'r', 7);

pub const MESSAGE: Operand = Operand::Lettered(b'm', 7);

pub const STATUS: Operand = Operand::Lettered(b's', 15);

pub const DEVICE: Operand = Operand::Lettered(b'd', 15);

pub const FAST_MUTEX: Operand = Operand::Lettered(b'f', 15);

pub const PRIORITY: Operand = Operand::Number(0, 63);

pub const COUNT: Operand = Operand::Number(0, 2_147_483_647);

pub const SIZE: Operand = Operand::Number(0, 1024);

pub const NAME: Operand = Operand::Name;

pub const CODE: Operand = Operand::Code;

pub const ARGUMENT: Operand = Operand::Argument;

pub const HELD: Operand = Operand::Held;
