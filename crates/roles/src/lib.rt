// What the operands of a branch are: the role that each guard and each action gives to each of its fields.
#![tactic(auto)]

ghost use Rattle.std.specs.Prelude.{◌≡◌, ◌<◌};
ghost use Rattle.table.specs.Roles.{guard_role, action_role, operand_place, operand, operand_role, reads, writes};

use table::{Role, Table, field};

// The role of operand k of guard g.
#[tactic(auto, unfolding(table::specs::Roles::guard_role))]
pub fn guard_role(g: u32, k: u32) -> Role
    ensures { result ≡ guard_role g k }
{
    match (g, k) {
        (0, _) => Role::Unused,
        (1 | 2, 1..) => Role::Constant,
        _ => Role::ReadNumber,
    }
}

// The role of operand k of action a, k being 0, 1, 2 for its fields a, b, c.
#[tactic(auto, unfolding(table::specs::Roles::action_role))]
pub fn action_role(a: u32, k: u32) -> Role
    ensures { result ≡ action_role a k }
{
    match (a, k) {
        (1 | 2, 0) => Role::ReadChannel,
        (1, 1) => Role::ReadCarried,
        (2, 1) => Role::WriteCarried,
        (3, 0) => Role::WriteChannel,
        (5.., 0) => Role::WriteNumber,
        (5, 1) => Role::Constant,
        (6.., _) => Role::ReadNumber,
        _ => Role::Unused,
    }
}

// The number of a branch's row that operand k is: two operands are its guard's, then three its action's.
#[tactic(auto, unfolding(table::specs::Roles::operand_place))]
fn operand_place(k: u32) -> usize
    ensures { result ≡ operand_place k }
{
    if k < 2 {
        field::FIRST + k as usize
    } else {
        3 + k as usize
    }
}

// Operand k of the branch in a row.
#[tactic(auto, unfolding(table::specs::Roles::operand))]
pub fn operand_of(table: &Table, row: usize, k: u32) -> u32
    ensures value { result ≡ operand table.now row k }
    ensures upper_bound { result < 65536 }
{
    table.cell(row, operand_place(k))
}

// The role of operand k of the branch in a row.
#[tactic(auto, unfolding(table::specs::Roles::operand_role))]
pub fn role_of(table: &Table, row: usize, k: u32) -> Role
    ensures { result ≡ operand_role table.now row k }
{
    if k < 2 {
        guard_role(table.cell(row, field::GUARD), k)
    } else {
        action_role(table.cell(row, field::ACTION), k - 2)
    }
}

// Whether a role reads its slot.
#[tactic(auto, unfolding(table::specs::Roles::reads))]
pub fn is_read(role: Role) -> bool
    ensures { result ≡ reads role }
{
    matches!(
        role,
        Role::ReadNumber | Role::ReadChannel | Role::ReadCarried
    )
}

// Whether a role writes its slot.
#[tactic(auto, unfolding(table::specs::Roles::writes))]
pub fn is_written(role: Role) -> bool
    ensures { result ≡ writes role }
{
    matches!(
        role,
        Role::WriteNumber | Role::WriteChannel | Role::WriteCarried
    )
}
