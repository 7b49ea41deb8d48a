// Ground 4 over a table whose counts ground 3 has passed: fields out of their range. A row is tested by its kind. Its node and its definition are looked
// up once and handed down.
#![tactic(auto)]

ghost use Rattle.std.specs.Prelude.{◌≡◌, ◌≤◌};
ghost use Rattle.numbers.specs.Search.{every, first};
ghost use Rattle.table.specs.Layout.{start};
ghost use Rattle.table.specs.declared.Part.TheVariants.{Nodes};
ghost use Rattle.table.specs.Roles.{operand_count};
ghost use Rattle.ranges.specs.Ranges.{role_in_range, ahead, rest_unused, type_in_range, definition_in_range, argument_in_range, call_in_range, node_in_range, operand_in_range, targets_in_range, branch_in_range, row_in_range, out_of_range};

use roles::{operand_of, role_of};
use table::{
    MAX_OWN_BRANCHES, MAX_OWN_NODES, MAX_OWN_SLOTS, MAX_PARAMETERS, Part, Role, Table, field,
    is_within,
};

// Whether the numbers of a row from number k on are 0.
fn rest_unused(table: &Table, row: usize, k: usize) -> bool
    ensures { result ≡ rest_unused table.now row k }
{
    (k..table::ROW_NUMBERS).all(|i| table.cell(row, i) == 0)
}

// Whether the line of a type, or of a slot, names a type that there is.
#[tactic(auto, unfolding(crate::specs::Ranges::type_in_range))]
fn type_in_range(table: &Table, row: usize) -> bool
    ensures { result ≡ type_in_range table.now row }
{
    let types = table.cell(0, field::TYPES);
    is_within(0, types, table.cell(row, field::TYPE)) && rest_unused(table, row, 2)
}

// Whether the counts in the line of a definition are in range.
#[tactic(auto, unfolding(crate::specs::Ranges::definition_in_range))]
fn definition_in_range(table: &Table, row: usize) -> bool
    ensures { result ≡ definition_in_range table.now row }
{
    let parameters = table.cell(row, field::PARAMETERS);
    let slots = table.cell(row, field::OWN_SLOTS);
    is_within(0, MAX_PARAMETERS, parameters)
        && is_within(parameters, MAX_OWN_SLOTS, slots)
        && is_within(1, MAX_OWN_NODES, table.cell(row, field::OWN_NODES))
        && rest_unused(table, row, 4)
}

// Whether the n arguments of the call in a row are slots of the calling definition, which has s slots.
fn arguments_in_range(table: &Table, row: usize, s: u32, n: u32) -> bool
    ensures { result ≡ every (argument_in_range table.now row s) n }
{
    (0..n).all(|i| table.cell(row, field::ARGUMENTS + i as usize) < s)
}

// Whether the call in a row, out of a definition of s slots, is of a definition that there is, with an argument for each parameter.
#[tactic(auto, unfolding(crate::specs::Ranges::call_in_range))]
fn call_in_range(table: &Table, row: usize, s: u32) -> bool
    ensures { result ≡ call_in_range table.now row s }
{
    let called = table.cell(row, field::CALLEE);
    let n = table.parameters(called);
    called < table.cell(0, field::DEFINITIONS)
        && arguments_in_range(table, row, s, n)
        && rest_unused(table, row, field::ARGUMENTS + n as usize)
}

// Whether the line of a node is in range, by its form: an end, a choice or a call.
#[tactic(auto, unfolding(crate::specs::Ranges::node_in_range))]
fn node_in_range(table: &Table, row: usize) -> bool
    ensures { result ≡ node_in_range table.now row }
{
    match table.cell(row, field::NODE_KIND) {
        0 => rest_unused(table, row, 2),
        1 => {
            is_within(1, MAX_OWN_BRANCHES, table.cell(row, field::OWN_BRANCHES))
                && rest_unused(table, row, 3)
        }
        2 => {
            let d = table.definition_at(row);
            call_in_range(table, row, table.slots(d))
        }
        _ => false,
    }
}

// Whether a value is in the range of its role, in a definition of s slots.
#[tactic(auto, unfolding(crate::specs::Ranges::role_in_range))]
fn role_in_range(role: Role, s: u32, v: u32) -> bool
    ensures { result ≡ role_in_range role s v }
{
    match role {
        Role::Unused => v == 0,
        Role::Constant => true,
        Role::ReadNumber
        | Role::ReadChannel
        | Role::ReadCarried
        | Role::WriteNumber
        | Role::WriteChannel
        | Role::WriteCarried => v < s,
    }
}

// Whether all operands of the branch in a row are in the ranges of their roles, in a definition of s slots.
fn operands_in_range(table: &Table, row: usize, s: u32) -> bool
    ensures { result ≡ every (operand_in_range table.now row s) operand_count }
{
    (0..table::OPERANDS).all(|k| {
        let role = role_of(table, row, k);
        role_in_range(role, s, operand_of(table, row, k))
    })
}

// Whether node v lies past the branch's own node, in a definition of n nodes.
#[tactic(auto, unfolding(crate::specs::Ranges::ahead))]
fn is_ahead(own: u32, n: u32, v: u32) -> bool
    ensures { result ≡ ahead own n v }
{
    own < v && v < n
}

// Whether the branch in a row leads ahead, and to a child just where it is a spawn.
#[tactic(auto, unfolding(crate::specs::Ranges::targets_in_range))]
fn targets_in_range(table: &Table, row: usize, own: u32, n: u32) -> bool
    ensures { result ≡ targets_in_range table.now row own n }
{
    let child = table.cell(row, field::CHILD);
    let spawns = table.cell(row, field::ACTION) == table::SPAWN;
    is_ahead(own, n, table.cell(row, field::NEXT))
        && if spawns {
            is_ahead(own, n, child)
        } else {
            child == 0
        }
}

// Whether the line of a branch, of a node of definition d, is in range.
#[tactic(auto, unfolding(crate::specs::Ranges::branch_in_range))]
fn branch_in_range(table: &Table, row: usize, node: u32, d: u32) -> bool
    requires d_bound { start table.now Nodes d ≤ node }
    ensures { result ≡ branch_in_range table.now row node d }
{
    let own = node - table.start(Part::Nodes, d);
    is_within(0, 4, table.cell(row, field::GUARD))
        && is_within(0, 7, table.cell(row, field::ACTION))
        && operands_in_range(table, row, table.slots(d))
        && targets_in_range(table, row, own, table.nodes(d))
        && rest_unused(table, row, 10)
}

// Whether a row is in range, by its kind.
#[tactic(auto, using(table::specs::Layout::Laws::start_owner), unfolding(crate::specs::Ranges::row_in_range))]
fn row_in_range(table: &Table, row: usize) -> bool
    ensures { result ≡ row_in_range table.now row }
{
    match table.cell(row, field::KIND) {
        1 => rest_unused(table, row, 7),
        2 | 4 => type_in_range(table, row),
        3 => definition_in_range(table, row),
        5 => node_in_range(table, row),
        _ => {
            let node = table.node_at(row);
            let d = table.owner(Part::Nodes, node as usize);
            branch_in_range(table, row, node, d)
        }
    }
}

// The first of n rows with a field out of its range; n where there is none.
pub fn first_out_of_range(table: &Table, n: usize) -> usize
    ensures { result ≡ first (out_of_range table.now) n }
{
    (0..n).find(|row| !row_in_range(table, *row)).unwrap_or(n)
}
