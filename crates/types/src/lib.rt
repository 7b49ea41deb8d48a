// Ground 5 over a table whose fields are in range: types that disagree. A row is tested by its kind. Its definition is looked up once and handed down.
#![tactic(auto)]

ghost use Rattle.std.specs.Prelude.{◌≡◌};
ghost use Rattle.numbers.specs.Search.{every, first};
ghost use Rattle.table.specs.Table.{carried};
ghost use Rattle.table.specs.Layout.{slot_type};
ghost use Rattle.table.specs.Roles.{operand};
ghost use Rattle.types.specs.Types.{role_typed, port_typed, ports_typed, argument_typed, node_typed, branch_typed, row_typed, types_disagree};

use roles::{operand_of, role_of};
use table::{Part, Role, Table, field};

// Whether a slot of type t fits a role, where the action's channel carries type u.
#[tactic(auto, unfolding(crate::specs::Types::role_typed))]
fn role_typed(role: Role, t: u32, u: u32) -> bool
    ensures { result ≡ role_typed role t u }
{
    match role {
        Role::Unused | Role::Constant => true,
        Role::ReadNumber | Role::WriteNumber => t == 0,
        Role::ReadChannel | Role::WriteChannel => t != 0,
        Role::ReadCarried | Role::WriteCarried => t == u,
    }
}

// Whether each of n ports is a slot of type 1 of definition 0.
fn each_port_typed(table: &Table, n: u32) -> bool
    ensures { result ≡ every (port_typed table.now) n }
{
    (0..n).all(|k| table.slot_type(0, k) == 1)
}

// Whether the ports are the parameters of definition 0, all of type 1, which carries numbers.
#[tactic(auto, unfolding(crate::specs::Types::ports_typed))]
fn ports_typed(table: &Table) -> bool
    ensures { result ≡ ports_typed table.now }
{
    let n = table.ports();
    table.parameters(0) == n
        && each_port_typed(table, n)
        && (n == 0 || (table.cell(0, field::TYPES) >= 1 && table.cell(1, field::CARRIED) == 0))
}

// Whether argument i of the call in a row, which stands in definition d, has the type of its parameter.
#[tactic(auto, unfolding(crate::specs::Types::argument_typed))]
fn argument_typed(table: &Table, row: usize, d: u32, i: u32) -> bool
    ensures { result ≡ argument_typed table.now row d i }
{
    let called = table.cell(row, field::CALLEE);
    let argument = table.cell(row, field::ARGUMENTS + i as usize);
    let given = table.slot_type(d, argument);
    given == table.slot_type(called, i)
}

// Whether the n arguments of the call in a row, which stands in definition d, have the types of their parameters.
fn arguments_typed(table: &Table, row: usize, d: u32, n: u32) -> bool
    ensures { result ≡ every (argument_typed table.now row d) n }
{
    (0..n).all(|i| argument_typed(table, row, d, i))
}

// Whether the node in a row, which stands in definition d, agrees in types: only a call can disagree.
#[tactic(auto, unfolding(crate::specs::Types::node_typed))]
fn node_typed(table: &Table, row: usize, d: u32) -> bool
    ensures { result ≡ node_typed table.now row d }
{
    let callee = table.cell(row, field::CALLEE);
    table.cell(row, field::NODE_KIND) != table::CALL
        || arguments_typed(table, row, d, table.parameters(callee))
}

// Whether all operands of the branch in a row fit their roles. The branch stands in definition d, and its action's channel carries type u.
fn operands_typed(table: &Table, row: usize, d: u32, u: u32) -> bool
    requires u_value { u ≡ carried table.now (slot_type table.now d (operand table.now row 2)) }
    ensures { result ≡ branch_typed table.now row d }
{
    (0..table::OPERANDS).all(|k| {
        let t = table.slot_type(d, operand_of(table, row, k));
        role_typed(role_of(table, row, k), t, u)
    })
}

// Whether the branch in a row, which stands in definition d, agrees in types.
fn branch_typed(table: &Table, row: usize, d: u32) -> bool
    ensures { result ≡ branch_typed table.now row d }
{
    let channel = table.slot_type(d, operand_of(table, row, 2));
    let carried = table.cell(channel as usize, field::CARRIED);
    operands_typed(table, row, d, carried)
}

// Whether a row agrees in types, by its kind; the row of definition 0 answers for the ports.
#[tactic(auto, unfolding(crate::specs::Types::row_typed))]
fn row_typed(table: &Table, row: usize) -> bool
    ensures { result ≡ row_typed table.now row }
{
    match table.cell(row, field::KIND) {
        _ if row == table.definition_row() => ports_typed(table),
        5 => node_typed(table, row, table.definition_at(row)),
        6 => {
            let node = table.node_at(row);
            let d = table.owner(Part::Nodes, node as usize);
            branch_typed(table, row, d)
        }
        _ => true,
    }
}

// The first of n rows where types disagree; n where there is none.
pub fn first_types_disagree(table: &Table, n: usize) -> usize
    ensures { result ≡ first (types_disagree table.now) n }
{
    (0..n).find(|row| !row_typed(table, *row)).unwrap_or(n)
}
