// The rental-shop profile (document 02, S-3): whether a procedure can run out of thread rows, told from its table alone. Grounds 8, 9, 16 and 17.
#![tactic(auto)]

ghost use Rattle.std.specs.Prelude.{◌≡◌, true, ◌+◌, ◌≤◌, ◌<◌};
ghost use Rattle.table.specs.Table.{Table, definitions, nodes};
ghost use Rattle.table.specs.Layout.{branch_count};
ghost use Rattle.table.specs.Form.Laws.{Counts};
ghost use Rattle.rules_laws.specs.Granted.{Granted};
ghost use Rattle.profile.specs.Profile.{largest, is_spawn, node_spawns, node_allowed, calls_allowed, node_bound, branch_bound, definition_bound, profile_of, profile_call};
ghost use Rattle.profile.specs.Equations.{Rising};
ghost use Rattle.profile.specs.Finding.{above, capped, Kept, onward, marked_by, Spawning};

use std::marker::Model;
use table::{Part, Table, field};

// A bound above the rows that there are is told as one more than these.
const ABOVE: u32 = state::THREADS + 1;

// Why a table does not pass the check.
#[derive(Clone, Copy, PartialEq, Eq)]
pub enum ProfileRefusal {
    WrongLength,
    WrongTable,
    ForbiddenCall,
    ManyThreads,
}

// What the bound of a node rests on: nothing, which makes it 1; another definition, which the node calls; or its branches.
#[derive(Clone, Copy)]
enum Onward {
    Nowhere,
    Definition(u32),
    Branches,
}

// ---- ground 16

// Whether branch i of node n is a spawn.
#[tactic(auto, unfolding(crate::specs::Profile::is_spawn))]
fn is_spawn(table: &Table, n: u32, i: u32) -> bool
    ensures { result ≡ is_spawn table.now n i }
{
    let row = program::branch_at(table, n, i);
    table.cell(row, field::ACTION) == table::SPAWN
}

// Whether a branch of node n is a spawn.
fn node_spawns(table: &Table, n: u32) -> bool
    ensures { result ≡ node_spawns table.now n }
{
    let count = table.branch_count(n);
    (0..count).any(|i| is_spawn(table, n, i))
}

// The definition of node n is marked if the node has a spawn.
#[tactic(auto, unfolding(crate::specs::Finding::marked_by))]
fn mark_node(table: &Table, spawning: &mut [u32], n: u32)
    ensures { spawning.new ≡ marked_by table.now n spawning.old }
{
    if node_spawns(table, n) {
        numbers::put_cell(spawning, program::definition_of(table, n) as usize, 1);
    }
}

// The marks of the definitions that have a spawn.
fn mark_spawns(table: &Table) -> [u32; table::MAX_DEFINITIONS as usize]
    ensures { Spawning table.now (nodes table.now) result }
{
    let mut spawning = [0; table::MAX_DEFINITIONS as usize];
    let count = table.node_total();
    for n in 0..count {
        mark_node(table, &mut spawning, n);
    }
    spawning
}

// Whether node n is no call, or one that is allowed.
#[tactic(auto, unfolding(crate::specs::Profile::node_allowed, crate::specs::Profile::call_allowed, rules::specs::Program::kind_of, rules::specs::Program::callee))]
fn node_allowed(table: &Table, spawning: &[u32], n: u32) -> bool
    requires counts { Counts table.now }
    requires granted { Granted table.now }
    requires spawning { Spawning table.now (nodes table.now) spawning.now }
    requires n_bound { n < nodes table.now }
    ensures { result ≡ node_allowed table.now n }
{
    let row = table.node_row() + n as usize;
    let own = program::definition_of(table, n);
    let callee = table.cell(row, field::CALLEE);
    table.cell(row, field::NODE_KIND) != table::CALL
        || own < callee
        || (callee == own && numbers::cell_at(spawning, own as usize) == 0)
}

// Ground 16: whether every call of the table is allowed.
fn calls_allowed(table: &Table) -> bool
    requires granted { Granted table.now }
    ensures { result ≡ calls_allowed table.now }
{
    let spawning = mark_spawns(table);
    let count = table.node_total();
    (0..count).all(|n| node_allowed(table, &spawning, n))
}

// ---- ground 17

// The sum of two bounds, as a bound.
#[tactic(auto, unfolding(crate::specs::Finding::capped))]
fn joint(a: u32, b: u32) -> u32
    requires { (a ≤ above) × (b ≤ above) }
    ensures { result ≡ capped (a + b) }
{
    (a + b).min(ABOVE)
}

// What the bound of node n rests on.
#[tactic(auto, unfolding(crate::specs::Finding::onward, rules::specs::Program::kind_of, rules::specs::Program::callee))]
fn onward_of(table: &Table, n: u32) -> Onward
    ensures { result ≡ onward table.now n }
{
    let row = table.node_row() + n as usize;
    let callee = table.cell(row, field::CALLEE);
    match table.cell(row, field::NODE_KIND) {
        table::CHOICE => Onward::Branches,
        table::CALL if callee != program::definition_of(table, n) => Onward::Definition(callee),
        _ => Onward::Nowhere,
    }
}

// A table in which bounds rest on later nodes alone, with the bounds that have been found: 0 stands for one that has not.
#[derive(Drop)]
struct Bounds<'a> {
    table: &'a Table<'a>,
    kept: [u32; table::MAX_NODES as usize],
}

impl<'a> Model for Bounds<'a> {
    ghost Value = { Table };

    ghost view = { λ b. b.table.now };

    ghost invariant = { λ b. Rising b.table.now × Kept b.table.now b.kept };
}

#[tactic(auto, using(crate::proofs::Finding::Bounds::ways))]
impl<'a> Bounds<'a> {
    // No bound is found yet.
    fn new(table: &'a Table<'a>) -> Self
        requires { Rising table.now }
        ensures { result ≡ table.now }
    {
        let kept = [0; table::MAX_NODES as usize];
        Bounds { table, kept }
    }

    // The bound of branch i of node n: that of its next node and, for a spawn, that of its child besides.
    #[cycle(bounds)]
    fn branch_bound(&mut self, n: u32, i: u32) -> u32
        requires n_bound { n < nodes self.old }
        requires i_bound { i < branch_count self.old n }
        ensures value { result ≡ capped (branch_bound self.old n i) }
        ensures same_table { self.new ≡ self.old }
    {
        let table = self.table;
        let row = program::branch_at(table, n, i);
        let next = self.node_bound(program::next_of(table, n, row));
        if is_spawn(table, n, i) {
            let child = self.node_bound(program::child_of(table, n, row));
            joint(next, child)
        } else {
            next
        }
    }

    // The bound of a choice: the largest over its branches.
    #[cycle(bounds)]
    fn choice_bound(&mut self, n: u32) -> u32
        requires n_bound { n < nodes self.old }
        ensures value { result ≡ capped (largest (branch_bound self.old n) (branch_count self.old n)) }
        ensures same_table { self.new ≡ self.old }
    {
        let count = self.table.branch_count(n);
        let mut most: u32 = 0;
        for i in 0..count {
            most = most.max(self.branch_bound(n, i));
        }
        most
    }

    // The bound of a definition: that of its first node.
    #[cycle(bounds)]
    fn definition_bound(&mut self, d: u32) -> u32
        requires d_bound { d < definitions self.old }
        ensures value { result ≡ capped (definition_bound self.old d) }
        ensures same_table { self.new ≡ self.old }
    {
        let first = self.table.start(Part::Nodes, d);
        self.node_bound(first)
    }

    // The bound of node n: the one that is kept, or else the one that is found from the nodes to which it leads, which is then kept.
    #[cycle(bounds)]
    fn node_bound(&mut self, n: u32) -> u32
        requires n_bound { n < nodes self.old }
        ensures value { result ≡ capped (node_bound self.old n) }
        ensures same_table { self.new ≡ self.old }
    {
        let found = numbers::cell_at(&self.kept, n as usize);
        if found != 0 {
            return found;
        }
        let bound = match onward_of(self.table, n) {
            Onward::Nowhere => 1,
            Onward::Definition(d) => self.definition_bound(d),
            Onward::Branches => self.choice_bound(n),
        };
        numbers::put_cell(&mut self.kept, n as usize, bound);
        bound
    }
}

// The bound of definition 0. The bounds of all nodes are found before, from the last node to the first, so that each finds those on which it rests kept.
fn thread_bound(table: &Table) -> u32
    requires rising { Rising table.now }
    ensures { result ≡ capped (definition_bound table.now 0) }
{
    let mut bounds = Bounds::new(table);
    for n in (0..table.node_total()).rev() {
        bounds.node_bound(n);
    }
    bounds.definition_bound(0)
}

// Grounds 16 and 17, of an accepted table.
fn judge(table: &Table) -> Result<u32, ProfileRefusal>
    requires granted { Granted table.now }
    requires rising { calls_allowed table.now ≡ true → Rising table.now }
    ensures { result ≡ profile_of table.now }
{
    if !calls_allowed(table) {
        return Err(ProfileRefusal::ForbiddenCall);
    }
    let threads = thread_bound(table);
    if threads < ABOVE {
        Ok(threads)
    } else {
        Err(ProfileRefusal::ManyThreads)
    }
}

// The check of a table: how many threads its procedure can come to have, if the table has its length, is one that loading yields, has no call that is
// forbidden, and needs no more thread rows than there are.
pub fn profile(table: &[u8]) -> Result<u32, ProfileRefusal>
    ensures { result ≡ profile_call table.now }
{
    if table.len() != table::BYTES {
        return Err(ProfileRefusal::WrongLength);
    }
    let mut index = [0u32; table::INDEX];
    let mut gaps = [0u32; loader::GAPS];
    let accepted = loader::accept(table, &mut index, &mut gaps).ok_or(ProfileRefusal::WrongTable)?;
    judge(accepted.table())
}
